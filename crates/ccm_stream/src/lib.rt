// The counter blocks of CCM, and a message added to what the cipher makes of them.
#![tactic(auto)]

ghost use Rattle.std.specs.Prelude.{◌≡◌, ◌+◌, ◌/◌, ◌≤◌, length, drop};
ghost use Rattle.octets.specs.Octets.{pad_to};
ghost use Rattle.octets.specs.Blocks.{◌⊕◌};
ghost use Rattle.aes_spec.specs.Cipher.{standard};
ghost use Rattle.ccm_spec.specs.Ccm as spec;
ghost use Rattle.ccm_stream.specs.Model.{numbered_as, put_leading, streamed_over, streamed_into};

use aes_rounds::encrypt_block;
use aes_schedule::KeySchedule;
use octets_block::xor;

// Flags, nonce and a number in two bytes: B0 and the counter blocks are of this form.
pub fn flagged(flags: u8, nonce: [u8; 13], n: usize) -> [u8; 16]
    ensures { result ≡ spec.flagged flags nonce n }
{
    let mut block = [0; 16];
    block[0] = flags;
    block[1..14].copy_from_slice(&nonce);
    numbered(block, n)
}

// Such a block with another number.
pub fn numbered(mut block: [u8; 16], n: usize) -> [u8; 16]
    ensures { result ≡ numbered_as block n }
{
    block[14..].copy_from_slice(&((n % 65536) as u16).to_be_bytes());
    block
}

// The bytes from a place on added to a block as far as both go, then zeros.
pub fn leading_sum(s: &[u8], at: usize, block: [u8; 16]) -> [u8; 16]
    ensures { result ≡ pad_to 16 (drop at s.now ⊕ block) }
{
    let rest = &s[at.min(s.len())..];
    let n = rest.len().min(16);
    let mut piece = [0; 16];
    piece[..n].copy_from_slice(&rest[..n]);
    let mut sum = xor(piece, block);
    sum[n..].fill(0);
    sum
}

// The input, added to S1, S2 and so on, goes into the first bytes of the output; the output stays as it is if it is shorter than the input.
// The block is the counter block of number 0.
#[tactic(auto, unfolding(crate::specs::Model::streamed_over))]
pub fn stream(schedule: &KeySchedule, ctr: [u8; 16], input: &[u8], output: &mut [u8])
    ensures { output.new ≡ streamed_over (standard schedule.now.words schedule.now.rounds) ctr input.now output.old }
{
    if input.len() <= output.len() {
        stream_into(schedule, ctr, input, &mut output[..input.len()]);
    }
}

fn stream_into(schedule: &KeySchedule, ctr: [u8; 16], input: &[u8], output: &mut [u8])
    requires { length output.old ≡ length input.now }
    ensures { output.new ≡ streamed_into (standard schedule.now.words schedule.now.rounds) ctr input.now }
{
    for i in 0..piece_count(input.len()) {
        let made = encrypt_block(schedule, numbered(ctr, i + 1));
        put_leading(output, i * 16, leading_sum(input, i * 16, made));
    }
}

// A block from a place on, as much of it as there is room for.
fn put_leading(w: &mut [u8], at: usize, block: [u8; 16])
    requires { at ≤ length w.old }
    ensures { w.new ≡ put_leading w.old at block }
{
    let n = (w.len() - at).min(16);
    w[at..at + n].copy_from_slice(&block[..n]);
}

// How many pieces so many bytes have, the last of which may be short.
pub fn piece_count(len: usize) -> usize
    ensures { result ≡ (len + 15) / 16 }
{
    len.div_ceil(16)
}
