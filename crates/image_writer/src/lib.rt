// The writer of release images: one block, sealed under two keys.
#![tactic(auto)]

ghost use Rattle.std.specs.Prelude.{◌≡◌, true, ◌≤◌, length};
ghost use Rattle.image_limits.specs.Marks.{is_edition};
ghost use Rattle.image_spec.specs.Edition.{tail_of, edition};
ghost use Rattle.image_spec.specs.Sealed.{head_for};
ghost use Rattle.image_writer_answer.specs.Answers.{last_for};
ghost use Rattle.image_writer.specs.Model.{sealed_under};
ghost use Rattle.image_writer.specs.Calls as spec;

use aes_schedule::KeyAnswer;
use cmac_subkeys::Subkeys;
use image_block_seal::seal;
use image_layout::Head;
use image_limits::{mark_of, tail_size};
use image_spec::KeyPair;
use image_writer_answer::{Numbers, WriteAnswer, judge_write, last_for};

// Seals a payload into the first 512 bytes of the output, as one block of an image; in edition 2 on the check of the block before.
// A refused call leaves the output unchanged, and every call leaves the bytes past the block.
pub fn write(
    ekey: &[u8],
    ckey: &[u8],
    numbers: Numbers,
    previous: [u8; 16],
    payload: &[u8],
    output: &mut [u8],
) -> WriteAnswer
    ensures answer { result ≡ spec.write_answer ekey.now ckey.now numbers payload.now output.old }
    ensures written { output.new ≡ spec.write_output result ekey.now ckey.now numbers previous payload.now output.old }
{
    let mut keys = KeyPair::none();
    let taken = matches!(keys.expand(ekey, ckey), KeyAnswer::Taken);
    let answer = judge_write(taken, numbers, payload.len(), output.len());
    if let WriteAnswer::Written = answer {
        seal_under(&keys, numbers, previous, payload, output);
    }
    answer
}

// Seals the block under two schedules.
fn seal_under(
    keys: &KeyPair,
    numbers: Numbers,
    previous: [u8; 16],
    payload: &[u8],
    output: &mut [u8],
)
    requires { (length payload.now ≤ 480) × (is_edition numbers.edition ≡ true) }
    ensures { output.new ≡ sealed_under keys.now (tail_of numbers.edition (last_for numbers.number previous)) (head_for (edition numbers.edition) numbers.number numbers.count numbers.release (length payload.now)) payload.now output.old }
{
    let subkeys = Subkeys::new(&keys.chk);
    let head = head_for(numbers, payload.len());
    let last = last_for(numbers.number, previous);
    let covered = tail_size(numbers.edition);
    seal(keys, &subkeys, &last[..covered], head, payload, output);
}

fn head_for(numbers: Numbers, len: usize) -> Head
    requires { (len ≤ 480) × (is_edition numbers.edition ≡ true) }
    ensures { result ≡ head_for (edition numbers.edition) numbers.number numbers.count numbers.release len }
{
    Head {
        number: numbers.number,
        count: numbers.count,
        release: numbers.release,
        len: len as u16,
        reserved: mark_of(numbers.edition) as u16,
    }
}
