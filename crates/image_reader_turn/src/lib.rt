// A turn of a reader over the blocks lent to it, up to the first that is refused, under two schedules that are lent.
#![tactic(auto)]

ghost use Rattle.std.specs.Prelude.{◌≡◌, ◌*◌, ◌≤◌, length};
ghost use Rattle.image_spec.specs.Judge.{of_both};
ghost use Rattle.image_spec.specs.KeyPair.{pair_keys};
ghost use Rattle.image_spec.specs.Model.{lent_of};
ghost use Rattle.image_reader_turn.specs.Turn as spec;
ghost use Rattle.image_reader_turn.specs.Model as model;

use aes_schedule::KeySchedule;
use aes_schedule_inverse::inverse_into;
use cmac_subkeys::Subkeys;
use image_block_judge::judge;
use image_block_open::open_block;
use image_progress::Progress;
use image_reader_tally::{BlocksRead, Stop, after_block, may_ask};
use image_reasons::Verdict;
use image_spec::KeyPair;
use octets_block::load;

// Takes the lent blocks in, as many as asked for, up to the first that is refused; the decrypted bytes of block j of the turn
// go into the output at 480 j. Refused as a whole it leaves progress and output as they were.
pub fn turn(
    keys: &KeyPair,
    progress: Progress,
    blocks: &[u8],
    asked: usize,
    output: &mut [u8],
) -> BlocksRead
    ensures { (result, output.new) ≡ spec.turn_under (pair_keys keys.now) progress blocks.now asked output.old }
{
    if !may_ask(asked) {
        return BlocksRead::none(progress, Stop::Asked);
    }
    if blocks.len() % 512 != 0 {
        return BlocksRead::none(progress, Stop::Lent);
    }
    let k = asked.min(blocks.len() / 512);
    if output.len() < k * 480 {
        return BlocksRead::none(progress, Stop::Room);
    }
    read_under(keys, progress, blocks, k, output)
}

// The blocks of a turn that has passed its own tests: the inverse schedule and the subkeys are made once and lent.
fn read_under(
    keys: &KeyPair,
    progress: Progress,
    blocks: &[u8],
    k: usize,
    output: &mut [u8],
) -> BlocksRead
    requires { (k * 512 ≤ length blocks.now) × (k * 480 ≤ length output.old) × (k ≤ 128) }
    ensures { (result, output.new) ≡ model.read_into (of_both (pair_keys keys.now)) progress (spec.cut k blocks.now) output.old }
{
    let mut dec = KeySchedule::none();
    inverse_into(&keys.enc, &mut dec);
    let subkeys = Subkeys::new(&keys.chk);
    read_blocks(keys, &dec, &subkeys, progress, blocks, k, output)
}

// At most k blocks, up to the first that is refused.
fn read_blocks(
    keys: &KeyPair,
    dec: &KeySchedule,
    subkeys: &Subkeys,
    progress: Progress,
    blocks: &[u8],
    k: usize,
    output: &mut [u8],
) -> BlocksRead
    requires { (k * 512 ≤ length blocks.now) × (k * 480 ≤ length output.old) × (k ≤ 128) }
    ensures { (result, output.new) ≡ model.read_into (of_both (lent_of keys.now dec.now subkeys.now)) progress (spec.cut k blocks.now) output.old }
{
    let mut done = BlocksRead::none(progress, Stop::End);
    // By number: a proof knows nothing of the bytes written through the parts that `chunks_exact_mut` lends.
    for j in 0..k {
        let block = &blocks[j * 512..j * 512 + 512];
        let part = &mut output[j * 480..j * 480 + 480];
        done = read_block(keys, dec, subkeys, done, block, part);
        let Stop::End = done.stop else {
            return done;
        };
    }
    done
}

// One block more. Accepted, it is opened into its part of the output.
fn read_block(
    keys: &KeyPair,
    dec: &KeySchedule,
    subkeys: &Subkeys,
    done: BlocksRead,
    block: &[u8],
    part: &mut [u8],
) -> BlocksRead
    requires { (length block.now ≡ 512) × (length part.old ≡ 480) }
    ensures { (result, part.new) ≡ model.block_into (of_both (lent_of keys.now dec.now subkeys.now)) done block.now part.old }
{
    let judged = judge(keys, dec, subkeys, done.progress, block);
    let next = after_block(done, judged, load(block, 496));
    if let Verdict::Accepted = judged.verdict {
        open_block(&keys.enc, dec, block, part);
    }
    next
}
