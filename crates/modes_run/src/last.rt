// The short last piece of OFB, which takes the leading bytes of the last cipher output.
ghost use Rattle.std.specs.Prelude.{◌≡◌, ◌≤◌, length};
ghost use Rattle.octets.specs.Blocks.{◌⊕◌};
ghost use Rattle.aes_spec.specs.Model.{one_way};
ghost use Rattle.modes_spec.specs.Pieces.{ran_through};
ghost use Rattle.modes_spec.specs.Modes.{machine};
ghost use Rattle.modes_spec.specs.declared.Operation.TheVariants.{Ofb};

use aes_rounds::encrypt_block;
use aes_schedule::KeySchedule;

// What is left of an input after its whole pieces, into as much of the output; if nothing is left, the cipher makes nothing.
pub fn last_piece(
    schedule: &KeySchedule,
    chain: [u8; 16],
    input: &[u8],
    output: &mut [u8],
) -> [u8; 16]
    requires { (length output.old ≡ length input.now) × (length input.now ≤ 16) }
    ensures { (result, output.new) ≡ ran_through 16 (machine (one_way schedule.now.words schedule.now.rounds) Ofb) chain input.now output.old }
{
    if input.is_empty() {
        return chain;
    }
    let output_block = encrypt_block(schedule, chain);
    add(input, output_block, output);
    output_block
}

// The sum of the input and the leading bytes of a block.
fn add(input: &[u8], block: [u8; 16], output: &mut [u8])
    requires { (length output.old ≡ length input.now) × (length input.now ≤ 16) }
    ensures { output.new ≡ input.now ⊕ block }
{
    for i in 0..input.len() {
        output[i] = input[i] ^ block[i];
    }
}
