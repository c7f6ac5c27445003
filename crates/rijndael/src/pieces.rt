// Whole pieces through an operation, one after the other, under a schedule and a table for the operation's way.
ghost use Rattle.std.specs.Prelude.{◌≡◌, ◌/◌, ◌≤◌, length};
ghost use Rattle.octets.specs.Octets.{tabulate};
ghost use Rattle.modes_spec.specs.Modes.{machine};
ghost use Rattle.modes_spec.specs.Pieces.{ran};
ghost use Rattle.rijndael_spec.specs.Rijndael.{block_size};
ghost use Rattle.rijndael_spec.specs.Operations.{mode_of};
ghost use Rattle.rijndael_model.specs.Model.{entry_of, block_of};
ghost use Rattle.rijndael.specs.Model.{way_of, words_for, wide_one_way};

use crate::words::{load, store, sum};
use rijndael_model::Way;
use rijndael_rounds::through;
use rijndael_schedule::{columns, invert};
use rijndael_spec::{WideOperation, Width};

// What comes out of a piece, and what the next piece is chained to, in columns.
#[derive(Clone, Copy)]
struct Stepped {
    out: [u32; 8],
    next: [u32; 8],
}

// Which way an operation goes through the cipher.
pub fn way_of(operation: WideOperation) -> Way
    ensures { result ≡ way_of operation }
{
    match operation {
        WideOperation::EncryptEcb => Way::Forth,
        WideOperation::DecryptEcb => Way::Back,
        WideOperation::EncryptCbc => Way::Forth,
        WideOperation::DecryptCbc => Way::Back,
    }
}

// The schedule for a way, in place of that of the key.
pub fn words_for(way: Way, width: Width, rounds: usize, words: &mut [u32; 120])
    ensures { words.new ≡ words_for way width words.old rounds }
{
    if let Way::Back = way {
        invert(width, rounds, words);
    }
}

// As many whole pieces as the input has. The answer is what a piece after them is chained to.
pub fn pieces(
    width: Width,
    operation: WideOperation,
    table: &[u32; 256],
    words: &[u32; 120],
    rounds: usize,
    iv: [u32; 8],
    input: &[u8],
    output: &mut [u8],
) -> [u32; 8]
    requires { (table.now ≡ tabulate 256 (entry_of (way_of operation))) × (length input.now ≤ length output.old) }
    ensures { (block_of width result, output.new) ≡ ran (block_size width) (machine (wide_one_way width words.now rounds) (mode_of operation)) (block_of width iv) (length input.now / block_size width) input.now output.old }
{
    let n = columns(width);
    let size = 4 * n;
    let count = input.len() / size;
    let mut chain = iv;
    for i in 0..count {
        let piece = load(input, i * size, n);
        let s = step(width, operation, table, words, rounds, chain, piece);
        let out = s.out;
        let next = s.next;
        store(output, i * size, n, out);
        chain = next;
    }
    chain
}

// SP 800-38A's equations, an operation each.
fn step(
    width: Width,
    operation: WideOperation,
    table: &[u32; 256],
    words: &[u32; 120],
    rounds: usize,
    chain: [u32; 8],
    piece: [u32; 8],
) -> Stepped
    requires { table.now ≡ tabulate 256 (entry_of (way_of operation)) }
    ensures { (block_of width result.out ≡ (machine (wide_one_way width words.now rounds) (mode_of operation)).out (block_of width chain) (block_of width piece)) × (block_of width result.next ≡ (machine (wide_one_way width words.now rounds) (mode_of operation)).next (block_of width chain) (block_of width piece)) }
{
    match operation {
        WideOperation::EncryptEcb => {
            let out = through(Way::Forth, width, table, words, rounds, piece);
            Stepped { out, next: chain }
        }
        WideOperation::DecryptEcb => {
            let out = through(Way::Back, width, table, words, rounds, piece);
            Stepped { out, next: chain }
        }
        WideOperation::EncryptCbc => {
            let block = through(Way::Forth, width, table, words, rounds, sum(piece, chain));
            Stepped {
                out: block,
                next: block,
            }
        }
        WideOperation::DecryptCbc => {
            let block = through(Way::Back, width, table, words, rounds, piece);
            let out = sum(block, chain);
            Stepped { out, next: piece }
        }
    }
}
