// Rijndael with blocks of 24 and of 32 bytes under a key, in ECB and CBC. Images stay on blocks of 16 bytes: AES.
#![tactic(auto)]

mod answer;
mod pieces;
mod words;

ghost use Rattle.std.specs.Prelude.{◌≡◌};
ghost use Rattle.rijndael_spec.specs.declared.Width.TheVariants.{Six, Eight};
ghost use Rattle.rijndael_model.specs.Model.{block_of};
ghost use Rattle.rijndael.specs.Calls.{wide_answer, wide_output, wide_next, answer24, answer32};

use crate::answer::judge;
use crate::pieces::{pieces, way_of, words_for};
use crate::words::{start_of, store};
use modes_answer::ModeAnswer;
use rijndael_rounds::table_into;
use rijndael_schedule::schedule_into;
use rijndael_spec::{WideOperation, Width};

// An answer, and the chaining value that CBC hands on: the last ciphertext block, for an empty input the IV. As the IV of another call it
// lets more bytes go on from here. It is zeros in ECB, which chains nothing, and in a refused call.
#[derive(Clone, Copy)]
pub struct Applied24 {
    pub answer: ModeAnswer,
    pub next: [u8; 24],
}

#[derive(Clone, Copy)]
pub struct Applied32 {
    pub answer: ModeAnswer,
    pub next: [u8; 32],
}

// The same, with the chaining value in columns.
#[derive(Clone, Copy)]
struct Ended {
    answer: ModeAnswer,
    chain: [u32; 8],
}

// Encrypts or decrypts the input, whole blocks of 24 bytes, under a key; the IV is empty in ECB and 24 bytes in CBC.
// A refused call leaves the output as it was, and every call leaves bytes of it past the input's length.
pub fn apply_24(
    operation: WideOperation,
    key: &[u8],
    iv: &[u8],
    input: &[u8],
    output: &mut [u8],
) -> Applied24
    ensures answer { result ≡ answer24 (wide_answer Six operation key.now iv.now input.now output.old) operation key.now iv.now input.now }
    ensures written { output.new ≡ wide_output result.answer Six operation key.now iv.now input.now output.old }
{
    let e = apply(Width::Six, operation, key, iv, input, output);
    let answer = e.answer;
    let chain = e.chain;
    let mut next = [0u8; 24];
    store(&mut next, 0, 6, chain);
    Applied24 { answer, next }
}

// The same with blocks of 32 bytes, and so an IV of 32 in CBC.
pub fn apply_32(
    operation: WideOperation,
    key: &[u8],
    iv: &[u8],
    input: &[u8],
    output: &mut [u8],
) -> Applied32
    ensures answer { result ≡ answer32 (wide_answer Eight operation key.now iv.now input.now output.old) operation key.now iv.now input.now }
    ensures written { output.new ≡ wide_output result.answer Eight operation key.now iv.now input.now output.old }
{
    let e = apply(Width::Eight, operation, key, iv, input, output);
    let answer = e.answer;
    let chain = e.chain;
    let mut next = [0u8; 32];
    store(&mut next, 0, 8, chain);
    Applied32 { answer, next }
}

// For either width.
fn apply(
    width: Width,
    operation: WideOperation,
    key: &[u8],
    iv: &[u8],
    input: &[u8],
    output: &mut [u8],
) -> Ended
    ensures answer { (result.answer ≡ wide_answer width operation key.now iv.now input.now output.old) × (block_of width result.chain ≡ wide_next result.answer width operation key.now iv.now input.now) }
    ensures written { output.new ≡ wide_output result.answer width operation key.now iv.now input.now output.old }
{
    let mut words = [0u32; 120];
    let rounds = schedule_into(width, key, &mut words);
    let answer = judge(
        rounds,
        width,
        operation,
        iv.len(),
        input.len(),
        output.len(),
    );
    let ModeAnswer::Done = answer else {
        return Ended {
            answer,
            chain: [0u32; 8],
        };
    };
    let way = way_of(operation);
    let mut table = [0u32; 256];
    table_into(way, &mut table);
    words_for(way, width, rounds, &mut words);
    let start = start_of(width, iv);
    let chain = pieces(
        width, operation, &table, &words, rounds, start, input, output,
    );
    Ended { answer, chain }
}
