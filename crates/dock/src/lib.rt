// Every public call on slices and numbers, with the refusals' numbers in place of enums, and structs by value but for the record of a
// running check, which is lent to be fed. C links them from dock_c, which exports each under its name.
#![tactic(auto)]

ghost use Rattle.std.specs.Prelude.{◌≡◌};
ghost use Rattle.field.specs.Field.{◌•◌};
ghost use Rattle.aes_sbox.specs.Sbox.{s_box};
ghost use Rattle.aes_schedule.specs.Schedule.{schedule_of};
ghost use Rattle.aes.specs.Calls.{encrypt_under, decrypt_under};
ghost use Rattle.modes_spec.specs.declared.Operation.TheVariants.{EcbEncrypt, EcbDecrypt, CbcEncrypt, CbcDecrypt, CfbEncrypt, CfbDecrypt, Ofb};
ghost use Rattle.modes_answer.specs.Answers.{mode_number};
ghost use Rattle.modes.specs.Calls.{mode_answer};
ghost use Rattle.rijndael_spec.specs.declared.Width.TheVariants.{Six, Eight};
ghost use Rattle.rijndael_spec.specs.declared.WideOperation.TheVariants.{EncryptEcb, DecryptEcb, EncryptCbc, DecryptCbc};
ghost use Rattle.rijndael.specs.Calls.{wide_answer};
ghost use Rattle.dock.specs.Wide.{wide24_applied, wide32_applied, chain24_answer, chain32_answer, after_wide};
ghost use Rattle.cmac.specs.Calls.{check_of, start_of, fed_with, close_of};
ghost use Rattle.image_writer_answer.specs.Answers.{write_number};
ghost use Rattle.image_writer.specs.Calls.{write_answer, write_output};
ghost use Rattle.image_progress.specs.Progress.{completion_number};
ghost use Rattle.image_reader.specs.Calls as readers;
ghost use Rattle.image_reader.specs.Calls.{turn_of};
ghost use Rattle.image_reader_bookmark.specs.Calls.{save_of, resume_of};
ghost use Rattle.image_receiver.specs.Calls as receivers;
ghost use Rattle.image_view.specs.Views as views;
ghost use Rattle.wrap_answer.specs.Answers.{wrap_number};
ghost use Rattle.wrap.specs.Calls.{wrap_answer, wrap_output, unwrap_answer, unwrap_output};
ghost use Rattle.saes_spec.specs.Saes.{encrypted, decrypted};
ghost use Rattle.ccm_answer.specs.Answers.{ccm_number};
ghost use Rattle.ccm.specs.Calls.{seal_answer, seal_output, open_answer, open_output};
ghost use Rattle.dock.specs.Answers.{schedule_answer, block_answer, chain_answer, mode_applied, after_mode, check_answer, start_answer, close_answer, read_start_answer, resume_answer, numbers};
ghost use Rattle.dock_turn.specs.Answers.{turn_answer};
ghost use Rattle.dock_receive.specs.Answers.{start_told, done_telling};

use aes::Ciphered;
use aes_schedule::KeySchedule;
use cmac::Record;
use dock_receive::{ReceiverAnswer, done_told, start_told};
use dock_turn::{TurnAnswer, turn_answer};
use image_reader::Reader;
use image_reader_bookmark::{read_resume, read_save};
use image_receiver::Receiver;
use image_view::ViewAnswer;
use image_writer_answer::Numbers;
use modes_spec::Operation;
use rijndael_spec::WideOperation;
use saes_spec::States;

// Sixteen bytes by value: C passes no array so.
#[repr(C)]
#[derive(Clone, Copy)]
pub struct Block {
    pub bytes: [u8; 16],
}

// In the answers a number other than 0 is that of a refusal; next to that of a refused key there are zeros.
#[repr(C)]
#[derive(Clone, Copy)]
pub struct ScheduleAnswer {
    pub number: u32,
    pub words: [u32; 60],
    pub rounds: usize,
}

#[repr(C)]
#[derive(Clone, Copy)]
pub struct BlockAnswer {
    pub number: u32,
    pub block: [u8; 16],
}

// `next` is the next chaining value of a mode, zeros if the call was refused.
#[repr(C)]
#[derive(Clone, Copy)]
pub struct ChainAnswer {
    pub number: u32,
    pub next: [u8; 16],
}

// The same of the modes over blocks of 24 and of 32 bytes.
#[repr(C)]
#[derive(Clone, Copy)]
pub struct Chain24Answer {
    pub number: u32,
    pub next: [u8; 24],
}

#[repr(C)]
#[derive(Clone, Copy)]
pub struct Chain32Answer {
    pub number: u32,
    pub next: [u8; 32],
}

#[repr(C)]
#[derive(Clone, Copy)]
pub struct CheckAnswer {
    pub number: u32,
    pub check: [u8; 16],
}

#[repr(C)]
#[derive(Clone, Copy)]
pub struct StartAnswer {
    pub number: u32,
    pub record: Record,
}

#[repr(C)]
#[derive(Clone, Copy)]
pub struct ReadStartAnswer {
    pub number: u32,
    pub reader: Reader,
}

// Fifty-six bytes by value.
#[repr(C)]
#[derive(Clone, Copy)]
pub struct Bookmark {
    pub bytes: [u8; 56],
}

// `bytes` is the payload that the reader had accepted.
#[repr(C)]
#[derive(Clone, Copy)]
pub struct ResumeAnswer {
    pub number: u32,
    pub bytes: u64,
    pub reader: Reader,
}

pub fn dock_product(a: u8, b: u8) -> u8
    ensures { result ≡ a • b }
{
    field::product(a, b)
}

pub fn dock_schedule(key: &[u8]) -> ScheduleAnswer
    ensures { result ≡ schedule_answer (schedule_of s_box key.now) }
{
    let made = KeySchedule::new(key);
    let answer = made.answer;
    let schedule = made.schedule;
    let words = schedule.words;
    ScheduleAnswer {
        number: answer.number(),
        words,
        rounds: schedule.rounds,
    }
}

pub fn dock_encrypt(key: &[u8], block: Block) -> BlockAnswer
    ensures { result ≡ block_answer (encrypt_under key.now block.bytes) }
{
    let bytes = block.bytes;
    block_answer(aes::encrypt(key, bytes))
}

pub fn dock_decrypt(key: &[u8], block: Block) -> BlockAnswer
    ensures { result ≡ block_answer (decrypt_under key.now block.bytes) }
{
    let bytes = block.bytes;
    block_answer(aes::decrypt(key, bytes))
}

// The modes: the IV is empty in ECB and 16 bytes in the others. ECB has no chaining value to hand on.
pub fn dock_ecb_encrypt(key: &[u8], iv: &[u8], input: &[u8], output: &mut [u8]) -> u32
    ensures answer { result ≡ mode_number (mode_answer EcbEncrypt key.now iv.now input.now output.old) }
    ensures written { output.new ≡ after_mode EcbEncrypt key.now iv.now input.now output.old }
{
    run_mode(Operation::EcbEncrypt, key, iv, input, output)
}

pub fn dock_ecb_decrypt(key: &[u8], iv: &[u8], input: &[u8], output: &mut [u8]) -> u32
    ensures answer { result ≡ mode_number (mode_answer EcbDecrypt key.now iv.now input.now output.old) }
    ensures written { output.new ≡ after_mode EcbDecrypt key.now iv.now input.now output.old }
{
    run_mode(Operation::EcbDecrypt, key, iv, input, output)
}

pub fn dock_cbc_encrypt(key: &[u8], iv: &[u8], input: &[u8], output: &mut [u8]) -> ChainAnswer
    ensures answer { result ≡ chain_answer (mode_applied CbcEncrypt key.now iv.now input.now output.old) }
    ensures written { output.new ≡ after_mode CbcEncrypt key.now iv.now input.now output.old }
{
    run_chained_mode(Operation::CbcEncrypt, key, iv, input, output)
}

pub fn dock_cbc_decrypt(key: &[u8], iv: &[u8], input: &[u8], output: &mut [u8]) -> ChainAnswer
    ensures answer { result ≡ chain_answer (mode_applied CbcDecrypt key.now iv.now input.now output.old) }
    ensures written { output.new ≡ after_mode CbcDecrypt key.now iv.now input.now output.old }
{
    run_chained_mode(Operation::CbcDecrypt, key, iv, input, output)
}

pub fn dock_cfb_encrypt(key: &[u8], iv: &[u8], input: &[u8], output: &mut [u8]) -> ChainAnswer
    ensures answer { result ≡ chain_answer (mode_applied CfbEncrypt key.now iv.now input.now output.old) }
    ensures written { output.new ≡ after_mode CfbEncrypt key.now iv.now input.now output.old }
{
    run_chained_mode(Operation::CfbEncrypt, key, iv, input, output)
}

pub fn dock_cfb_decrypt(key: &[u8], iv: &[u8], input: &[u8], output: &mut [u8]) -> ChainAnswer
    ensures answer { result ≡ chain_answer (mode_applied CfbDecrypt key.now iv.now input.now output.old) }
    ensures written { output.new ≡ after_mode CfbDecrypt key.now iv.now input.now output.old }
{
    run_chained_mode(Operation::CfbDecrypt, key, iv, input, output)
}

pub fn dock_ofb(key: &[u8], iv: &[u8], input: &[u8], output: &mut [u8]) -> ChainAnswer
    ensures answer { result ≡ chain_answer (mode_applied Ofb key.now iv.now input.now output.old) }
    ensures written { output.new ≡ after_mode Ofb key.now iv.now input.now output.old }
{
    run_chained_mode(Operation::Ofb, key, iv, input, output)
}

pub fn dock_check(key: &[u8], message: &[u8]) -> CheckAnswer
    ensures { result ≡ check_answer (check_of key.now message.now) }
{
    let c = cmac::check(key, message);
    let answer = c.answer;
    let check = c.check;
    CheckAnswer {
        number: answer.number(),
        check,
    }
}

pub fn dock_check_start(key: &[u8]) -> StartAnswer
    ensures { result ≡ start_answer (start_of key.now) }
{
    let s = cmac::start(key);
    let answer = s.answer;
    let record = s.record;
    StartAnswer {
        number: answer.number(),
        record,
    }
}

// On the spot: the record that is lent has taken the part in.
pub fn dock_check_feed(record: &mut Record, part: &[u8])
    ensures { «record».new ≡ fed_with «record».old part.now }
{
    *record = cmac::fed_with(*record, part);
}

pub fn dock_check_close(record: Record) -> CheckAnswer
    ensures { result ≡ close_answer (close_of «record») }
{
    let check = cmac::close(record);
    CheckAnswer { number: 0, check }
}

pub fn dock_write(
    ekey: &[u8],
    ckey: &[u8],
    number: u32,
    count: u32,
    release: u32,
    edition: u32,
    previous: Block,
    payload: &[u8],
    output: &mut [u8],
) -> u32
    ensures answer { result ≡ write_number (write_answer ekey.now ckey.now (numbers number count release edition) payload.now output.old) }
    ensures written { output.new ≡ write_output (write_answer ekey.now ckey.now (numbers number count release edition) payload.now output.old) ekey.now ckey.now (numbers number count release edition) previous.bytes payload.now output.old }
{
    let numbers = Numbers {
        number,
        count,
        release,
        edition,
    };
    let bytes = previous.bytes;
    let answer = image_writer::write(ekey, ckey, numbers, bytes, payload, output);
    answer.number()
}

pub fn dock_read_start(ekey: &[u8], ckey: &[u8]) -> ReadStartAnswer
    ensures { result ≡ read_start_answer (readers.start_of ekey.now ckey.now) }
{
    let s = image_reader::read_start(ekey, ckey);
    let answer = s.answer;
    let reader = s.reader;
    ReadStartAnswer {
        number: answer.number(),
        reader,
    }
}

pub fn dock_read_turn(reader: Reader, blocks: &[u8], asked: usize, output: &mut [u8]) -> TurnAnswer
    ensures answer { result ≡ turn_answer (turn_of reader blocks.now asked output.old).0 }
    ensures written { output.new ≡ (turn_of reader blocks.now asked output.old).1 }
{
    let t = image_reader::read_turn(reader, blocks, asked, output);
    turn_answer(t)
}

pub fn dock_read_complete(reader: Reader) -> u32
    ensures { result ≡ completion_number (readers.completion_of reader) }
{
    let answer = image_reader::read_complete(reader);
    answer.number()
}

pub fn dock_read_save(reader: Reader, bytes: u64) -> Bookmark
    ensures { result.bytes ≡ save_of reader bytes }
{
    Bookmark {
        bytes: read_save(reader, bytes),
    }
}

pub fn dock_read_resume(ekey: &[u8], ckey: &[u8], bookmark: Bookmark) -> ResumeAnswer
    ensures { result ≡ resume_answer (resume_of ekey.now ckey.now bookmark.bytes) }
{
    let bytes = bookmark.bytes;
    let s = read_resume(ekey, ckey, bytes);
    let answer = s.answer;
    let reader = s.reader;
    ResumeAnswer {
        number: answer.number(),
        bytes: s.bytes,
        reader,
    }
}

pub fn dock_receive_start(
    ekey: &[u8],
    ckey: &[u8],
    count: u32,
    release: u32,
    store: &[u8],
    map: &mut [u8],
) -> ReceiverAnswer
    ensures answer { result ≡ start_told (receivers.begin_of ekey.now ckey.now count release store.now map.old).0 }
    ensures cleared { map.new ≡ (receivers.begin_of ekey.now ckey.now count release store.now map.old).1 }
{
    let s = image_receiver::receive_start(ekey, ckey, count, release, store, map);
    start_told(s)
}

pub fn dock_receive(
    receiver: Receiver,
    block: &[u8],
    store: &mut [u8],
    map: &mut [u8],
) -> ReceiverAnswer
    ensures { (result, store.new, map.new) ≡ done_telling (receivers.receive_of receiver block.now store.old map.old) }
{
    let d = image_receiver::receive(receiver, block, store, map);
    done_told(d)
}

pub fn dock_receive_complete(receiver: Receiver) -> u32
    ensures { result ≡ completion_number (receivers.all_held receiver) }
{
    let answer = image_receiver::receive_complete(receiver);
    answer.number()
}

// Only numbers: the image stays with the caller, at the address that the answer counts from.
pub fn dock_view_block(len: usize, place: usize) -> ViewAnswer
    ensures { result ≡ views.block_answer len place }
{
    image_view::block_answer(len, place)
}

pub fn dock_view_check(len: usize, place: usize) -> ViewAnswer
    ensures { result ≡ views.check_answer len place }
{
    image_view::check_answer(len, place)
}

pub fn dock_wrap(key: &[u8], data: &[u8], output: &mut [u8]) -> u32
    ensures answer { result ≡ wrap_number (wrap_answer key.now «data».now output.old) }
    ensures written { output.new ≡ wrap_output (wrap_answer key.now «data».now output.old) key.now «data».now output.old }
{
    let answer = wrap::wrap(key, data, output);
    answer.number()
}

pub fn dock_unwrap(key: &[u8], data: &[u8], output: &mut [u8]) -> u32
    ensures answer { result ≡ wrap_number (unwrap_answer key.now «data».now output.old) }
    ensures written { output.new ≡ unwrap_output (unwrap_answer key.now «data».now output.old) key.now «data».now output.old }
{
    let answer = wrap::unwrap(key, data, output);
    answer.number()
}

// The bench model for apprentices refuses nothing, so its answer has no number.
pub fn dock_saes_encrypt(key: u16, block: u16) -> States
    ensures { result ≡ encrypted key block }
{
    saes::encrypt(key, block)
}

pub fn dock_saes_decrypt(key: u16, block: u16) -> States
    ensures { result ≡ decrypted key block }
{
    saes::decrypt(key, block)
}

pub fn dock_ccm_seal(key: &[u8], nonce: &[u8], ad: &[u8], message: &[u8], output: &mut [u8]) -> u32
    ensures answer { result ≡ ccm_number (seal_answer key.now nonce.now ad.now message.now output.old) }
    ensures written { output.new ≡ seal_output (seal_answer key.now nonce.now ad.now message.now output.old) key.now nonce.now ad.now message.now output.old }
{
    let answer = ccm::seal(key, nonce, ad, message, output);
    answer.number()
}

pub fn dock_ccm_open(key: &[u8], nonce: &[u8], ad: &[u8], sealed: &[u8], output: &mut [u8]) -> u32
    ensures answer { result ≡ ccm_number (open_answer key.now nonce.now ad.now sealed.now output.old) }
    ensures written { output.new ≡ open_output (open_answer key.now nonce.now ad.now sealed.now output.old) key.now nonce.now ad.now sealed.now output.old }
{
    let answer = ccm::open(key, nonce, ad, sealed, output);
    answer.number()
}

// Rijndael with blocks of 24 bytes: the IV is empty in ECB and 24 bytes in CBC.
pub fn dock_wide24_ecb_encrypt(key: &[u8], iv: &[u8], input: &[u8], output: &mut [u8]) -> u32
    ensures answer { result ≡ mode_number (wide_answer Six EncryptEcb key.now iv.now input.now output.old) }
    ensures written { output.new ≡ after_wide Six EncryptEcb key.now iv.now input.now output.old }
{
    run_wide_24(WideOperation::EncryptEcb, key, iv, input, output)
}

pub fn dock_wide24_ecb_decrypt(key: &[u8], iv: &[u8], input: &[u8], output: &mut [u8]) -> u32
    ensures answer { result ≡ mode_number (wide_answer Six DecryptEcb key.now iv.now input.now output.old) }
    ensures written { output.new ≡ after_wide Six DecryptEcb key.now iv.now input.now output.old }
{
    run_wide_24(WideOperation::DecryptEcb, key, iv, input, output)
}

pub fn dock_wide24_cbc_encrypt(
    key: &[u8],
    iv: &[u8],
    input: &[u8],
    output: &mut [u8],
) -> Chain24Answer
    ensures answer { result ≡ chain24_answer (wide24_applied EncryptCbc key.now iv.now input.now output.old) }
    ensures written { output.new ≡ after_wide Six EncryptCbc key.now iv.now input.now output.old }
{
    run_chained_24(WideOperation::EncryptCbc, key, iv, input, output)
}

pub fn dock_wide24_cbc_decrypt(
    key: &[u8],
    iv: &[u8],
    input: &[u8],
    output: &mut [u8],
) -> Chain24Answer
    ensures answer { result ≡ chain24_answer (wide24_applied DecryptCbc key.now iv.now input.now output.old) }
    ensures written { output.new ≡ after_wide Six DecryptCbc key.now iv.now input.now output.old }
{
    run_chained_24(WideOperation::DecryptCbc, key, iv, input, output)
}

// Rijndael with blocks of 32 bytes: the IV is empty in ECB and 32 bytes in CBC.
pub fn dock_wide32_ecb_encrypt(key: &[u8], iv: &[u8], input: &[u8], output: &mut [u8]) -> u32
    ensures answer { result ≡ mode_number (wide_answer Eight EncryptEcb key.now iv.now input.now output.old) }
    ensures written { output.new ≡ after_wide Eight EncryptEcb key.now iv.now input.now output.old }
{
    run_wide_32(WideOperation::EncryptEcb, key, iv, input, output)
}

pub fn dock_wide32_ecb_decrypt(key: &[u8], iv: &[u8], input: &[u8], output: &mut [u8]) -> u32
    ensures answer { result ≡ mode_number (wide_answer Eight DecryptEcb key.now iv.now input.now output.old) }
    ensures written { output.new ≡ after_wide Eight DecryptEcb key.now iv.now input.now output.old }
{
    run_wide_32(WideOperation::DecryptEcb, key, iv, input, output)
}

pub fn dock_wide32_cbc_encrypt(
    key: &[u8],
    iv: &[u8],
    input: &[u8],
    output: &mut [u8],
) -> Chain32Answer
    ensures answer { result ≡ chain32_answer (wide32_applied EncryptCbc key.now iv.now input.now output.old) }
    ensures written { output.new ≡ after_wide Eight EncryptCbc key.now iv.now input.now output.old }
{
    run_chained_32(WideOperation::EncryptCbc, key, iv, input, output)
}

pub fn dock_wide32_cbc_decrypt(
    key: &[u8],
    iv: &[u8],
    input: &[u8],
    output: &mut [u8],
) -> Chain32Answer
    ensures answer { result ≡ chain32_answer (wide32_applied DecryptCbc key.now iv.now input.now output.old) }
    ensures written { output.new ≡ after_wide Eight DecryptCbc key.now iv.now input.now output.old }
{
    run_chained_32(WideOperation::DecryptCbc, key, iv, input, output)
}

fn block_answer(c: Ciphered) -> BlockAnswer
    ensures { result ≡ block_answer c }
{
    let answer = c.answer;
    let block = c.block;
    BlockAnswer {
        number: answer.number(),
        block,
    }
}

#[tactic(auto, unfolding(crate::specs::Answers::after_mode))]
fn run_mode(operation: Operation, key: &[u8], iv: &[u8], input: &[u8], output: &mut [u8]) -> u32
    ensures answer { result ≡ mode_number (mode_answer operation key.now iv.now input.now output.old) }
    ensures written { output.new ≡ after_mode operation key.now iv.now input.now output.old }
{
    let a = modes::apply(operation, key, iv, input, output);
    let answer = a.answer;
    answer.number()
}

#[tactic(auto, unfolding(crate::specs::Answers::after_mode, crate::specs::Answers::mode_applied))]
fn run_chained_mode(
    operation: Operation,
    key: &[u8],
    iv: &[u8],
    input: &[u8],
    output: &mut [u8],
) -> ChainAnswer
    ensures answer { result ≡ chain_answer (mode_applied operation key.now iv.now input.now output.old) }
    ensures written { output.new ≡ after_mode operation key.now iv.now input.now output.old }
{
    let a = modes::apply(operation, key, iv, input, output);
    let answer = a.answer;
    let next = a.next;
    ChainAnswer {
        number: answer.number(),
        next,
    }
}

#[tactic(auto, unfolding(crate::specs::Wide::after_wide))]
fn run_wide_24(
    operation: WideOperation,
    key: &[u8],
    iv: &[u8],
    input: &[u8],
    output: &mut [u8],
) -> u32
    ensures answer { result ≡ mode_number (wide_answer Six operation key.now iv.now input.now output.old) }
    ensures written { output.new ≡ after_wide Six operation key.now iv.now input.now output.old }
{
    let a = rijndael::apply_24(operation, key, iv, input, output);
    let answer = a.answer;
    answer.number()
}

#[tactic(auto, unfolding(crate::specs::Wide::after_wide, crate::specs::Wide::wide24_applied))]
fn run_chained_24(
    operation: WideOperation,
    key: &[u8],
    iv: &[u8],
    input: &[u8],
    output: &mut [u8],
) -> Chain24Answer
    ensures answer { result ≡ chain24_answer (wide24_applied operation key.now iv.now input.now output.old) }
    ensures written { output.new ≡ after_wide Six operation key.now iv.now input.now output.old }
{
    let a = rijndael::apply_24(operation, key, iv, input, output);
    let answer = a.answer;
    let next = a.next;
    Chain24Answer {
        number: answer.number(),
        next,
    }
}

#[tactic(auto, unfolding(crate::specs::Wide::after_wide))]
fn run_wide_32(
    operation: WideOperation,
    key: &[u8],
    iv: &[u8],
    input: &[u8],
    output: &mut [u8],
) -> u32
    ensures answer { result ≡ mode_number (wide_answer Eight operation key.now iv.now input.now output.old) }
    ensures written { output.new ≡ after_wide Eight operation key.now iv.now input.now output.old }
{
    let a = rijndael::apply_32(operation, key, iv, input, output);
    let answer = a.answer;
    answer.number()
}

#[tactic(auto, unfolding(crate::specs::Wide::after_wide, crate::specs::Wide::wide32_applied))]
fn run_chained_32(
    operation: WideOperation,
    key: &[u8],
    iv: &[u8],
    input: &[u8],
    output: &mut [u8],
) -> Chain32Answer
    ensures answer { result ≡ chain32_answer (wide32_applied operation key.now iv.now input.now output.old) }
    ensures written { output.new ≡ after_wide Eight operation key.now iv.now input.now output.old }
{
    let a = rijndael::apply_32(operation, key, iv, input, output);
    let answer = a.answer;
    let next = a.next;
    Chain32Answer {
        number: answer.number(),
        next,
    }
}
