// What C links: the calls of the crate dock under their own names, each with its clauses. A slice comes as a pointer and then its length,
// and the header is include/dock.h.
#![tactic(auto)]

ghost use Rattle.std.specs.Prelude.{◌≡◌};
ghost use Rattle.field.specs.Field.{◌•◌};
ghost use Rattle.aes_sbox.specs.Sbox.{s_box};
ghost use Rattle.aes_schedule.specs.Schedule.{schedule_of};
ghost use Rattle.aes.specs.Calls.{encrypt_under, decrypt_under};
ghost use Rattle.modes_spec.specs.declared.Operation.TheVariants.{EcbEncrypt, EcbDecrypt, CbcEncrypt, CbcDecrypt, CfbEncrypt, CfbDecrypt, Ofb};
ghost use Rattle.modes_answer.specs.Answers.{mode_number};
ghost use Rattle.modes.specs.Calls.{mode_answer};
ghost use Rattle.rijndael_spec.specs.declared.Width.TheVariants.{Six, Eight};
ghost use Rattle.rijndael_spec.specs.declared.WideOperation.TheVariants.{EncryptEcb, DecryptEcb, EncryptCbc, DecryptCbc};
ghost use Rattle.rijndael.specs.Calls.{wide_answer};
ghost use Rattle.dock.specs.Wide.{wide24_applied, wide32_applied, chain24_answer, chain32_answer, after_wide};
ghost use Rattle.cmac.specs.Calls.{check_of, start_of, fed_with, close_of};
ghost use Rattle.image_writer_answer.specs.Answers.{write_number};
ghost use Rattle.image_writer.specs.Calls.{write_answer, write_output};
ghost use Rattle.image_progress.specs.Progress.{completion_number};
ghost use Rattle.image_reader.specs.Calls as readers;
ghost use Rattle.image_reader.specs.Calls.{turn_of};
ghost use Rattle.image_reader_bookmark.specs.Calls.{save_of, resume_of};
ghost use Rattle.image_receiver.specs.Calls as receivers;
ghost use Rattle.image_view.specs.Views as views;
ghost use Rattle.wrap_answer.specs.Answers.{wrap_number};
ghost use Rattle.wrap.specs.Calls.{wrap_answer, wrap_output, unwrap_answer, unwrap_output};
ghost use Rattle.saes_spec.specs.Saes.{encrypted, decrypted};
ghost use Rattle.ccm_answer.specs.Answers.{ccm_number};
ghost use Rattle.ccm.specs.Calls.{seal_answer, seal_output, open_answer, open_output};
ghost use Rattle.dock.specs.Answers.{schedule_answer, block_answer, chain_answer, mode_applied, after_mode, check_answer, start_answer, close_answer, read_start_answer, resume_answer, numbers};
ghost use Rattle.dock_turn.specs.Answers.{turn_answer};
ghost use Rattle.dock_receive.specs.Answers.{start_told, done_telling};

use cmac::Record;
use dock::{
    Block, BlockAnswer, Bookmark, Chain24Answer, Chain32Answer, ChainAnswer, CheckAnswer,
    ReadStartAnswer, ResumeAnswer, ScheduleAnswer, StartAnswer,
};
use dock_receive::ReceiverAnswer;
use dock_turn::TurnAnswer;
use image_reader::Reader;
use image_receiver::Receiver;
use image_view::ViewAnswer;
use saes_spec::States;

#[unsafe(no_mangle)]
pub extern "C" fn dock_product(a: u8, b: u8) -> u8
    ensures { result ≡ a • b }
{
    dock::dock_product(a, b)
}

#[unsafe(no_mangle)]
pub extern "C" fn dock_schedule(key: &[u8]) -> ScheduleAnswer
    ensures { result ≡ schedule_answer (schedule_of s_box key.now) }
{
    dock::dock_schedule(key)
}

#[unsafe(no_mangle)]
pub extern "C" fn dock_encrypt(key: &[u8], block: Block) -> BlockAnswer
    ensures { result ≡ block_answer (encrypt_under key.now block.bytes) }
{
    dock::dock_encrypt(key, block)
}

#[unsafe(no_mangle)]
pub extern "C" fn dock_decrypt(key: &[u8], block: Block) -> BlockAnswer
    ensures { result ≡ block_answer (decrypt_under key.now block.bytes) }
{
    dock::dock_decrypt(key, block)
}

// The modes: the IV is empty in ECB and 16 bytes in the others. ECB has no chaining value to hand on.
#[unsafe(no_mangle)]
pub extern "C" fn dock_ecb_encrypt(key: &[u8], iv: &[u8], input: &[u8], output: &mut [u8]) -> u32
    ensures answer { result ≡ mode_number (mode_answer EcbEncrypt key.now iv.now input.now output.old) }
    ensures written { output.new ≡ after_mode EcbEncrypt key.now iv.now input.now output.old }
{
    dock::dock_ecb_encrypt(key, iv, input, output)
}

#[unsafe(no_mangle)]
pub extern "C" fn dock_ecb_decrypt(key: &[u8], iv: &[u8], input: &[u8], output: &mut [u8]) -> u32
    ensures answer { result ≡ mode_number (mode_answer EcbDecrypt key.now iv.now input.now output.old) }
    ensures written { output.new ≡ after_mode EcbDecrypt key.now iv.now input.now output.old }
{
    dock::dock_ecb_decrypt(key, iv, input, output)
}

#[unsafe(no_mangle)]
pub extern "C" fn dock_cbc_encrypt(
    key: &[u8],
    iv: &[u8],
    input: &[u8],
    output: &mut [u8],
) -> ChainAnswer
    ensures answer { result ≡ chain_answer (mode_applied CbcEncrypt key.now iv.now input.now output.old) }
    ensures written { output.new ≡ after_mode CbcEncrypt key.now iv.now input.now output.old }
{
    dock::dock_cbc_encrypt(key, iv, input, output)
}

#[unsafe(no_mangle)]
pub extern "C" fn dock_cbc_decrypt(
    key: &[u8],
    iv: &[u8],
    input: &[u8],
    output: &mut [u8],
) -> ChainAnswer
    ensures answer { result ≡ chain_answer (mode_applied CbcDecrypt key.now iv.now input.now output.old) }
    ensures written { output.new ≡ after_mode CbcDecrypt key.now iv.now input.now output.old }
{
    dock::dock_cbc_decrypt(key, iv, input, output)
}

#[unsafe(no_mangle)]
pub extern "C" fn dock_cfb_encrypt(
    key: &[u8],
    iv: &[u8],
    input: &[u8],
    output: &mut [u8],
) -> ChainAnswer
    ensures answer { result ≡ chain_answer (mode_applied CfbEncrypt key.now iv.now input.now output.old) }
    ensures written { output.new ≡ after_mode CfbEncrypt key.now iv.now input.now output.old }
{
    dock::dock_cfb_encrypt(key, iv, input, output)
}

#[unsafe(no_mangle)]
pub extern "C" fn dock_cfb_decrypt(
    key: &[u8],
    iv: &[u8],
    input: &[u8],
    output: &mut [u8],
) -> ChainAnswer
    ensures answer { result ≡ chain_answer (mode_applied CfbDecrypt key.now iv.now input.now output.old) }
    ensures written { output.new ≡ after_mode CfbDecrypt key.now iv.now input.now output.old }
{
    dock::dock_cfb_decrypt(key, iv, input, output)
}

#[unsafe(no_mangle)]
pub extern "C" fn dock_ofb(key: &[u8], iv: &[u8], input: &[u8], output: &mut [u8]) -> ChainAnswer
    ensures answer { result ≡ chain_answer (mode_applied Ofb key.now iv.now input.now output.old) }
    ensures written { output.new ≡ after_mode Ofb key.now iv.now input.now output.old }
{
    dock::dock_ofb(key, iv, input, output)
}

#[unsafe(no_mangle)]
pub extern "C" fn dock_check(key: &[u8], message: &[u8]) -> CheckAnswer
    ensures { result ≡ check_answer (check_of key.now message.now) }
{
    dock::dock_check(key, message)
}

#[unsafe(no_mangle)]
pub extern "C" fn dock_check_start(key: &[u8]) -> StartAnswer
    ensures { result ≡ start_answer (start_of key.now) }
{
    dock::dock_check_start(key)
}

// On the spot: the record that is lent has taken the part in.
#[unsafe(no_mangle)]
pub extern "C" fn dock_check_feed(record: &mut Record, part: &[u8])
    ensures { «record».new ≡ fed_with «record».old part.now }
{
    dock::dock_check_feed(record, part)
}

#[unsafe(no_mangle)]
pub extern "C" fn dock_check_close(record: Record) -> CheckAnswer
    ensures { result ≡ close_answer (close_of «record») }
{
    dock::dock_check_close(record)
}

#[unsafe(no_mangle)]
pub extern "C" fn dock_write(
    ekey: &[u8],
    ckey: &[u8],
    number: u32,
    count: u32,
    release: u32,
    edition: u32,
    previous: Block,
    payload: &[u8],
    output: &mut [u8],
) -> u32
    ensures answer { result ≡ write_number (write_answer ekey.now ckey.now (numbers number count release edition) payload.now output.old) }
    ensures written { output.new ≡ write_output (write_answer ekey.now ckey.now (numbers number count release edition) payload.now output.old) ekey.now ckey.now (numbers number count release edition) previous.bytes payload.now output.old }
{
    dock::dock_write(
        ekey, ckey, number, count, release, edition, previous, payload, output,
    )
}

#[unsafe(no_mangle)]
pub extern "C" fn dock_read_start(ekey: &[u8], ckey: &[u8]) -> ReadStartAnswer
    ensures { result ≡ read_start_answer (readers.start_of ekey.now ckey.now) }
{
    dock::dock_read_start(ekey, ckey)
}

#[unsafe(no_mangle)]
pub extern "C" fn dock_read_turn(
    reader: Reader,
    blocks: &[u8],
    asked: usize,
    output: &mut [u8],
) -> TurnAnswer
    ensures answer { result ≡ turn_answer (turn_of reader blocks.now asked output.old).0 }
    ensures written { output.new ≡ (turn_of reader blocks.now asked output.old).1 }
{
    dock::dock_read_turn(reader, blocks, asked, output)
}

#[unsafe(no_mangle)]
pub extern "C" fn dock_read_complete(reader: Reader) -> u32
    ensures { result ≡ completion_number (readers.completion_of reader) }
{
    dock::dock_read_complete(reader)
}

#[unsafe(no_mangle)]
pub extern "C" fn dock_read_save(reader: Reader, bytes: u64) -> Bookmark
    ensures { result.bytes ≡ save_of reader bytes }
{
    dock::dock_read_save(reader, bytes)
}

#[unsafe(no_mangle)]
pub extern "C" fn dock_read_resume(ekey: &[u8], ckey: &[u8], bookmark: Bookmark) -> ResumeAnswer
    ensures { result ≡ resume_answer (resume_of ekey.now ckey.now bookmark.bytes) }
{
    dock::dock_read_resume(ekey, ckey, bookmark)
}

#[unsafe(no_mangle)]
pub extern "C" fn dock_receive_start(
    ekey: &[u8],
    ckey: &[u8],
    count: u32,
    release: u32,
    store: &[u8],
    map: &mut [u8],
) -> ReceiverAnswer
    ensures answer { result ≡ start_told (receivers.begin_of ekey.now ckey.now count release store.now map.old).0 }
    ensures cleared { map.new ≡ (receivers.begin_of ekey.now ckey.now count release store.now map.old).1 }
{
    dock::dock_receive_start(ekey, ckey, count, release, store, map)
}

#[unsafe(no_mangle)]
pub extern "C" fn dock_receive(
    receiver: Receiver,
    block: &[u8],
    store: &mut [u8],
    map: &mut [u8],
) -> ReceiverAnswer
    ensures { (result, store.new, map.new) ≡ done_telling (receivers.receive_of receiver block.now store.old map.old) }
{
    dock::dock_receive(receiver, block, store, map)
}

#[unsafe(no_mangle)]
pub extern "C" fn dock_receive_complete(receiver: Receiver) -> u32
    ensures { result ≡ completion_number (receivers.all_held receiver) }
{
    dock::dock_receive_complete(receiver)
}

// Only numbers: the image stays with the caller, at the address that the answer counts from.
#[unsafe(no_mangle)]
pub extern "C" fn dock_view_block(len: usize, place: usize) -> ViewAnswer
    ensures { result ≡ views.block_answer len place }
{
    dock::dock_view_block(len, place)
}

#[unsafe(no_mangle)]
pub extern "C" fn dock_view_check(len: usize, place: usize) -> ViewAnswer
    ensures { result ≡ views.check_answer len place }
{
    dock::dock_view_check(len, place)
}

#[unsafe(no_mangle)]
pub extern "C" fn dock_wrap(key: &[u8], data: &[u8], output: &mut [u8]) -> u32
    ensures answer { result ≡ wrap_number (wrap_answer key.now «data».now output.old) }
    ensures written { output.new ≡ wrap_output (wrap_answer key.now «data».now output.old) key.now «data».now output.old }
{
    dock::dock_wrap(key, data, output)
}

#[unsafe(no_mangle)]
pub extern "C" fn dock_unwrap(key: &[u8], data: &[u8], output: &mut [u8]) -> u32
    ensures answer { result ≡ wrap_number (unwrap_answer key.now «data».now output.old) }
    ensures written { output.new ≡ unwrap_output (unwrap_answer key.now «data».now output.old) key.now «data».now output.old }
{
    dock::dock_unwrap(key, data, output)
}

// The bench model for apprentices refuses nothing, so its answer has no number.
#[unsafe(no_mangle)]
pub extern "C" fn dock_saes_encrypt(key: u16, block: u16) -> States
    ensures { result ≡ encrypted key block }
{
    dock::dock_saes_encrypt(key, block)
}

#[unsafe(no_mangle)]
pub extern "C" fn dock_saes_decrypt(key: u16, block: u16) -> States
    ensures { result ≡ decrypted key block }
{
    dock::dock_saes_decrypt(key, block)
}

#[unsafe(no_mangle)]
pub extern "C" fn dock_ccm_seal(
    key: &[u8],
    nonce: &[u8],
    ad: &[u8],
    message: &[u8],
    output: &mut [u8],
) -> u32
    ensures answer { result ≡ ccm_number (seal_answer key.now nonce.now ad.now message.now output.old) }
    ensures written { output.new ≡ seal_output (seal_answer key.now nonce.now ad.now message.now output.old) key.now nonce.now ad.now message.now output.old }
{
    dock::dock_ccm_seal(key, nonce, ad, message, output)
}

#[unsafe(no_mangle)]
pub extern "C" fn dock_ccm_open(
    key: &[u8],
    nonce: &[u8],
    ad: &[u8],
    sealed: &[u8],
    output: &mut [u8],
) -> u32
    ensures answer { result ≡ ccm_number (open_answer key.now nonce.now ad.now sealed.now output.old) }
    ensures written { output.new ≡ open_output (open_answer key.now nonce.now ad.now sealed.now output.old) key.now nonce.now ad.now sealed.now output.old }
{
    dock::dock_ccm_open(key, nonce, ad, sealed, output)
}

// Rijndael with blocks of 24 bytes: the IV is empty in ECB and 24 bytes in CBC.
#[unsafe(no_mangle)]
pub extern "C" fn dock_wide24_ecb_encrypt(
    key: &[u8],
    iv: &[u8],
    input: &[u8],
    output: &mut [u8],
) -> u32
    ensures answer { result ≡ mode_number (wide_answer Six EncryptEcb key.now iv.now input.now output.old) }
    ensures written { output.new ≡ after_wide Six EncryptEcb key.now iv.now input.now output.old }
{
    dock::dock_wide24_ecb_encrypt(key, iv, input, output)
}

#[unsafe(no_mangle)]
pub extern "C" fn dock_wide24_ecb_decrypt(
    key: &[u8],
    iv: &[u8],
    input: &[u8],
    output: &mut [u8],
) -> u32
    ensures answer { result ≡ mode_number (wide_answer Six DecryptEcb key.now iv.now input.now output.old) }
    ensures written { output.new ≡ after_wide Six DecryptEcb key.now iv.now input.now output.old }
{
    dock::dock_wide24_ecb_decrypt(key, iv, input, output)
}

#[unsafe(no_mangle)]
pub extern "C" fn dock_wide24_cbc_encrypt(
    key: &[u8],
    iv: &[u8],
    input: &[u8],
    output: &mut [u8],
) -> Chain24Answer
    ensures answer { result ≡ chain24_answer (wide24_applied EncryptCbc key.now iv.now input.now output.old) }
    ensures written { output.new ≡ after_wide Six EncryptCbc key.now iv.now input.now output.old }
{
    dock::dock_wide24_cbc_encrypt(key, iv, input, output)
}

#[unsafe(no_mangle)]
pub extern "C" fn dock_wide24_cbc_decrypt(
    key: &[u8],
    iv: &[u8],
    input: &[u8],
    output: &mut [u8],
) -> Chain24Answer
    ensures answer { result ≡ chain24_answer (wide24_applied DecryptCbc key.now iv.now input.now output.old) }
    ensures written { output.new ≡ after_wide Six DecryptCbc key.now iv.now input.now output.old }
{
    dock::dock_wide24_cbc_decrypt(key, iv, input, output)
}

// Rijndael with blocks of 32 bytes: the IV is empty in ECB and 32 bytes in CBC.
#[unsafe(no_mangle)]
pub extern "C" fn dock_wide32_ecb_encrypt(
    key: &[u8],
    iv: &[u8],
    input: &[u8],
    output: &mut [u8],
) -> u32
    ensures answer { result ≡ mode_number (wide_answer Eight EncryptEcb key.now iv.now input.now output.old) }
    ensures written { output.new ≡ after_wide Eight EncryptEcb key.now iv.now input.now output.old }
{
    dock::dock_wide32_ecb_encrypt(key, iv, input, output)
}

#[unsafe(no_mangle)]
pub extern "C" fn dock_wide32_ecb_decrypt(
    key: &[u8],
    iv: &[u8],
    input: &[u8],
    output: &mut [u8],
) -> u32
    ensures answer { result ≡ mode_number (wide_answer Eight DecryptEcb key.now iv.now input.now output.old) }
    ensures written { output.new ≡ after_wide Eight DecryptEcb key.now iv.now input.now output.old }
{
    dock::dock_wide32_ecb_decrypt(key, iv, input, output)
}

#[unsafe(no_mangle)]
pub extern "C" fn dock_wide32_cbc_encrypt(
    key: &[u8],
    iv: &[u8],
    input: &[u8],
    output: &mut [u8],
) -> Chain32Answer
    ensures answer { result ≡ chain32_answer (wide32_applied EncryptCbc key.now iv.now input.now output.old) }
    ensures written { output.new ≡ after_wide Eight EncryptCbc key.now iv.now input.now output.old }
{
    dock::dock_wide32_cbc_encrypt(key, iv, input, output)
}

#[unsafe(no_mangle)]
pub extern "C" fn dock_wide32_cbc_decrypt(
    key: &[u8],
    iv: &[u8],
    input: &[u8],
    output: &mut [u8],
) -> Chain32Answer
    ensures answer { result ≡ chain32_answer (wide32_applied DecryptCbc key.now iv.now input.now output.old) }
    ensures written { output.new ≡ after_wide Eight DecryptCbc key.now iv.now input.now output.old }
{
    dock::dock_wide32_cbc_decrypt(key, iv, input, output)
}
