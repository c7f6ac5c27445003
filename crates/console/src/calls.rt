// The calls by the first word of a line. Each group has a file with its calls and their answers.
use crate::answers::Answers;
use crate::held::Held;
use crate::words::Words;
use crate::{
    apprentice_lines, check_lines, cipher_lines, image_lines, message_lines, mode_lines,
    receiver_lines, view_lines, wide_lines, wrap_lines,
};
use modes_spec::Operation;
use rijndael_spec::WideOperation;

// Puts the answer to a line. None says that the line is bad: each call takes its words whole before it is made, so nothing is put then,
// and nothing held changes.
pub fn answer(words: &mut Words, answers: &mut Answers, held: &mut Held) -> Option<()> {
    match words.word()? {
        b"product" => cipher_lines::product(words, answers),
        b"schedule" => cipher_lines::schedule(words, answers),
        b"encrypt" => cipher_lines::block(words, answers, aes::encrypt),
        b"decrypt" => cipher_lines::block(words, answers, aes::decrypt),
        b"check" => check_lines::whole(words, answers),
        b"check-start" => check_lines::start(words, answers, &mut held.record),
        b"check-feed" => check_lines::feed(words, answers, &mut held.record),
        b"check-close" => check_lines::close(words, answers, held.record),
        b"write" => image_lines::write(words, answers),
        b"read-start" => image_lines::start(words, answers, &mut held.reader),
        b"read-turn" => image_lines::turn(words, answers, &mut held.reader),
        b"read-complete" => image_lines::complete(words, answers, held.reader),
        b"read-save" => image_lines::save(words, answers, held.reader),
        b"read-resume" => image_lines::resume(words, answers, &mut held.reader),
        b"receive-start" => receiver_lines::start(words, answers, &mut held.receiver),
        b"receive" => receiver_lines::receive(words, answers, &mut held.receiver),
        b"receive-complete" => receiver_lines::complete(words, answers, held.receiver),
        b"wrap" => wrap_lines::answer(words, answers, wrap::wrap),
        b"unwrap" => wrap_lines::answer(words, answers, wrap::unwrap),
        b"view-block" => view_lines::answer(words, answers, |view, place| view.block(place)),
        b"view-check" => view_lines::answer(words, answers, |view, place| view.check(place)),
        b"saes-encrypt" => apprentice_lines::answer(words, answers, saes::encrypt),
        b"saes-decrypt" => apprentice_lines::answer(words, answers, saes::decrypt),
        b"ccm-seal" => message_lines::answer(words, answers, ccm::seal),
        b"ccm-open" => message_lines::answer(words, answers, ccm::open),
        name => moded(name, words, answers),
    }
}

fn moded(name: &[u8], words: &mut Words, answers: &mut Answers) -> Option<()> {
    match name {
        b"ecb-encrypt" => mode_lines::answer(words, answers, Operation::EcbEncrypt),
        b"ecb-decrypt" => mode_lines::answer(words, answers, Operation::EcbDecrypt),
        b"cbc-encrypt" => mode_lines::answer(words, answers, Operation::CbcEncrypt),
        b"cbc-decrypt" => mode_lines::answer(words, answers, Operation::CbcDecrypt),
        b"cfb-encrypt" => mode_lines::answer(words, answers, Operation::CfbEncrypt),
        b"cfb-decrypt" => mode_lines::answer(words, answers, Operation::CfbDecrypt),
        b"ofb" => mode_lines::answer(words, answers, Operation::Ofb),
        b"wide24-ecb-encrypt" => wide_lines::answer_24(words, answers, WideOperation::EncryptEcb),
        b"wide24-ecb-decrypt" => wide_lines::answer_24(words, answers, WideOperation::DecryptEcb),
        b"wide24-cbc-encrypt" => wide_lines::answer_24(words, answers, WideOperation::EncryptCbc),
        b"wide24-cbc-decrypt" => wide_lines::answer_24(words, answers, WideOperation::DecryptCbc),
        b"wide32-ecb-encrypt" => wide_lines::answer_32(words, answers, WideOperation::EncryptEcb),
        b"wide32-ecb-decrypt" => wide_lines::answer_32(words, answers, WideOperation::DecryptEcb),
        b"wide32-cbc-encrypt" => wide_lines::answer_32(words, answers, WideOperation::EncryptCbc),
        b"wide32-cbc-decrypt" => wide_lines::answer_32(words, answers, WideOperation::DecryptCbc),
        _ => None,
    }
}
