// Yr of SP 800-38C, 6.1 and 6.2: the chain over B0, the associated data and the message, which comes as it is or sealed.
#![tactic(auto)]

mod head;

ghost use Rattle.std.specs.Prelude.{◌≡◌};
ghost use Rattle.aes_spec.specs.Cipher.{standard};
ghost use Rattle.cmac_spec.specs.Cmac as cmac;
ghost use Rattle.modes_spec.specs.Pieces.{piece_count};
ghost use Rattle.ccm_spec.specs.Ccm.{whole};
ghost use Rattle.ccm_stream.specs.Model.{pieces};
ghost use Rattle.ccm_chain.specs.Model.{mac_over, opened_mac_over};

use crate::head::begun;
use aes_rounds::{absorb, encrypt_block};
use aes_schedule::KeySchedule;
use ccm_stream::{flagged, leading_sum, numbered, piece_count};
use cmac_chain::chained;
use cmac_subkeys::piece_filled;

// Of a message; zeros if there are more than 64 bytes of associated data, which no call here takes.
pub fn mac(schedule: &KeySchedule, nonce: [u8; 13], ad: &[u8], message: &[u8]) -> [u8; 16]
    ensures { result ≡ mac_over (standard schedule.now.words schedule.now.rounds) nonce ad.now message.now }
{
    if ad.len() <= 64 {
        let start = begun(schedule, nonce, ad, message.len());
        through(schedule, start, message)
    } else {
        [0; 16]
    }
}

// Of what a ciphertext opens to, which is kept nowhere.
pub fn opened_mac(schedule: &KeySchedule, nonce: [u8; 13], ad: &[u8], input: &[u8]) -> [u8; 16]
    ensures { result ≡ opened_mac_over (standard schedule.now.words schedule.now.rounds) nonce ad.now input.now }
{
    if ad.len() <= 64 {
        let start = begun(schedule, nonce, ad, input.len());
        through_opened(schedule, flagged(1, nonce, 0), start, input)
    } else {
        [0; 16]
    }
}

// The chain over a message, with zeros up to whole pieces.
fn through(schedule: &KeySchedule, chain: [u8; 16], message: &[u8]) -> [u8; 16]
    ensures { result ≡ cmac.chained (standard schedule.now.words schedule.now.rounds) chain (piece_count 16 message.now) (whole message.now) }
{
    let value = chained(schedule, chain, message);
    let at = message.len() / 16 * 16;
    if at == message.len() {
        value
    } else {
        let rest = piece_filled([0; 16], 0, &message[at..]);
        chained(schedule, value, &rest)
    }
}

// The chain over what a ciphertext opens to, piece by piece.
fn through_opened(schedule: &KeySchedule, ctr: [u8; 16], chain: [u8; 16], input: &[u8]) -> [u8; 16]
    ensures { result ≡ cmac.chained (standard schedule.now.words schedule.now.rounds) chain (piece_count 16 input.now) (pieces (standard schedule.now.words schedule.now.rounds) ctr input.now (piece_count 16 input.now)) }
{
    let mut value = chain;
    for i in 0..piece_count(input.len()) {
        let made = encrypt_block(schedule, numbered(ctr, i + 1));
        let plain = leading_sum(input, i * 16, made);
        absorb(schedule, &mut value, &plain, 0);
    }
    value
}
