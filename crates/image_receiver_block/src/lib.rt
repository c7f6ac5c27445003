// One block received, under the schedules that are lent for it.
#![tactic(auto)]

ghost use Rattle.std.specs.Prelude.{◌≡◌, true, ◌&&◌, [], ◌<◌, length};
ghost use Rattle.aes_schedule.specs.Schedule.{round_count};
ghost use Rattle.aes_spec.specs.Cipher.{standard};
ghost use Rattle.image_layout.specs.Layout.{head_of_lem};
ghost use Rattle.image_spec.specs.Sealed.{checks};
ghost use Rattle.image_spec.specs.KeyPair.{pair_keys};
ghost use Rattle.image_receiver_answer.specs.Answers.{room_for};
ghost use Rattle.image_receiver_block.specs.Receive as spec;

use aes_schedule::KeySchedule;
use aes_schedule_inverse::inverse_into;
use cmac_subkeys::Subkeys;
use image_block_check::check_holds;
use image_block_fill::fill_is_zero;
use image_block_open::open_block;
use image_layout::{Head, head_of};
use image_reasons::Reason;
use image_receiver_answer::{Receipt, ReceiveAnswer, has_room, judge_header};
use image_receiver_map::{has_bit, set_bit};
use image_spec::KeyPair;
use octets_block::load;

// The answer to a block, and what the receiver knows after it.
#[derive(Clone, Copy)]
pub struct BlockReceived {
    pub answer: ReceiveAnswer,
    pub receipt: Receipt,
}

// Takes a block: its 480 decrypted bytes go into the store at 480 times its number, and its bit is set. A refused one changes nothing.
pub fn receive_block(
    keys: &KeyPair,
    receipt: Receipt,
    block: &[u8],
    store: &mut [u8],
    map: &mut [u8],
) -> BlockReceived
    ensures { (result, store.new, map.new) ≡ spec.received_under (pair_keys keys.now) receipt block.now store.old map.old }
{
    if block.len() != 512 {
        return answered(ReceiveAnswer::NotABlock, receipt);
    }
    if !has_room(receipt.count, store.len(), map.len()) {
        return answered(ReceiveAnswer::NoRoom, receipt);
    }
    if !checked(keys, block) {
        return answered(ReceiveAnswer::Because(Reason::CheckWrong), receipt);
    }
    let head = head_of(load(block, 0));
    let told = judge_header(receipt, head);
    let ReceiveAnswer::Received = told else {
        return answered(told, receipt);
    };
    keep(&keys.enc, receipt, head, block, store, map)
}

fn answered(answer: ReceiveAnswer, receipt: Receipt) -> BlockReceived
    ensures { result ≡ spec.answered_with answer receipt }
{
    BlockReceived { answer, receipt }
}

// Whether a block carries its check, which covers bytes 0 to 495 and nothing else.
fn checked(keys: &KeyPair, block: &[u8]) -> bool
    ensures { result ≡ (pair_keys keys.now).usable && checks (pair_keys keys.now).mac [] block.now }
{
    let subkeys = Subkeys::new(&keys.chk);
    check_holds(keys, &subkeys, &[], block)
}

// The last two tests of a block with a right check and header, 15 and 21; it is kept if it passes both.
fn keep(
    enc: &KeySchedule,
    receipt: Receipt,
    head: Head,
    block: &[u8],
    store: &mut [u8],
    map: &mut [u8],
) -> BlockReceived
    requires { (length block.now ≡ 512) × (head ≡ head_of_lem block.now) × (head.number < receipt.count) × (room_for receipt.count (length store.old) (length map.old) ≡ true) × (round_count enc.now.rounds ≡ true) }
    ensures { (result, store.new, map.new) ≡ spec.leaves (spec.last_answer (standard enc.now.words enc.now.rounds) block.now map.old) (standard enc.now.words enc.now.rounds) receipt block.now store.old map.old }
{
    let mut dec = KeySchedule::none();
    inverse_into(enc, &mut dec);
    let number = head.number as usize;
    let filled = fill_is_zero(enc, &dec, block, head.len as usize);
    let held = has_bit(map, number);
    let fifteen = (!filled).then_some(ReceiveAnswer::Because(Reason::FillNotZero));
    let twenty_one = held.then_some(ReceiveAnswer::AlreadyHeld);
    let answer = fifteen.or(twenty_one).unwrap_or(ReceiveAnswer::Received);
    let ReceiveAnswer::Received = answer else {
        return answered(answer, receipt);
    };
    let at = number * 480;
    open_block(enc, &dec, block, &mut store[at..at + 480]);
    set_bit(map, number);
    answered(answer, counted(receipt, head.len))
}

// One block more is held, and its payload is counted. A sum that 32 bits cannot hold stays at the largest.
fn counted(receipt: Receipt, len: u16) -> Receipt
    ensures { result ≡ spec.counted_with receipt len }
{
    Receipt {
        held: receipt.held.saturating_add(1),
        bytes: receipt.bytes.saturating_add(len as u32),
        ..receipt
    }
}
