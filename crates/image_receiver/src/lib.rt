// The receiver of release images: it takes the blocks of one image of edition 1 in any order, each into its own place of a lent store.
#![tactic(auto)]

ghost use Rattle.std.specs.Prelude.{◌≡◌};
ghost use Rattle.image_receiver.specs.Calls as spec;

use aes_schedule::KeyAnswer;
use image_limits::count_fits;
use image_progress::Completion;
use image_receiver_answer::{BeginAnswer, Receipt, ReceiveAnswer, has_room};
use image_receiver_block::receive_block;
use image_receiver_map::{clear, map_size};
use image_spec::KeyPair;

// The schedules of the encryption key and of the check key, and what the receiver knows about its image.
#[repr(C)]
#[derive(Clone, Copy)]
pub struct Receiver {
    pub keys: KeyPair,
    pub receipt: Receipt,
}

// The answer to a start, and the receiver: zeros if it was refused.
#[derive(Clone, Copy)]
pub struct ReceiveStarted {
    pub answer: BeginAnswer,
    pub receiver: Receiver,
}

// The answer to a block, and the receiver after it: the one given if the block was refused.
#[derive(Clone, Copy)]
pub struct ReceiveDone {
    pub answer: ReceiveAnswer,
    pub receiver: Receiver,
}

// A receiver of so many blocks of this release that holds none; the bytes of the map that hold their bits are cleared.
// The store is not changed: only its length is looked at.
pub fn receive_start(
    ekey: &[u8],
    ckey: &[u8],
    count: u32,
    release: u32,
    store: &[u8],
    map: &mut [u8],
) -> ReceiveStarted
    ensures { (result, map.new) ≡ spec.begin_of ekey.now ckey.now count release store.now map.old }
{
    let mut keys = KeyPair::none();
    let KeyAnswer::Taken = keys.expand(ekey, ckey) else {
        return refused(BeginAnswer::BeginKey);
    };
    if !count_fits(count) {
        return refused(BeginAnswer::BeginCount(count));
    }
    if !has_room(count, store.len(), map.len()) {
        return refused(BeginAnswer::BeginRoom);
    }
    clear(map, map_size(count));
    begun(BeginAnswer::Begun, keys, count, release)
}

// Takes a block with any number: its 480 decrypted bytes go into the store at 480 times its number, and its bit of the map is set.
// A refused block changes nothing, so it may be offered again.
pub fn receive(receiver: Receiver, block: &[u8], store: &mut [u8], map: &mut [u8]) -> ReceiveDone
    ensures { (result, store.new, map.new) ≡ spec.receive_of receiver block.now store.old map.old }
{
    let done = receive_block(&receiver.keys, receiver.receipt, block, store, map);
    ReceiveDone {
        answer: done.answer,
        receiver: Receiver {
            receipt: done.receipt,
            ..receiver
        },
    }
}

// Whether every block is held.
pub fn receive_complete(receiver: Receiver) -> Completion
    ensures { result ≡ spec.all_held receiver }
{
    if holds_all(receiver.receipt) {
        Completion::Complete
    } else {
        Completion::NotComplete
    }
}

#[tactic(auto, unfolding(crate::specs::Calls::full))]
fn holds_all(receipt: Receipt) -> bool
    ensures { result ≡ spec.full receipt }
{
    0 < receipt.count && receipt.held == receipt.count
}

// What a refused start gives.
fn refused(answer: BeginAnswer) -> ReceiveStarted
    ensures { result ≡ spec.begun_not answer }
{
    begun(answer, KeyPair::none(), 0, 0)
}

fn begun(answer: BeginAnswer, keys: KeyPair, count: u32, release: u32) -> ReceiveStarted
    ensures { result ≡ spec.begun_with answer keys count release }
{
    ReceiveStarted {
        answer,
        receiver: Receiver {
            keys,
            receipt: Receipt {
                count,
                release,
                held: 0,
                bytes: 0,
            },
        },
    }
}
