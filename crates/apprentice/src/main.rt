// Checks what an apprentice did by hand: standard input has four bytes, key then block, and each state after a key addition of
// Simplified AES becomes a line of four hex digits. Bytes after these four are ignored.
#![tactic(auto)]

use saes_spec::States;
use std::io::{self, Read};
use streams::Hex;

fn show(rt: &impl Print, key: u16, block: u16) -> io::Result<()> {
    let States {
        first,
        second,
        third,
    } = saes::encrypt(key, block);
    let [first, second, third] = [first, second, third].map(|state| state.to_be_bytes());
    println!(rt; "{}\n{}\n{}", Hex(&first), Hex(&second), Hex(&third))
}

// What could not be read is short, as an input is that ends.
fn answer(rt: &impl Print, input: &mut impl Read) -> io::Result<()> {
    let mut given = [0u8; 4];
    if input.read_exact(&mut given).is_err() {
        return println!(rt; "short");
    }
    let [key_high, key_low, block_high, block_low] = given;
    show(
        rt,
        u16::from_be_bytes([key_high, key_low]),
        u16::from_be_bytes([block_high, block_low]),
    )
}

fn main(rt: HostRuntime) {
    if let Err(e) = answer(&rt, &mut rt.stdin()) {
        streams::tell(
            &rt,
            "apprentice: standard output cannot be written to: open it or make room, and start again",
            &e,
        );
    }
}
