// The keys, out of the input.
ghost use Rattle.std.specs.Prelude.{◌≤◌, length};

use std::io::Read;

// Reads two keys: how many bytes came before they were whole, the input ended or a read failed. Keys that are cut are refused.
pub fn keys<R: Read>(input: &mut R, keys: &mut [u8]) -> usize
    ensures { result ≤ length keys.new }
{
    let mut n = 0;
    while n < keys.len() {
        let got = input.read(&mut keys[n..]).unwrap_or(0);
        if got == 0 {
            break;
        }
        n += got;
    }
    n
}
