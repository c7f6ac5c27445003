// Bytes put one by one, as two digits of hex each.
ghost use Rattle.std.specs.Prelude.{◌≡◌, ◌+◌, ◌*◌, ◌≤◌, ◌<◌, length};
ghost use Rattle.std.proofs.Math.Seq.{paste};
ghost use Rattle.text_hex.specs.Written.{char_of, hex_of};

#[tactic(auto, using(crate::proofs::WrittenLaws::spell_more))]
pub fn spell(s: &[u8], out: &mut [u8], at: usize)
    requires { at + 2 * length s.now ≤ length out.old }
    ensures { out.new ≡ paste out.old at (hex_of s.now) (2 * length s.now) }
{
    for (i, b) in s.iter().enumerate() {
        out[at + 2 * i] = char_of(*b / 16);
        out[at + 2 * i + 1] = char_of(*b % 16);
    }
}

#[tactic(auto, unfolding(crate::specs::Written::char_of))]
fn char_of(n: u8) -> u8
    requires { n < 16 }
    ensures { result ≡ char_of n }
{
    if n < 10 { b'0' + n } else { b'a' - 10 + n }
}
