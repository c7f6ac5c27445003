// Slices of bytes: copied into another where there is room, a part of one, and whether two are the same.
#![tactic(auto)]

ghost use Rattle.std.specs.Prelude.{◌≡◌, ◌+◌, ◌-◌, eqb, leb, length, take, drop};
ghost use Rattle.octets.specs.Octets.{same};
ghost use Rattle.octets_slice.specs.Slices.{copied};

// Puts the whole of s into w from a place on; leaves w as it is if s does not fit.
#[tactic(auto, using(std::proofs::lemmas::Slice::overwrites), unfolding(crate::specs::Slices::copied))]
pub fn copy(s: &[u8], w: &mut [u8], at: usize)
    ensures { w.new ≡ copied s.now at w.old }
{
    if has_room(w.len(), at, s.len()) {
        w[at..at + s.len()].copy_from_slice(s);
    }
}

// Whether something of this length has n bytes from a place on, asked so that no sum can wrap.
pub fn has_room(length: usize, at: usize, n: usize) -> bool
    ensures { result ≡ leb (at + n) length }
{
    n <= length && at <= length - n
}

// The bytes from `from` up to `to`, as far as there are any.
pub fn part(s: &[u8], from: usize, to: usize) -> &[u8]
    ensures { result.now ≡ take (to - from) (drop from s.now) }
{
    let end = to.min(s.len());
    &s[from.min(end)..end]
}

// Whether two slices hold the same bytes. All of them are compared before the answer, so the time does not show where two differ.
#[tactic(auto, using(octets::proofs::Same::same_lengths))]
pub fn equal(a: &[u8], b: &[u8]) -> bool
    ensures { result ≡ same a.now b.now }
{
    a.len() == b.len() && differences(a, b) == 0
}

// The differences of two slices of one length, collected in one byte, which is 0 if there is none.
fn differences(a: &[u8], b: &[u8]) -> u8
    requires { length a.now ≡ length b.now }
    ensures { eqb result 0 ≡ same a.now b.now }
{
    let mut gathered: u8 = 0;
    for (x, y) in a.iter().zip(b) {
        gathered |= x ^ y;
    }
    gathered
}
