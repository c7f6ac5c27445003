// A and R[i], eight bytes each, as the halves of one block: out of the registers, and back.
ghost use Rattle.std.specs.Prelude.{◌≡◌, ◌++◌, ◌+◌, ◌*◌, ◌≤◌, ◌<◌, length};
ghost use Rattle.octets.specs.Blocks.{◌⊕◌};
ghost use Rattle.wrap_spec.specs.Wrap.{counter, register, replaced, msb, lsb};

// A and R[i] side by side: what the block cipher is given.
pub fn pair(w: &[u8], i: usize) -> [u8; 16]
    requires { (1 ≤ i) × (8 * i + 8 ≤ length w.now) }
    ensures { result ≡ register w.now 0 ++ register w.now i }
{
    let mut block = [0; 16];
    block[..8].copy_from_slice(&w[..8]);
    block[8..].copy_from_slice(&w[8 * i..8 * i + 8]);
    block
}

// Adds the step number to the first half. It is one byte here, so that of the 64 bits only the last eight change.
pub fn counter_added(mut block: [u8; 16], t: usize) -> [u8; 16]
    requires { t < 256 }
    ensures { result ≡ (msb block ⊕ counter t) ++ lsb block }
{
    block[7] ^= t as u8;
    block
}

// The halves of a block become A and R[i].
pub fn put_back(w: &mut [u8], i: usize, block: [u8; 16])
    requires { (1 ≤ i) × (8 * i + 8 ≤ length w.old) }
    ensures { w.new ≡ replaced w.old i (msb block) (lsb block) }
{
    w[..8].copy_from_slice(&block[..8]);
    w[8 * i..8 * i + 8].copy_from_slice(&block[8..]);
}
