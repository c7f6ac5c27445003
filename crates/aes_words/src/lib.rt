// Words of four bytes in one u32, the first byte highest: made of bytes, rotated, and substituted byte by byte.
#![tactic(auto)]

ghost use Rattle.std.specs.Prelude.{◌≡◌, [], ◌∷◌};
ghost use Rattle.octets.specs.Words.{word, bytes_of};
ghost use Rattle.octets.specs.Octets.{entry};
ghost use Rattle.aes_words.specs.Columns.{rot_word, rot_two, rot_three, IsDiagonal};

#[tactic(auto, unfolding(octets::specs::Words::word))]
pub fn join(a: u8, b: u8, c: u8, d: u8) -> u32
    ensures { result ≡ word a b c d }
{
    u32::from_be_bytes([a, b, c, d])
}

// The four bytes of a word, the highest first. The swap lets them be stored as one word; to_be_bytes alone is stored byte by byte.
#[tactic(auto, using(crate::proofs::Rotate::bytes_reversed, crate::proofs::Rotate::joined))]
pub fn word_bytes(x: u32) -> [u8; 4]
    ensures { result ≡ bytes_of (x ∷ []) }
{
    x.swap_bytes().to_le_bytes()
}

#[tactic(auto, using(crate::proofs::Rotate::rotated_one))]
pub fn rot_word(x: u32) -> u32
    ensures { result ≡ rot_word x }
{
    x.rotate_left(8)
}

// ROTWORD twice, and three times.
#[tactic(auto, using(crate::proofs::Rotate::rotated_two))]
pub fn rot_two(x: u32) -> u32
    ensures { result ≡ rot_two x }
{
    x.rotate_left(16)
}

#[tactic(auto, using(crate::proofs::Rotate::rotated_three))]
pub fn rot_three(x: u32) -> u32
    ensures { result ≡ rot_three x }
{
    x.rotate_left(24)
}

// SUBWORD: each byte through the table. They are added up here, since join would swap bytes that do not lie side by side.
pub fn sub_word(table: &[u8; 256], x: u32) -> u32
    ensures { IsDiagonal (entry table.now) x x x x result }
{
    let [a, b, c, d] = x.to_be_bytes();
    let looked_up = |byte: u8| u32::from(table[usize::from(byte)]);
    ((looked_up(a) * 256 + looked_up(b)) * 256 + looked_up(c)) * 256 + looked_up(d)
}
