// Only types: Simplified AES, the bench model for apprentices, and that each direction undoes the other.
#![tactic(auto)]

// Two nibbles: a word of the key, or a column of a state with the nibble of row 0 first.
#[derive(Clone, Copy)]
pub struct Word {
    pub high: u8,
    pub low: u8,
}

// Two columns; a round key is laid out like a state.
#[derive(Clone, Copy)]
pub struct State {
    pub left: Word,
    pub right: Word,
}

// The state after each of the three key additions, as numbers of 16 bits.
#[repr(C)]
#[derive(Clone, Copy)]
pub struct States {
    pub first: u16,
    pub second: u16,
    pub third: u16,
}
