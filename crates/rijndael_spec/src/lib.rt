// No code but types: Rijndael with blocks of six and of eight columns, and that decrypting undoes encrypting and the reverse.
#![tactic(auto)]

// How many columns a block has: six are 24 bytes, eight are 32.
#[derive(Clone, Copy)]
pub enum Width {
    Six,
    Eight,
}

// What a call over wide blocks does: ECB and CBC have a place there, the other modes have none.
#[derive(Clone, Copy)]
pub enum WideOperation {
    EncryptEcb,
    DecryptEcb,
    EncryptCbc,
    DecryptCbc,
}
