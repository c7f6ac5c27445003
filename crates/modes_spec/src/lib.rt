// No code but a type: the modes of SP 800-38A over any block cipher, their equations by index, and that each operation is undone.
#![tactic(auto)]

// What a mode does: encryption or decryption in it, which in OFB are one.
#[derive(Clone, Copy)]
pub enum Operation {
    EcbEncrypt,
    EcbDecrypt,
    CbcEncrypt,
    CbcDecrypt,
    CfbEncrypt,
    CfbDecrypt,
    Ofb,
}
