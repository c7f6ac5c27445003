// The header of a block of an image: its fields, and its bytes.
#![tactic(auto)]

ghost use Rattle.std.specs.Prelude.{◌≡◌};
ghost use Rattle.image_layout.specs.Layout.{head_of_lem, head_bytes_of};

#[derive(Clone, Copy, Debug, PartialEq, Eq)]
pub struct Head {
    pub number: u32,
    pub count: u32,
    pub release: u32,
    pub len: u16,
    pub reserved: u16,
}

// The header in the first 16 bytes of a block.
#[tactic(auto, unfolding(crate::specs::Layout::head_of_lem, octets::specs::Words::word))]
pub fn head_of(first: [u8; 16]) -> Head
    ensures { result ≡ head_of_lem first }
{
    Head {
        number: u32::from_be_bytes([first[0], first[1], first[2], first[3]]),
        count: u32::from_be_bytes([first[4], first[5], first[6], first[7]]),
        release: u32::from_be_bytes([first[8], first[9], first[10], first[11]]),
        len: u16::from_be_bytes([first[12], first[13]]),
        reserved: u16::from_be_bytes([first[14], first[15]]),
    }
}

// The bytes of a header.
#[tactic(auto, unfolding(crate::specs::Layout::head_bytes_of, octets::specs::Words::bytes_of))]
pub fn head_bytes(head: Head) -> [u8; 16]
    ensures { result ≡ head_bytes_of head }
{
    let mut bytes = [0; 16];
    bytes[..4].copy_from_slice(&head.number.to_be_bytes());
    bytes[4..8].copy_from_slice(&head.count.to_be_bytes());
    bytes[8..12].copy_from_slice(&head.release.to_be_bytes());
    bytes[12..14].copy_from_slice(&head.len.to_be_bytes());
    bytes[14..].copy_from_slice(&head.reserved.to_be_bytes());
    bytes
}
