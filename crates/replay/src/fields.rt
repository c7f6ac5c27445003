// The fields of a record, each in its place. One that is longer than its place is refused, and then no field is looked at again.
use aesavs_monte::Link;
use aesavs_record::{Record, Role};
use octets_slice::part;

// The key from 0, the IV from 32, the first text from 48 and the second from 2096 on.
#[derive(Drop)]
pub struct Fields {
    bytes: [u8; 4144],
}

impl Fields {
    pub fn new() -> Fields {
        Fields { bytes: [0; 4144] }
    }

    // Puts a value of hex into its place: how many bytes it has, 0 if it is no hex.
    pub fn put(&mut self, role: Role, value: &[u8]) -> usize {
        let at = match role {
            Role::KeyOf => 0,
            Role::IvOf => 32,
            Role::FirstText => 48,
            Role::SecondText => 2096,
        };
        text_hex::decode(value, &mut self.bytes, at).map_or(0, |end| end.saturating_sub(at))
    }

    pub fn key(&self, record: &Record) -> &[u8] {
        part(&self.bytes[..32], 0, record.key)
    }

    // The IV of a record without one is empty.
    pub fn iv(&self, record: &Record) -> &[u8] {
        if record.chained {
            &self.bytes[32..48]
        } else {
            &[]
        }
    }

    pub fn first(&self, record: &Record) -> &[u8] {
        part(&self.bytes[48..2096], 0, record.text)
    }

    pub fn second(&self, record: &Record) -> &[u8] {
        part(&self.bytes[2096..], 0, record.text)
    }

    // What a Monte Carlo record starts from.
    pub fn link(&self, record: &Record) -> Link {
        aesavs_monte::link_of(self.key(record), self.iv(record), self.first(record))
    }
}
