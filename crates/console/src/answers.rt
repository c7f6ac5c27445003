// The answers that wait to be written, as text.
use crate::LONGEST_LINE;
use itoa::Buffer;

// Once so many bytes wait, they are written before another line is answered.
const WAITING: usize = 65536;

// Room for these and one answer more, which is at most 1024 bytes longer than the longest line.
const ROOM: usize = WAITING + LONGEST_LINE + 1024;

// Memory is fixed, so that no answer fails for want of it.
#[derive(Drop)]
pub struct Answers {
    text: [u8; ROOM],
    len: usize,
}

// An answer is a number and then further fields, each with a space before it.
impl Answers {
    pub fn new() -> Answers {
        Answers {
            text: [0; ROOM],
            len: 0,
        }
    }

    pub fn waiting(&self) -> &[u8] {
        octets_slice::part(&self.text, 0, self.len)
    }

    // Whether there may be no room for one answer more.
    pub fn is_full(&self) -> bool {
        self.len >= WAITING
    }

    pub fn clear(&mut self) {
        self.len = 0;
    }

    // The number with which an answer begins.
    pub fn begin(&mut self, n: u32) {
        self.push_decimal(n.into());
    }

    pub fn number(&mut self, n: u64) {
        self.push(b" ");
        self.push_decimal(n);
    }

    // A number, or `-` where there is none.
    pub fn number_or_dash(&mut self, n: Option<u64>) {
        match n {
            Some(n) => self.number(n),
            None => self.push(b" -"),
        }
    }

    pub fn bytes(&mut self, bytes: &[u8]) {
        self.push(b" ");
        self.push_hex(bytes);
    }

    // Words as eight hex digits each, the high byte first, with nothing between.
    pub fn words(&mut self, words: &[u32]) {
        self.push(b" ");
        for word in words {
            self.push_hex(&word.to_be_bytes());
        }
    }

    pub fn end_line(&mut self) {
        self.push(b"\n");
    }

    // The whole answer to a bad line.
    pub fn put_bad_line(&mut self) {
        self.push(b"?\n");
    }

    fn push(&mut self, text: &[u8]) {
        self.len = text_put::put(text, &mut self.text, self.len);
    }

    fn push_hex(&mut self, bytes: &[u8]) {
        self.len = text_hex::put_hex(bytes, &mut self.text, self.len);
    }

    fn push_decimal(&mut self, n: u64) {
        let mut digits = Buffer::new();
        self.push(digits.format(n).as_bytes());
    }
}
