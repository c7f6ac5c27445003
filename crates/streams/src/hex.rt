// Bytes shown as hex digits.
ghost use Rattle.std.specs.Prelude.{Some};
ghost use Rattle.text_hex.specs.Written.{hex_of};

use std::fmt::{self, Display, Formatter};
use std::str;

/// Bytes as two hex digits each, in lower case. Of none nothing is shown.
#[derive(Clone, Copy)]
pub struct Hex<'a>(pub &'a [u8]);

impl Display for Hex<'_> {
    ghost output = { λ h. Some (hex_of h.0.now) };

    fn fmt<W: fmt::Write>(&self, f: &mut Formatter<W>) -> fmt::Result {
        let mut text = [0u8; 64];
        for row in self.0.chunks(32) {
            let n = text_hex::put_hex(row, &mut text, 0);
            let Ok(digits) = str::from_utf8(&text[..n]) else {
                return Err(fmt::Error);
            };
            f.write_str(digits)?;
        }
        Ok(())
    }
}
