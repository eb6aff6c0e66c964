//! The digits of bytes.

ghost use Rattle.std.specs.Prelude.{Some};
ghost use Rattle.output.specs.Fields.{byte_text, bytes_text};

use std::fmt;

/// The hexadecimal digits of bytes, two for each, in lower case.
#[derive(Clone, Copy)]
pub struct Digits<'a>(pub &'a [u8]);

impl fmt::Display for Digits<'_> {
    ghost output = { λ digits. Some (bytes_text digits.0.now) };

    fn fmt<W: fmt::Write>(&self, f: &mut fmt::Formatter<W>) -> fmt::Result {
        for place in 0..self.0.len() {
            write!(f, "{}", Byte(self.0[place]))?;
        }
        Ok(())
    }
}

/// The two hexadecimal digits of a byte.
#[derive(Clone, Copy)]
struct Byte(u8);

impl fmt::Display for Byte {
    ghost output = { λ byte. Some (byte_text byte.0) };

    fn fmt<W: fmt::Write>(&self, f: &mut fmt::Formatter<W>) -> fmt::Result {
        let high = self.0 / 16;
        let low = self.0 % 16;
        write!(f, "{high:x}{low:x}")
    }
}
