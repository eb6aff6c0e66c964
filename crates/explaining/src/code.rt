//! The digits of a word.

ghost use Rattle.std.specs.Prelude.{Some};
ghost use Rattle.explaining.specs.Digits.{code_text};

use std::fmt;

/// The bits of a word in hexadecimal: of a word of 2 bytes four digits, of a word of 4 bytes eight.
#[derive(Clone, Copy)]
pub(crate) struct Code {
    pub(crate) bits: u32,
    /// The length of the word in bytes.
    pub(crate) length: u8,
}

impl fmt::Display for Code {
    ghost output = { λ code. Some (code_text code.length code.bits) };

    fn fmt<W: fmt::Write>(&self, f: &mut fmt::Formatter<W>) -> fmt::Result {
        let bits = self.bits;
        if self.length == 2 {
            write!(f, "{bits:04x}")
        } else {
            write!(f, "{bits:08x}")
        }
    }
}
