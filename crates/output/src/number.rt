//! The field of a number.

ghost use Rattle.std.specs.Prelude.{Some};
ghost use Rattle.output.specs.Fields.{number_field};

use std::fmt;
use std::fmt::Display;

/// The decimal digits of a number, where there is one. The field of none is empty.
#[derive(Clone, Copy)]
pub struct Number(pub Option<u64>);

impl fmt::Display for Number {
    ghost output = { λ number. Some (number_field number.0) };

    fn fmt<W: fmt::Write>(&self, f: &mut fmt::Formatter<W>) -> fmt::Result {
        match self.0 {
            Some(number) => number.fmt(f),
            None => f.write_str(""),
        }
    }
}
