//! Why no capture is written.

ghost use Rattle.std.specs.Prelude.{Some};
ghost use Rattle.captures.specs.LineFaultText.{line_fault_text, lines_fault_text};

use message::Version;
use std::error::Error;
use std::fmt;

/// What is wrong with a line. Of several faults of a line, the first in this order is returned.
#[derive(Clone, Copy, Debug, PartialEq, Eq)]
pub enum LineFault {
    /// The line has not as many fields as its form has, or a field is empty. A time does not count.
    Fields,
    /// The hart is not a decimal number below the most harts of the version.
    Hart(Version),
    /// The number is not a decimal number below 2^64, or below the count of numbers that a field has.
    Number(Option<u64>),
    /// The bytes are not 2 to 36 hexadecimal digits, or their count is odd.
    Bytes,
    /// The hart is not below the count of harts that was asked for.
    Above,
}

impl fmt::Display for LineFault {
    ghost output = { λ fault. Some (line_fault_text fault) };

    fn fmt<W: fmt::Write>(&self, f: &mut fmt::Formatter<W>) -> fmt::Result {
        match *self {
            LineFault::Fields => f.write_str("wrong number of fields"),
            LineFault::Hart(Version::One) => f.write_str("hart is not a number below 64"),
            LineFault::Hart(Version::Two) => f.write_str("hart is not a number below 1024"),
            LineFault::Number(None) => f.write_str("number is not a number"),
            LineFault::Number(Some(limit)) => write!(f, "number is not a number below {limit}"),
            LineFault::Bytes => f.write_str("bytes are not 1 to 18"),
            LineFault::Above => f.write_str("hart is not below --harts"),
        }
    }
}

impl Error for LineFault {}

/// Why the capture of lines is not written.
#[derive(Clone, Copy, Debug, PartialEq, Eq)]
pub enum LinesFault {
    /// A line has a fault; it is the first such line.
    Line {
        /// The line, counted from 1.
        line: u64,
        /// What is wrong with it.
        why: LineFault,
    },
    /// The writer failed.
    Write,
}

impl fmt::Display for LinesFault {
    ghost output = { λ fault. Some (lines_fault_text fault) };

    fn fmt<W: fmt::Write>(&self, f: &mut fmt::Formatter<W>) -> fmt::Result {
        match *self {
            LinesFault::Line { line, why } => write!(f, "line {line}: {why}"),
            LinesFault::Write => f.write_str("cannot be written"),
        }
    }
}

impl Error for LinesFault {}
