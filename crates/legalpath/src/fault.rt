//! Why a log is illegal.

ghost use Rattle.std.specs.Prelude.{Some};
ghost use Rattle.legalpath.specs.FaultText.{path_fault_text, why_text};

use std::error::Error;
use std::fmt;

/// Why a row of a log is illegal. Where several of these apply, a fault names the first in this order.
#[derive(Clone, Copy, Debug, PartialEq, Eq)]
pub enum Why {
    /// At a retirement's address there is no complete instruction of the program.
    OffProgram,
    /// The instruction at a retirement's address does not retire.
    NotRetirable,
    /// A retirement's type is not that of its instruction; or a trap's cause is above 63, or an interrupt has a value.
    WrongType,
    /// A retirement is not at an address to which the event before leads.
    WrongNext,
    /// The privilege is none of 0, 1 and 3, or the instruction may not retire at it, or the event before does not lead
    /// to it.
    WrongPrivilege,
    /// A trap's exception program counter is odd, or not an address to which the event before leads.
    WrongEpc,
}

impl fmt::Display for Why {
    ghost output = { λ why. Some (why_text why) };

    fn fmt<W: fmt::Write>(&self, f: &mut fmt::Formatter<W>) -> fmt::Result {
        f.write_str(match *self {
            Why::OffProgram => "OffProgram",
            Why::NotRetirable => "NotRetirable",
            Why::WrongType => "WrongType",
            Why::WrongNext => "WrongNext",
            Why::WrongPrivilege => "WrongPrivilege",
            Why::WrongEpc => "WrongEpc",
        })
    }
}

impl Error for Why {}

/// The first illegal row of a log, and why it is illegal.
#[derive(Clone, Copy, Debug, PartialEq, Eq)]
pub struct PathFault {
    /// The row, counted from 1.
    pub row: u32,
    /// The reason.
    pub why: Why,
}

impl fmt::Display for PathFault {
    ghost output = { λ fault. Some (path_fault_text fault) };

    fn fmt<W: fmt::Write>(&self, f: &mut fmt::Formatter<W>) -> fmt::Result {
        write!(f, "row {}: {}", self.row, self.why)
    }
}

impl Error for PathFault {}
