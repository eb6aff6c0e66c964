//! Why bytes are no program.

ghost use Rattle.std.specs.Prelude.{◌≡◌, Some};
ghost use Rattle.rvclass.specs.FaultText.{program_fault_text};
ghost use Rattle.rvclass.specs.steps.PieceFaults.{program_fault};

use crate::PieceFault;
use std::error::Error;
use std::fmt;

/// Why bytes make no program. Where several of these apply, the fault is the first in this order.
#[derive(Clone, Copy, Debug, PartialEq, Eq)]
pub enum ProgramFault {
    /// The base is odd; an instruction has an even address.
    OddBase,
    /// There are more than 2^24 bytes.
    TooLarge,
    /// The address after the last byte is 2^64 or more.
    PastEnd,
}

impl fmt::Display for ProgramFault {
    ghost output = { λ fault. Some (program_fault_text fault) };

    fn fmt<W: fmt::Write>(&self, f: &mut fmt::Formatter<W>) -> fmt::Result {
        f.write_str(match *self {
            ProgramFault::OddBase => "base is odd",
            ProgramFault::TooLarge => "image is larger than 16777216 bytes",
            ProgramFault::PastEnd => "image runs past the last address",
        })
    }
}

impl Error for ProgramFault {}

/// The fault of a program whose one piece has this fault. A piece on its own has no fault but these three.
pub(crate) fn fault_of_piece(fault: PieceFault) -> ProgramFault
    ensures { result ≡ program_fault fault }
{
    match fault {
        PieceFault::OddBase => ProgramFault::OddBase,
        PieceFault::TooLarge => ProgramFault::TooLarge,
        _ => ProgramFault::PastEnd,
    }
}
