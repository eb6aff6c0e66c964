//! Why a piece is not added to a memory.

ghost use Rattle.std.specs.Prelude.{Some};
ghost use Rattle.rvclass.specs.PieceFaultText.{piece_fault_text};

use std::error::Error;
use std::fmt;

/// Why a piece is not added. Where several of these apply, the fault is the first in this order.
#[derive(Clone, Copy, Debug, PartialEq, Eq)]
pub enum PieceFault {
    /// The base is odd; an instruction has an even address.
    OddBase,
    /// The piece has more than 2^24 bytes.
    TooLarge,
    /// The address after the last byte is 2^64 or more.
    PastEnd,
    /// A byte of the piece has the address of a byte that is already there.
    Overlap,
    /// All pieces together would have more than 2^26 bytes.
    TooMuch,
    /// There would be more than 1,024 pieces.
    TooMany,
    /// An allocation failed.
    Memory,
}

impl fmt::Display for PieceFault {
    ghost output = { λ fault. Some (piece_fault_text fault) };

    fn fmt<W: fmt::Write>(&self, f: &mut fmt::Formatter<W>) -> fmt::Result {
        f.write_str(match *self {
            PieceFault::OddBase => "base is odd",
            PieceFault::TooLarge => "more than 16777216 bytes",
            PieceFault::PastEnd => "runs past the last address",
            PieceFault::Overlap => "overlaps",
            PieceFault::TooMuch => "more than 67108864 bytes in all",
            PieceFault::TooMany => "more than 1024 pieces",
            PieceFault::Memory => "out of memory",
        })
    }
}

impl Error for PieceFault {}
