//! Why a hart's packets were not all decoded.

ghost use Rattle.std.specs.Prelude.{Some};
ghost use Rattle.bench.specs.Report.{stop_text};

use std::fmt;

/// Why some hart's packets were not all decoded. Where several stops arose, one of them is returned.
#[derive(Clone, Copy, PartialEq, Eq)]
pub enum Stop {
    /// Memory for this hart, or the thread of its worker, was refused.
    Memory(u16),
    /// The channel handed a payload of this hart back.
    HandedBack(u16),
    /// The channel ended before this hart's closing message came.
    Ended(u16),
}

impl fmt::Display for Stop {
    ghost output = { λ stop. Some (stop_text stop) };

    fn fmt<W: fmt::Write>(&self, f: &mut fmt::Formatter<W>) -> fmt::Result {
        match *self {
            Stop::Memory(hart) => write!(f, "memory at hart {hart}"),
            Stop::HandedBack(hart) => write!(f, "handed back at hart {hart}"),
            Stop::Ended(hart) => write!(f, "ended at hart {hart}"),
        }
    }
}
