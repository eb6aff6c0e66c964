//! Why a text is no schedule.

ghost use Rattle.std.specs.Prelude.{Some};
ghost use Rattle.funnel.specs.FaultText.{schedule_fault_text};

use std::error::Error;
use std::fmt;

/// Why a text is no schedule. Of several faults in a text, the first one is returned.
#[derive(Clone, Copy, Debug, PartialEq, Eq)]
pub enum ScheduleFault {
    /// The word with this number, counted from 1, is not a turn.
    Word(u32),
    /// There are more words than a schedule may have.
    TooLong,
    /// An allocation failed.
    Memory,
}

impl fmt::Display for ScheduleFault {
    ghost output = { λ fault. Some (schedule_fault_text fault) };

    fn fmt<W: fmt::Write>(&self, f: &mut fmt::Formatter<W>) -> fmt::Result {
        match *self {
            ScheduleFault::Word(place) => write!(f, "word {place} is not a turn"),
            ScheduleFault::TooLong => f.write_str("more than 16777216 turns"),
            ScheduleFault::Memory => f.write_str("out of memory"),
        }
    }
}

impl Error for ScheduleFault {}
