//! Why SENT is refused.

ghost use Rattle.std.specs.Prelude.{◌≡◌, Some};
ghost use Rattle.auditing.specs.FateText.{sent_fault_text};
ghost use Rattle.auditing.specs.declared.fault.SentFault.TheVariants.{Memory};

use message::{DemuxFault, MessageFault};
use std::alloc::AllocError;
use std::error::Error;
use std::fmt;

/// Why SENT is refused.
#[derive(Clone, Copy, Debug, PartialEq, Eq)]
pub enum SentFault {
    /// After so many messages there is no complete message, for this reason. The number is 0 where the header is cut
    /// short or bad.
    Unread(u64, MessageFault),
    /// The message after so many is not the next one of a known hart: it is a stranger, a repeat or a gap.
    Misplaced(u64, DemuxFault),
    /// An allocation failed.
    Memory,
}

impl fmt::Display for SentFault {
    ghost output = { λ fault. Some (sent_fault_text fault) };

    fn fmt<W: fmt::Write>(&self, f: &mut fmt::Formatter<W>) -> fmt::Result {
        match *self {
            SentFault::Unread(_, MessageFault::BadHeader) => {
                write!(f, "{}", MessageFault::BadHeader)
            }
            SentFault::Unread(number, why) => write!(f, "message {number}: {why}"),
            SentFault::Misplaced(number, why) => write!(f, "message {number}: {why}"),
            SentFault::Memory => f.write_str("out of memory"),
        }
    }
}

impl Error for SentFault {}

impl From<AllocError> for SentFault {
    ghost from_gives = { λ _error fault. fault ≡ Memory };

    fn from(_error: AllocError) -> SentFault {
        SentFault::Memory
    }
}
