//! What an audit finds of a message that came.

ghost use Rattle.std.specs.Prelude.{◌≡◌};
ghost use Rattle.auditing.specs.Findings.{fate_of_finding, is_plain};
ghost use Rattle.auditing.specs.steps.Taking.{finding_at, lateness_at};

use crate::fate::Fate;

/// What an audit finds of a message of RECEIVED: its fate, and how far it is from its place.
#[derive(Clone, Copy, Debug, PartialEq, Eq)]
pub enum Finding {
    /// SENT has no message of its hart and number.
    Stranger,
    /// SENT has its hart and number with another payload.
    Changed,
    /// An earlier true message of RECEIVED has its hart and number.
    Repeat,
    /// An earlier true message of RECEIVED of its hart has a greater number.
    Late {
        /// The greatest number of the earlier ones less its own number, at least 1.
        by: u64,
    },
    /// None of these.
    InOrder {
        /// How many numbers there are between the greatest number of the earlier true messages of its hart and its own.
        /// Where none came earlier, its number.
        skips: u64,
    },
}

impl Finding {
    /// The fate alone.
    pub fn fate(self) -> Fate
        ensures { result ≡ fate_of_finding self }
    {
        match self {
            Finding::Stranger => Fate::Stranger,
            Finding::Changed => Fate::Changed,
            Finding::Repeat => Fate::Repeat,
            Finding::Late { .. } => Fate::Late,
            Finding::InOrder { .. } => Fate::InOrder,
        }
    }

    /// Whether the message is in order and skips no number.
    pub fn is_plain(self) -> bool
        ensures { result ≡ is_plain self }
    {
        match self {
            Finding::InOrder { skips } => skips == 0,
            _ => false,
        }
    }
}

/// What is found of a message of this fate and this number, where `past` is the number after the greatest true one of
/// its hart before it.
pub(crate) fn finding_at(fate: Fate, past: u64, number: u64) -> Finding
    ensures { result ≡ finding_at fate past number }
{
    match fate {
        Fate::Stranger => Finding::Stranger,
        Fate::Changed => Finding::Changed,
        Fate::Repeat => Finding::Repeat,
        Fate::Late => Finding::Late {
            by: lateness(past, number),
        },
        Fate::InOrder => Finding::InOrder {
            skips: number.saturating_sub(past),
        },
    }
}

/// By how much a message with this number is late, where `past` is the number after the greatest true one of its hart
/// before it.
pub(crate) fn lateness(past: u64, number: u64) -> u64
    ensures { result ≡ lateness_at past number }
{
    past.saturating_sub(1).saturating_sub(number)
}
