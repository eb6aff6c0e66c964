//! Which numbers of a hart are used.

ghost use Rattle.std.specs.Prelude.{◌≡◌};
ghost use Rattle.salvaging.specs.Entries.{is_closed, next_used};
ghost use Rattle.salvaging.specs.steps.Arrivals.{arrivals_in};
ghost use Rattle.salvaging.specs.steps.Grouping.{entries_by};

use crate::entry::Entry;
use crate::grouping::{first_entry, last_entry};
use crate::received::ReceivedMessage;

/// The first number of these messages that is used, if one is. The messages are in the order of their numbers.
pub(crate) fn next_used(came: &[ReceivedMessage<'_>]) -> Option<u64>
    ensures { result ≡ next_used (entries_by (arrivals_in came.now)) }
{
    let mut rest = came;
    while let Some((entry, count)) = first_entry(rest) {
        match entry {
            Entry::Used { message, .. } => return Some(message.number),
            Entry::Doubtful { .. } => rest = &rest[count..],
        }
    }
    None
}

/// Whether the last number of these messages that is used closes the hart. The messages are in the order of their
/// numbers.
pub(crate) fn is_closed(came: &[ReceivedMessage<'_>]) -> bool
    ensures { result ≡ is_closed (entries_by (arrivals_in came.now)) }
{
    let mut rest = came;
    while let Some((entry, front)) = last_entry(rest) {
        match entry {
            Entry::Used { message, .. } => return message.payload.is_closing(),
            Entry::Doubtful { .. } => rest = &rest[..front],
        }
    }
    false
}
