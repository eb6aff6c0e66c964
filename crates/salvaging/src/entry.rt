//! What came with a number of a hart.

ghost use Rattle.std.specs.Prelude.{◌≡◌, nat_lt};
ghost use Rattle.salvaging.specs.steps.Arrivals.{arrival_of};
ghost use Rattle.salvaging.specs.steps.Grouping.{doubtful_at, doubtful_with, entry_by, entry_of, entry_with};

use crate::received::ReceivedMessage;
use message::Message;

/// What came with a number.
#[derive(Clone, Copy)]
pub(crate) enum Entry<'a> {
    /// The number is used: its first message, and the place of that among the hart's messages.
    Used {
        place: usize,
        message: &'a Message,
    },
    /// Two payloads came with the number: the places of the first two messages that differ.
    Doubtful {
        number: u64,
        first: usize,
        second: usize,
    },
}

/// The entry of one message with a number.
pub(crate) fn entry_by<'a>(one: &ReceivedMessage<'a>) -> Entry<'a>
    ensures { entry_of result ≡ entry_by (arrival_of one.now) }
{
    Entry::Used {
        place: one.place,
        message: one.message,
    }
}

/// The entry of a number that came with two payloads, first at these two places.
fn doubtful_at<'a>(number: u64, place: usize, other: usize) -> Entry<'a>
    ensures { entry_of result ≡ doubtful_at (nat_lt place other) number place other }
{
    if place < other {
        Entry::Doubtful {
            number,
            first: place,
            second: other,
        }
    } else {
        Entry::Doubtful {
            number,
            first: other,
            second: place,
        }
    }
}

/// The entry of a doubtful number with one more payload, which came first at this place.
fn doubtful_with<'a>(number: u64, first: usize, second: usize, place: usize) -> Entry<'a>
    ensures { entry_of result
        ≡ doubtful_with (nat_lt place first) (nat_lt place second) number first second place }
{
    if place < first {
        return Entry::Doubtful {
            number,
            first: place,
            second: first,
        };
    }
    if place < second {
        return Entry::Doubtful {
            number,
            first,
            second: place,
        };
    }
    Entry::Doubtful {
        number,
        first,
        second,
    }
}

/// The entry of a number with one more message, right after this one in their order. If its payload differs, it is the
/// first one with that payload, and the number is doubtful.
pub(crate) fn entry_with<'a>(
    entry: Entry<'a>,
    before: &ReceivedMessage<'a>,
    more: &ReceivedMessage<'a>,
) -> Entry<'a>
    ensures { entry_of result ≡ entry_with (entry_of entry.entry) (arrival_of before.now) (arrival_of more.now) }
{
    if before.message.payload.bytes() == more.message.payload.bytes() {
        return entry;
    }
    match entry {
        Entry::Used { place, message } => doubtful_at(message.number, place, more.place),
        Entry::Doubtful {
            number,
            first,
            second,
        } => doubtful_with(number, first, second, more.place),
    }
}
