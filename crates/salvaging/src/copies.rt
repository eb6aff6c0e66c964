//! How many messages of a hart are copies.

ghost use Rattle.std.specs.Prelude.{◌≡◌};
ghost use Rattle.salvaging.specs.steps.Arrivals.{arrival_of, arrivals_in};
ghost use Rattle.salvaging.specs.steps.Grouping.{are_alike, copies_by};

use crate::received::ReceivedMessage;

/// Whether two messages of a hart have the same number and the same payload.
fn are_alike(one: &ReceivedMessage<'_>, other: &ReceivedMessage<'_>) -> bool
    ensures { result ≡ are_alike (arrival_of one.now) (arrival_of other.now) }
{
    one.message.number == other.message.number
        && one.message.payload.bytes() == other.message.payload.bytes()
}

/// How many of a hart's messages, which are in the order of their numbers, are alike with the one right before.
pub(crate) fn copies(came: &[ReceivedMessage<'_>]) -> usize
    ensures { result ≡ copies_by (arrivals_in came.now) }
{
    let mut count = 0;
    for at in 1..came.len() {
        if are_alike(&came[at - 1], &came[at]) {
            count += 1;
        }
    }
    count
}
