//! The messages of a hart that came, in the order of their numbers.

ghost use Rattle.std.specs.Prelude.{◌≡◌, ⊤, MatchBool};
ghost use Rattle.std.specs.List.Sorted.{IsPermutation};
ghost use Rattle.salvaging.specs.steps.Arrivals.{AreOrdered, Rise, arrival_cmp, arrival_of, arrivals_in};

use message::Message;
use std::cmp::Ordering;

/// A message of a hart, and its place among the messages of the hart in the order in which they came.
#[derive(Clone, Copy)]
pub(crate) struct ReceivedMessage<'a> {
    pub(crate) place: usize,
    pub(crate) message: &'a Message,
}

/// Whether the numbers of these messages rise.
fn rise(came: &[ReceivedMessage<'_>]) -> bool
    ensures { MatchBool result (Rise (arrivals_in came.now)) ⊤ }
{
    for at in 1..came.len() {
        if came[at - 1].message.number >= came[at].message.number {
            return false;
        }
    }
    true
}

/// The order of two messages: by number, then by payload, then by place.
fn order_of(one: &ReceivedMessage<'_>, other: &ReceivedMessage<'_>) -> Ordering
    ensures { result ≡ arrival_cmp (arrival_of one.now) (arrival_of other.now) }
{
    match one.message.number.cmp(&other.message.number) {
        Ordering::Equal => {}
        apart => return apart,
    }
    match one
        .message
        .payload
        .bytes()
        .cmp(other.message.payload.bytes())
    {
        Ordering::Equal => one.place.cmp(&other.place),
        apart => apart,
    }
}

/// Puts messages in the order of their numbers, those with one number in the order of their payloads, and those alike
/// as they came. Nothing is moved where the numbers rise already. Takes no memory.
pub(crate) fn put_in_order(came: &mut [ReceivedMessage<'_>])
    ensures permuted { IsPermutation (arrivals_in came.old) (arrivals_in came.new) }
    ensures ordered { AreOrdered (arrivals_in came.new) }
{
    if !rise(came) {
        came.sort_unstable_by(|one, other| order_of(one, other));
    }
}
