//! What is done with one message of a hart.

ghost use Rattle.std.specs.Prelude.{◌≡◌, Contains, List, Some, slice_get};
ghost use Rattle.std.specs.List.Sorted.{IsPermutation};
ghost use Rattle.message.specs.declared.message.Message.{Message as AnyMessage};
ghost use Rattle.losses.specs.Apart.{AreRising};
ghost use Rattle.salvaging.specs.Treatments.{IsTreated, Row, copy};
ghost use Rattle.salvaging.specs.declared.treatment.Treated.{Treated as AnyTreated};
ghost use Rattle.salvaging.specs.steps.Arrivals.{Arrival, AreOrdered, arrival_of, arrivals_in, placed_from};
ghost use Rattle.salvaging.specs.steps.Looking.{IsFirstLike, is_below, is_place};
ghost use Rattle.salvaging.specs.steps.Rows.{AreRowsBack, numbers_in};

use crate::received::ReceivedMessage;
use crate::rows::NumberRow;
use crate::treatment::{Treated, Treatment};
use message::Message;
use std::cmp::Ordering;

/// Whether a message comes before those with the number and the payload of this one, in the order of a hart's messages.
fn is_below(one: &ReceivedMessage<'_>, message: &Message) -> bool
    ensures { result ≡ is_below message.now (arrival_of one.now) }
{
    match one.message.number.cmp(&message.number) {
        Ordering::Less => true,
        Ordering::Equal => match one.message.payload.bytes().cmp(message.payload.bytes()) {
            Ordering::Less => true,
            _ => false,
        },
        Ordering::Greater => false,
    }
}

/// The place of the first of a hart's messages that are like this one, which are in their order.
fn first_like(came: &[ReceivedMessage<'_>], message: &Message) -> Option<usize>
    ensures { (own : Arrival) → AreOrdered (arrivals_in came.now) → Contains (arrivals_in came.now) own
        → own.message.number ≡ message.now.number → own.message.payload ≡ message.now.payload
        → IsFirstLike (arrivals_in came.now) message.now result }
{
    let at = came.partition_point(|one| is_below(one, message));
    if at < came.len() {
        Some(came[at].place)
    } else {
        None
    }
}

/// What the row of a number says, among those of a hart, which are from the greatest number on.
fn row_of(rows: &[NumberRow], number: u64) -> Option<Treated>
    ensures { (all : List Row) (row : Row) → AreRowsBack all rows.now → AreRising 0 (numbers_in all)
        → Contains all row → row.number ≡ number → (found : AnyTreated) × (result ≡ Some found)
        × Contains all (record { number = number; treated = found }) }
{
    let at = rows.partition_point(|row| row.number > number);
    if at < rows.len() {
        Some(rows[at].treated)
    } else {
        None
    }
}

/// Whether the place that was found is this one.
fn is_place(found: Option<usize>, place: usize) -> bool
    ensures { result ≡ is_place found place }
{
    match found {
        Some(found) => found == place,
        None => false,
    }
}

/// What is done with a copy.
fn copy() -> Treated
    ensures { result ≡ copy }
{
    Treated {
        treatment: Treatment::Copy,
        far: false,
        late: false,
    }
}

/// What is done with the message at this place among a hart's messages, which are in the order of their numbers: a copy
/// is passed over, and the first of those alike has what the row of its number says.
pub(crate) fn treated_at(
    came: &[ReceivedMessage<'_>],
    rows: &[NumberRow],
    place: usize,
    message: &Message,
) -> Treated
    ensures { (messages : List AnyMessage) (all : List Row) → IsPermutation (placed_from 0 messages)
        (arrivals_in came.now)
        → AreOrdered (arrivals_in came.now) → AreRowsBack all rows.now → AreRising 0 (numbers_in all)
        → Contains (numbers_in all) message.now.number → slice_get messages place ≡ Some message.now
        → IsTreated messages all place message.now result }
{
    if !is_place(first_like(came, message), place) {
        return copy();
    }
    row_of(rows, message.number).unwrap_or(copy())
}
