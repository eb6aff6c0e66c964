//! The messages of lines, each with its number.

ghost use Rattle.std.specs.Prelude.{◌≡◌, ◌≤◌, ◌<◌, ◌-◌, ◌^◌, IfSome, min};
ghost use Rattle.captures.specs.Number.{first_from, number_by};
ghost use Rattle.captures.specs.steps.Passing.{counted, lowered, lowest_with, message_at};

use crate::capture_line::Line;
use message::{MOST_HARTS, Message};

/// A number of each hart.
pub(crate) type Harts = [u64; MOST_HARTS as usize];

/// The first number from the lowest on that a field of so many numbers stands for, where it is below 2^64.
fn first_from(numbers: u64, lowest: u64, field: u64) -> u64
    requires { 1 ≤ numbers }
    ensures { result ≡ min (first_from numbers lowest field) (2 ^ 64 - 1) }
{
    let number = (lowest - lowest % numbers).saturating_add(field);
    if number < lowest {
        number.saturating_add(numbers)
    } else {
        number
    }
}

/// The number of a message that comes after so many of its hart, by its line's field, where it has one.
fn number_by(numbers: Option<u64>, count: u64, lowest: u64, field: Option<u64>) -> u64
    requires { IfSome numbers (λ numbers. 2 ≤ numbers) }
    ensures { result ≡ number_by numbers count lowest field }
{
    let Some(field) = field else {
        return count;
    };
    match numbers {
        None => field,
        Some(numbers) => first_from(numbers, lowest, field),
    }
}

/// The lowest number that a field of so many numbers may stand for, after a message with this one.
fn lowest_with(numbers: Option<u64>, lowest: u64, number: u64) -> u64
    requires { IfSome numbers (λ numbers. 2 ≤ numbers) }
    ensures { result ≡ lowest_with numbers lowest number }
{
    match numbers {
        None => lowest,
        Some(numbers) => lowest.max(number.saturating_sub(numbers / 2 - 1)),
    }
}

/// The message of a line, where so many lines of each hart were passed, and these are the lowest numbers of each. There
/// is none where 2^64 - 1 lines of its hart were passed.
pub(crate) fn message_of(
    numbers: Option<u64>,
    counts: &mut Harts,
    lows: &mut Harts,
    line: Line,
) -> Option<Message>
    requires numbers { IfSome numbers (λ numbers. 2 ≤ numbers) }
    requires known { line.hart < 1024 }
    ensures message { IfSome result (λ message. message ≡ message_at numbers counts.old lows.old line) }
    ensures counted { IfSome result (λ _. counts.new ≡ counted counts.old line) }
    ensures lowered { IfSome result (λ message. lows.new ≡ lowered numbers lows.old message) }
{
    let hart = usize::from(line.hart);
    let count = counts[hart];
    let Some(next) = count.checked_add(1) else {
        return None;
    };
    let lowest = lows[hart];
    let number = number_by(numbers, count, lowest, line.number);
    counts[hart] = next;
    lows[hart] = lowest_with(numbers, lowest, number);
    Some(Message {
        hart: line.hart,
        number,
        payload: line.payload,
    })
}
