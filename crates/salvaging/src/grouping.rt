//! The entries of a hart's messages, read from the messages in the order of their numbers.

ghost use Rattle.std.specs.Prelude.{◌≡◌, ◌<◌, ◌≤◌, ◌++◌, [], ◌∷◌, IfNone, IfSome, drop, length, take};
ghost use Rattle.salvaging.specs.steps.Arrivals.{arrivals_in};
ghost use Rattle.salvaging.specs.steps.Grouping.{AreOfOne, IsLastGroup, entries_by, entry_of};

use crate::entry::{Entry, entry_by, entry_with};
use crate::received::ReceivedMessage;

/// The entry of the first of these messages' numbers, and how many messages have the number; `None` where there is no
/// message.
pub(crate) fn first_entry<'a>(came: &[ReceivedMessage<'a>]) -> Option<(Entry<'a>, usize)>
    ensures first { IfSome result (λ found. entries_by (arrivals_in came.now)
        ≡ entry_of found.0 ∷ entries_by (arrivals_in (drop found.1 came.now))) }
    ensures some { IfSome result (λ found. 0 < found.1) }
    ensures within { IfSome result (λ found. found.1 ≤ length came.now) }
    ensures none { IfNone result (entries_by (arrivals_in came.now) ≡ []) }
{
    if came.is_empty() {
        return None;
    }
    let first = &came[0];
    let mut entry = entry_by(first);
    let mut before = first;
    for at in 1..came.len() {
        let next = &came[at];
        if next.message.number != first.message.number {
            return Some((entry, at));
        }
        entry = entry_with(entry, before, next);
        before = next;
    }
    Some((entry, came.len()))
}

/// How many of these messages come before those that have the last one's number. There is one at least.
fn before_last(came: &[ReceivedMessage<'_>]) -> usize
    requires { 0 < length came.now }
    ensures { IsLastGroup came.now result }
{
    let last = &came[came.len() - 1];
    for at in (0..came.len() - 1).rev() {
        if came[at].message.number != last.message.number {
            return at + 1;
        }
    }
    0
}

/// The entry of the last of these messages' numbers, and how many messages come before those with the number; `None`
/// where there is no message.
pub(crate) fn last_entry<'a>(came: &[ReceivedMessage<'a>]) -> Option<(Entry<'a>, usize)>
    ensures last { IfSome result (λ found. entries_by (arrivals_in came.now)
        ≡ entries_by (arrivals_in (take found.1 came.now)) ++ entry_of found.0 ∷ []) }
    ensures shorter { IfSome result (λ found. found.1 < length came.now) }
    ensures group { IfSome result (λ found. AreOfOne (arrivals_in (drop found.1 came.now)) (entry_of found.0)) }
    ensures none { IfNone result (entries_by (arrivals_in came.now) ≡ []) }
{
    if came.is_empty() {
        return None;
    }
    let front = before_last(came);
    match first_entry(&came[front..]) {
        Some((entry, _)) => Some((entry, front)),
        None => None,
    }
}
