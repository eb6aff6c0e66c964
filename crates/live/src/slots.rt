//! The messages of SENT in view.

ghost use Rattle.std.specs.Prelude.{◌≡◌, ◌+◌, ◌<◌, ◌≤◌, ◌^◌, ℕ, IfNone, IfSome, false, length, slice_get, true};
ghost use Rattle.std.specs.VecDeque.{deque_capacity};
ghost use Rattle.live.specs.steps.Judging.{mark_by, slots_came};
ghost use Rattle.live.specs.steps.Searching.{is_at};

use crate::held::SentMessage;
use auditing::{By, Fate};
use payload::same;
use std::alloc::Allocator;
use std::collections::VecDeque;

/// Whether the message at this place is of this hart and has this number.
fn is_at<A: Allocator>(
    slots: &VecDeque<SentMessage, A>,
    place: usize,
    hart: u16,
    number: u64,
) -> bool
    ensures { result ≡ is_at slots.now.items hart number place }
{
    match slots.get(place) {
        Some(slot) => slot.is_numbered(hart, number),
        None => false,
    }
}

/// The place of a message of this hart and this number, if there is one. Places near this one are looked at first.
pub(crate) fn position<A: Allocator>(
    slots: &VecDeque<SentMessage, A>,
    near: usize,
    hart: u16,
    number: u64,
) -> Option<usize>
    requires within { near ≤ length slots.now.items }
    requires few { near + length slots.now.items < 2 ^ 64 }
    ensures found { IfSome result (λ place. is_at slots.now.items hart number place ≡ true) }
    ensures none { IfNone result ((place : ℕ) → is_at slots.now.items hart number place ≡ false) }
{
    for away in 0..slots.len() {
        if is_at(slots, near + away, hart, number) {
            return Some(near + away);
        }
        if away < near && is_at(slots, near - 1 - away, hart, number) {
            return Some(near - 1 - away);
        }
    }
    None
}

/// The fate of a message that the one at this place has the hart and the number of and that has this payload, in order where
/// it is late. Payloads are compared by these.
pub(crate) fn mark<A: Allocator>(
    slots: &VecDeque<SentMessage, A>,
    place: usize,
    payload: &[u8],
    by: By,
) -> Fate
    ensures { result ≡ mark_by by (slice_get slots.now.items place) payload.now }
{
    let Some(slot) = slots.get(place) else {
        return Fate::Stranger;
    };
    if !same(slot.message.payload.bytes(), payload, by) {
        Fate::Changed
    } else if slot.came {
        Fate::Repeat
    } else {
        Fate::InOrder
    }
}

/// The message at this place came.
pub(crate) fn set_came<A: Allocator>(slots: &mut VecDeque<SentMessage, A>, place: usize)
    ensures came { slots.new.items ≡ slots_came slots.old.items place (slice_get slots.old.items place) }
    ensures capacity { deque_capacity slots.new ≡ deque_capacity slots.old }
{
    if let Some(slot) = slots.get_mut(place) {
        slot.came = true;
    }
}
