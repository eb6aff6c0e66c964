//! Messages that are undecided.

ghost use Rattle.std.specs.Prelude.{◌≡◌, IfOk, Option, None, Some, replicate, slice_set};
ghost use Rattle.live.specs.Auditing.{waiting_in};
ghost use Rattle.live.specs.declared.held.SentMessage.{SentMessage as AnySent};
ghost use Rattle.live.specs.steps.Waiting.{has_this, met_one, numbering, unmet, without};

use crate::arrived::Arrived;
use std::alloc::{AllocError, Allocator};

/// None of so many harts waits.
pub(crate) fn none_waiting<A: Allocator>(
    alloc: A,
    harts: u16,
) -> Result<Vec<Option<Arrived>, A>, AllocError>
    ensures { IfOk result (λ waiting. waiting.items ≡ replicate harts None) }
{
    let mut waiting = Vec::with_capacity(alloc, usize::from(harts))?;
    for _ in 0..harts {
        waiting.push_reserved(None);
    }
    Ok(waiting)
}

/// What waits of this hart, if something does. Nothing does after that.
pub(crate) fn take_waiting<A: Allocator>(
    waiting: &mut Vec<Option<Arrived>, A>,
    hart: u16,
) -> Option<Arrived>
    ensures taken { result ≡ waiting_in waiting.old.items hart }
    ensures rest { waiting.new.items ≡ without waiting.old.items hart }
{
    match waiting.get_mut(usize::from(hart)) {
        Some(own) => own.take(),
        None => None,
    }
}

/// What waits of this hart has this number.
fn is_waiting<A: Allocator>(waiting: &Vec<Option<Arrived>, A>, hart: u16, number: u64) -> bool
    ensures { result ≡ has_this number (waiting_in waiting.now.items hart) }
{
    match waiting.get(usize::from(hart)) {
        Some(Some(one)) => one.message.number == number,
        _ => false,
    }
}

/// What waits for the message of SENT with this hart and this number, if something does. Nothing does after that.
pub(crate) fn take_met<A: Allocator>(
    waiting: &mut Vec<Option<Arrived>, A>,
    next: Option<(u16, u64)>,
) -> Option<Arrived>
    ensures taken { (slot : Option AnySent) → next ≡ numbering slot → result ≡ met_one waiting.old.items slot }
    ensures rest { (slot : Option AnySent) → next ≡ numbering slot → waiting.new.items ≡ unmet waiting.old.items slot }
{
    let Some((hart, number)) = next else {
        return None;
    };
    if !is_waiting(&*waiting, hart, number) {
        return None;
    }
    take_waiting(waiting, hart)
}

/// A message waits.
pub(crate) fn wait<A: Allocator>(waiting: &mut Vec<Option<Arrived>, A>, one: Arrived)
    ensures { waiting.new.items ≡ slice_set waiting.old.items one.message.hart (Some one) }
{
    if let Some(own) = waiting.get_mut(usize::from(one.message.hart)) {
        *own = Some(one);
    }
}
