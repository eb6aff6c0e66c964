//! Whether SENT is complete.

ghost use Rattle.std.specs.Prelude.{◌≡◌, ◌+◌, ◌-◌, ◌^◌, ℕ, [], IfErr, IfOk, OnOk, min, slice_get, slice_index, slice_set};
ghost use Rattle.auditing.specs.Sent.{misplaced_at};
ghost use Rattle.auditing.specs.steps.Indexing.{HasCounted, IsCountFault, placed};

use crate::fault::SentFault;
use message::{DemuxFault, Message, Messages};
use std::alloc::Allocator;

/// How many messages each hart of SENT has, and how many harts there are up to the highest that has one.
#[derive(Drop)]
pub(crate) struct Counted<A: Allocator> {
    pub(crate) counts: Vec<u64, A>,
    pub(crate) highest: u16,
}

/// Counts the messages of each hart, where so many harts may come. Refuses the first message that is not whole, or not
/// the next of its hart.
pub(crate) fn count_messages<A: Allocator>(
    alloc: A,
    harts: u16,
    mut left: Messages<'_>,
) -> Result<Counted<A>, SentFault>
    ensures counted { IfOk result (λ counted. (number : ℕ)
        × HasCounted harts left.entry [] counted.counts.items counted.highest number) }
    ensures fault { IfErr result (IsCountFault harts left.entry) }
{
    let mut counts = vec![in alloc; 0; usize::from(harts)]?;
    let mut highest = 0;
    for number in 0..u64::MAX {
        let message = match left.next() {
            Ok(Some(message)) => message,
            Ok(None) => return Ok(Counted { counts, highest }),
            Err(why) => return Err(SentFault::Unread(number, why)),
        };
        match place(&mut counts, &message) {
            Ok(()) => {}
            Err(why) => return Err(SentFault::Misplaced(number, why)),
        }
        highest = highest.max(message.hart.saturating_add(1));
    }
    Err(SentFault::Memory)
}

/// Counts one more message of its hart. Refuses a message that is not the next of its hart.
fn place<A: Allocator>(counts: &mut Vec<u64, A>, message: &Message) -> Result<(), DemuxFault>
    ensures value { result ≡ placed (misplaced_at (slice_get counts.old.items message.now.hart) message.now.number) }
    ensures state { OnOk result
        (counts.new.items
        ≡ slice_set counts.old.items message.now.hart
        (min (slice_index counts.old.items message.now.hart + 1) (2 ^ 64 - 1))) }
{
    let Some(next) = counts.get_mut(usize::from(message.hart)) else {
        return Err(DemuxFault::Stranger);
    };
    if message.number < *next {
        return Err(DemuxFault::Repeat);
    }
    if message.number > *next {
        return Err(DemuxFault::Gap { expected: *next });
    }
    *next = next.saturating_add(1);
    Ok(())
}
