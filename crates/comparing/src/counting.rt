//! How much of each hart there is in a capture before decoding stops.

ghost use Rattle.std.specs.Prelude.{◌≡◌, ◌<◌, ◌^◌, IfOk, [], false, length, true};
ghost use Rattle.comparing.specs.Counts.{AreCounted, AreCounts};
ghost use Rattle.comparing.specs.steps.Counting.{AreCountedOn, AreCountedUpTo, comes_before};

use crate::hart_count::HartCount;
use captures::CaptureFault;
use message::{Message, Messages};
use std::alloc::{AllocError, Allocator};

/// How many messages each of so many harts has in a capture before decoding stops at `stop`, and how many bytes their
/// payloads have. The error says that an allocation failed.
///
/// `stop` is the fault of a [`CaptureOutcome`](captures::CaptureOutcome): the number of a message, counted from 0 over
/// all harts, and why it is refused; or `None` where decoding comes to the end of the capture. The messages are read
/// once more, and none is kept.
pub fn counts_of<A: Allocator + Copy>(
    alloc: A,
    harts: usize,
    stop: Option<(u64, CaptureFault)>,
    bytes: &[u8],
) -> Result<Vec<HartCount, A>, AllocError>
    ensures { IfOk result (λ counts. AreCounted bytes.now harts stop counts.items) }
{
    let mut counts = vec![in alloc; HartCount::NONE; harts]?;
    let mut left = Messages::new(bytes);
    match left.header() {
        Ok(_) => {
            count_messages(&mut counts, stop, left);
            Ok(counts)
        }
        Err(_) => Ok(counts),
    }
}

/// Counts the messages that these bytes begin with, before the one at which decoding stops. No message was counted.
fn count_messages<A: Allocator>(
    counts: &mut Vec<HartCount, A>,
    stop: Option<(u64, CaptureFault)>,
    mut left: Messages<'_>,
)
    requires none { AreCounts (length counts.old.items) [] counts.old.items }
    requires few { length left < 2 ^ 64 }
    ensures { AreCountedUpTo left.entry (length counts.old.items) stop counts.new.items }
{
    let mut number = 0;
    loop {
        let message = match left.next() {
            Ok(Some(message)) => message,
            Ok(None) => return,
            Err(_) => return,
        };
        count_before(counts, stop, number, &message);
        number += 1;
    }
}

/// Counts the message with this number, if it comes before the one at which decoding stops.
fn count_before<A: Allocator>(
    counts: &mut Vec<HartCount, A>,
    stop: Option<(u64, CaptureFault)>,
    number: u64,
    message: &Message,
)
    ensures counted { comes_before stop number ≡ true → AreCountedOn message.now counts.old.items counts.new.items }
    ensures kept { comes_before stop number ≡ false → counts.new.items ≡ counts.old.items }
{
    if !comes_before(stop, number) {
        return;
    }
    count_message(counts, message);
}

/// Whether the message with this number comes before the one at which decoding stops.
pub(crate) fn comes_before(stop: Option<(u64, CaptureFault)>, number: u64) -> bool
    ensures { result ≡ comes_before stop number }
{
    match stop {
        None => true,
        Some((end, _)) => number < end,
    }
}

/// Counts one more message of its hart, if that is one of the harts.
fn count_message<A: Allocator>(counts: &mut Vec<HartCount, A>, message: &Message)
    ensures { AreCountedOn message.now counts.old.items counts.new.items }
{
    let hart = usize::from(message.hart);
    if hart >= counts.len() {
        return;
    }
    let count = counts[hart];
    let bytes = message.payload.bytes().len() as u64;
    counts[hart] = HartCount {
        taken: count.taken.saturating_add(1),
        bytes: count.bytes.saturating_add(bytes),
    };
}
