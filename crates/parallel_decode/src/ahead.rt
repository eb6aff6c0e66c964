//! Why decoding stops after some messages.

ghost use Rattle.std.specs.Prelude.{List, IfOk, drop, length};
ghost use Rattle.message.specs.Range.{selected};
ghost use Rattle.rvclass.specs.Fetch.{words_of};
ghost use Rattle.message.specs.Accepted.{AreAccepted, newcomers};
ghost use Rattle.message.specs.declared.message.Message.{Message as AnyMessage};
ghost use Rattle.parallel_decode.specs.steps.Starts.{AreStarts};
ghost use Rattle.parallel_decode.specs.steps.Walked.{AreWalked, IsAhead, IsRefusal};

use crate::hart::{Work, receive_hart};
use crate::walking::Walk;
use captures::CaptureFault;
use message::{DemuxFault, HartRange, Message, Messages};
use std::alloc::AllocError;

/// What comes after messages that were received.
#[derive(Clone, Copy)]
pub(crate) enum Ahead {
    /// Nothing: the bytes end there.
    End,
    /// No complete message, or one that is refused.
    Fault(CaptureFault),
    /// A message that is not refused.
    Received,
}

/// What comes after the messages that were walked, all of which are received.
pub(crate) fn next_ahead(
    work: &Work<'_>,
    harts: u16,
    range: HartRange,
    walk: &Walk,
) -> Result<Ahead, AllocError>
    ensures { (messages : List AnyMessage)
        → AreWalked range harts work.now.bytes.now messages walk.now.places.items walk.now.place walk.now.passed
        → AreAccepted (newcomers harts) (selected range messages)
        → IfOk result (IsAhead range (words_of work.now.program.now) harts work.now.announced messages
        (drop walk.now.place work.now.bytes.now)) }
{
    if work.bytes.len() < walk.place {
        return Ok(Ahead::Received);
    }
    let mut messages = Messages::new(&work.bytes[walk.place..]);
    match messages.next() {
        Ok(Some(message)) => refusal_of(work, range, walk.places.as_slice(), message),
        Ok(None) => Ok(Ahead::End),
        Err(fault) => Ok(Ahead::Fault(CaptureFault::Message(fault))),
    }
}

/// Whether a message is refused after messages of the harts in a range, which begin at these places.
fn refusal_of(
    work: &Work<'_>,
    range: HartRange,
    places: &[Vec<usize>],
    message: Message,
) -> Result<Ahead, AllocError>
    ensures { (messages : List AnyMessage) → AreStarts work.now.bytes.now places.now messages
        → AreAccepted (newcomers (length places.now)) messages
        → IfOk result (IsRefusal range (words_of work.now.program.now) (length places.now) work.now.announced messages
        message) }
{
    if !range.selects(message.hart) {
        return Ok(Ahead::Received);
    }
    let Some(own) = places.get(usize::from(message.hart)) else {
        return Ok(Ahead::Fault(CaptureFault::Demux(DemuxFault::Stranger)));
    };
    let mut end = receive_hart(work, usize::from(message.hart), own.as_slice(), &[])?;
    if end.refused.is_some() {
        return Ok(Ahead::Received);
    }
    match end
        .own
        .receive(work.alloc, work.program, work.announced, &message)
    {
        Ok(_) => Ok(Ahead::Received),
        Err(fault) => Ok(Ahead::Fault(CaptureFault::from(fault))),
    }
}
