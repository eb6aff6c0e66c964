//! From the bytes of a capture to the events of its harts.

ghost use Rattle.std.specs.Prelude.{ℕ, ◌≡◌, ◌++◌, ◌∷◌, All, List, [], true, false, IfErr, IfOk, OnErr, OnOk, Some};
ghost use Rattle.std.specs.Prelude.{replicate};
ghost use Rattle.message.specs.Range.{selected, selects};
ghost use Rattle.rvclass.specs.Fetch.{words_of};
ghost use Rattle.legalpath.specs.ProgramLog.{ProgramLog};
ghost use Rattle.payload.specs.declared.mode.Mode.{Mode as AnyMode};
ghost use Rattle.message.specs.declared.header.Version.{Version};
ghost use Rattle.message.specs.declared.message.Message.{Message as AnyMessage};
ghost use Rattle.receiver.specs.Agreeing.{Agrees};
ghost use Rattle.receiver.specs.Holds.{HasReceived, Holds};
ghost use Rattle.receiver.specs.NotReceived.{IsNotReceived};
ghost use Rattle.receiver.specs.Received.{events_in};
ghost use Rattle.captures.specs.Decoded.{AreHartsDecoded, IsDecoded, IsDecodedOf};
ghost use Rattle.captures.specs.Returned.{AreAskedFor, AreReturned, IsCaptureOf};
ghost use Rattle.captures.specs.steps.Collecting.{HasReceivedUpTo};

use crate::outcome::{CaptureFault, CaptureOutcome};
use message::{HartRange, Message, Messages, NoProgress, ProgressSink};
use payload::Mode;
use receiver::{ReceiveFault, Receiver};
use rvclass::ProgramOver;
use std::alloc::{AllocError, Allocator};

/// Reads the messages of a capture, splits them by hart, and decodes each hart's, up to the first fault.
///
/// The harts are those below the count in the header of a capture of version 2, and else those below `harts`. In
/// version 2 a packet that opens a trace in another mode than the header's is a fault. An allocation that fails for the
/// events of a packet is a fault too. After a fault the outcome holds what was decoded before, of every hart; where the
/// header is cut short or bad, that is nothing. An error comes only where memory for the outcome itself was refused.
pub fn decode_capture<A: Allocator + Copy>(
    alloc: A,
    program: &ProgramOver,
    harts: u16,
    bytes: &[u8],
) -> Result<CaptureOutcome<A>, AllocError>
    ensures decoded { IfOk result (λ outcome.
        IsDecoded (words_of program.now) harts bytes.now (events_in outcome.harts.items) outcome.closed.items
        outcome.fault) }

    // The capture of all messages of legal logs, in either version and mode, gives the logs back, unless an allocation
    // failed.
    ensures whole { (version : Version) (period : ℕ) (mode : AnyMode) (logs : List ProgramLog)
        → IsCaptureOf program.now version period mode logs bytes.now
        → AreAskedFor version harts logs
        → IfOk result (λ outcome. AreReturned logs (events_in outcome.harts.items) outcome.closed.items outcome.fault) }
{
    decode_watched(alloc, program, harts, bytes, &NoProgress)
}

/// Decodes a capture as [`decode_capture`] does, and tells `watch` of each message that is received.
pub fn decode_watched<A: Allocator + Copy, V: ProgressSink>(
    alloc: A,
    program: &ProgramOver,
    harts: u16,
    bytes: &[u8],
    watch: &V,
) -> Result<CaptureOutcome<A>, AllocError>
    ensures decoded { IfOk result (λ outcome.
        IsDecoded (words_of program.now) harts bytes.now (events_in outcome.harts.items) outcome.closed.items
        outcome.fault) }

    // The capture of all messages of legal logs, in either version and mode, gives the logs back, unless an allocation
    // failed.
    ensures whole { (version : Version) (period : ℕ) (mode : AnyMode) (logs : List ProgramLog)
        → IsCaptureOf program.now version period mode logs bytes.now
        → AreAskedFor version harts logs
        → IfOk result (λ outcome. AreReturned logs (events_in outcome.harts.items) outcome.closed.items outcome.fault) }
{
    decode_harts(alloc, program, harts, HartRange::ALL, bytes, watch)
}

/// Decodes what a capture has of some harts, as [`decode_watched`] decodes a capture. Messages of all other harts are
/// passed over, whatever they are: they may be of a hart that is not known, not the next of their hart, or no packet.
/// `harts` counts all harts of a capture with no header. Each has a list and a flag; of a hart that is passed over no
/// event is decoded, and it is not closed. The place in [`CaptureOutcome::fault`] counts the messages of all harts, and
/// `watch` is told of them all.
pub fn decode_harts<A: Allocator + Copy, V: ProgressSink>(
    alloc: A,
    program: &ProgramOver,
    harts: u16,
    range: HartRange,
    bytes: &[u8],
    watch: &V,
) -> Result<CaptureOutcome<A>, AllocError>
    ensures { IfOk result (λ outcome.
        IsDecodedOf range (words_of program.now) harts bytes.now (events_in outcome.harts.items) outcome.closed.items
        outcome.fault) }
{
    let mut messages = Messages::new(bytes);
    match messages.header() {
        Ok(Some(header)) => {
            decode_messages(
                alloc,
                program,
                header.harts,
                range,
                Some(header.mode),
                messages,
                watch,
            )
        }
        Ok(None) => decode_messages(alloc, program, harts, range, None, messages, watch),
        Err(fault) => decode_nothing(alloc, harts, CaptureFault::Message(fault)),
    }
}

/// What the messages of some of so many harts decode to, where the header announces this mode, if there is a header.
fn decode_messages<A: Allocator + Copy, V: ProgressSink>(
    alloc: A,
    program: &ProgramOver,
    harts: u16,
    range: HartRange,
    announced: Option<Mode>,
    messages: Messages<'_>,
    watch: &V,
) -> Result<CaptureOutcome<A>, AllocError>
    ensures { IfOk result (λ outcome.
        AreHartsDecoded range (words_of program.now) harts announced messages.entry (events_in outcome.harts.items)
        outcome.closed.items outcome.fault) }
{
    let mut receiver = Receiver::new(alloc, harts)?;
    let fault = collect(&mut receiver, program, range, announced, messages, watch);
    let (harts, closed) = receiver.into_parts();
    Ok(CaptureOutcome {
        harts,
        closed,
        fault,
    })
}

/// The outcome where nothing of so many harts is decoded, for this fault.
fn decode_nothing<A: Allocator + Copy>(
    alloc: A,
    harts: u16,
    fault: CaptureFault,
) -> Result<CaptureOutcome<A>, AllocError>
    ensures { IfOk result (λ outcome.
        (events_in outcome.harts.items ≡ replicate harts []) × (outcome.closed.items ≡ replicate harts false)
        × (outcome.fault ≡ Some (0, fault))) }
{
    let receiver = Receiver::new(alloc, harts)?;
    let (harts, closed) = receiver.into_parts();
    Ok(CaptureOutcome {
        harts,
        closed,
        fault: Some((0, fault)),
    })
}

/// Receives the messages of some harts, where the header announces this mode, if there is a header. Returns where that
/// stops before their end, and why.
fn collect<A: Allocator + Copy, V: ProgressSink>(
    receiver: &mut Receiver<A>,
    program: &ProgramOver,
    range: HartRange,
    announced: Option<Mode>,
    mut messages: Messages<'_>,
    watch: &V,
) -> Option<(u64, CaptureFault)>
    ensures { (harts : ℕ) → HasReceived (λ hart. words_of program.now) harts [] receiver.old
        → HasReceivedUpTo range (words_of program.now) harts announced messages.entry receiver.new result }
{
    let mut number = 0;
    loop {
        let message = match messages.next() {
            Ok(Some(message)) => message,
            Ok(None) => return None,
            Err(fault) => return Some((number, CaptureFault::Message(fault))),
        };
        match receive_selected(receiver, program, range, announced, &message) {
            Ok(()) => {
                number += 1;
                watch.note(1);
            }
            Err(fault) => return Some((number, CaptureFault::from(fault))),
        }
    }
}

/// Receives a message if it is of one of these harts, where the header announces this mode, if there is a header.
fn receive_selected<A: Allocator + Copy>(
    receiver: &mut Receiver<A>,
    program: &ProgramOver,
    range: HartRange,
    announced: Option<Mode>,
    message: &Message,
) -> Result<(), ReceiveFault>
    ensures received { (harts : ℕ) (messages : List AnyMessage)
        → HasReceived (λ hart. words_of program.now) harts messages receiver.old
        → OnOk result (HasReceived (λ hart. words_of program.now) harts
        (messages ++ selected range (message.now ∷ [])) receiver.new) }
    ensures held { (harts : ℕ) (messages : List AnyMessage)
        → HasReceived (λ hart. words_of program.now) harts messages receiver.old
        → OnErr result (Holds (λ hart. words_of program.now) harts messages receiver.new) }
    ensures not_received { (harts : ℕ) (messages : List AnyMessage)
        → HasReceived (λ hart. words_of program.now) harts messages receiver.old
        → IfErr result (λ fault. IsNotReceived (words_of program.now) harts announced messages message.now fault) }
    ensures own { OnErr result (selects range message.now.hart ≡ true) }
    ensures agrees { OnOk result (All (Agrees announced) (selected range (message.now ∷ []))) }
{
    if range.selects(message.hart) {
        receiver.receive(program, announced, message)
    } else {
        Ok(())
    }
}
