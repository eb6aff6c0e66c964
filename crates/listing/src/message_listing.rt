//! Listing one message.

ghost use Rattle.std.specs.Prelude.{ℕ, ◌≡◌, List, [], IfErr, IfOk, OnErr, Option, slice_get};
ghost use Rattle.std.specs.Io.KnownBytes.{Appends};
ghost use Rattle.std.specs.Option.{unwrap_or};
ghost use Rattle.output.specs.Begun.{AppendsBeginning};
ghost use Rattle.rvclass.specs.Fetch.{words_of};
ghost use Rattle.message.specs.declared.message.Message.{Message as AnyMessage};
ghost use Rattle.receiver.specs.Holds.{HasReceived};
ghost use Rattle.receiver.specs.declared.fault.ReceiveFault.{ReceiveFault as AnyReceiveFault};
ghost use Rattle.listing.specs.Listing.{naming_mode};
ghost use Rattle.listing.specs.steps.Message.{IsJudgedOf, ReceivedSome};

use crate::entries::{Added, At, write_effect, write_fault};
use crate::input::ListInput;
use message::Message;
use payload::Mode;
use receiver::{ReceiveFault, Receiver};
use retire::{Event, WriteFault};
use std::alloc::Allocator;
use std::io::Write;

/// The mode that names address fields.
fn naming_mode(announced: Option<Mode>) -> Mode
    ensures { result ≡ naming_mode announced }
{
    announced.unwrap_or(Mode::Differential)
}

/// The events of a hart so far. A hart that is not known has none.
fn events_of<A: Allocator + Copy>(receiver: &Receiver<A>, hart: u16) -> &[Event]
    ensures { result.now ≡ unwrap_or (slice_get receiver.now.lists hart) [] }
{
    match receiver.lists().get(usize::from(hart)) {
        Some(list) => list.as_slice(),
        None => &[],
    }
}

/// Receives a message and writes its line or row, if it is of one of the harts that are listed. Any other is passed over.
/// Returns why it was not received, if it is of one of them and was not.
pub(crate) fn list_message<A: Allocator + Copy, S: Allocator, W: Write>(
    receiver: &mut Receiver<A>,
    input: &ListInput<'_, S>,
    announced: Option<Mode>,
    at: At,
    message: &Message,
    sink: &mut W,
) -> Result<Option<ReceiveFault>, WriteFault>
    requires { ReceivedSome (words_of input.now.program.now) receiver.old }
    ensures listed { (harts : ℕ) (messages : List AnyMessage)
        → HasReceived (λ hart. words_of input.now.program.now) harts messages receiver.old
        → IfOk result (λ fault. (entry : List ℕ)
        × IsJudgedOf input.now harts announced at messages message.now receiver.new fault entry
        × Appends (W.contents sink.old) (W.contents sink.new) entry) }
    ensures begun { (harts : ℕ) (messages : List AnyMessage)
        → HasReceived (λ hart. words_of input.now.program.now) harts messages receiver.old
        → OnErr result ((fault : Option AnyReceiveFault) × (entry : List ℕ)
        × IsJudgedOf input.now harts announced at messages message.now receiver.new fault entry
        × AppendsBeginning entry (W.contents sink.old) (W.contents sink.new)) }
    ensures fault { IfErr result (λ fault. fault ≡ WriteFault.Write) }
{
    if !input.only.selects(message.hart) {
        return Ok(None);
    }
    // From this call the proof learns that the program is sound.
    let _ = input.program.base();
    let mode = naming_mode(announced);
    let before = events_of(receiver, message.hart).len();
    match receiver.receive(input.program, announced, message) {
        Ok(()) => {
            let events = events_of(receiver, message.hart);
            let added = &events[before..];
            let added_events = Added {
                events: added,
                rows: events.len(),
            };
            write_effect(input, mode, at, message, added_events, sink)?;
            Ok(None)
        }
        Err(why) => {
            write_fault(input.form, mode, at, message, why, sink)?;
            Ok(Some(why))
        }
    }
}
