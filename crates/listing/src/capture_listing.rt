//! Listing a whole capture.

ghost use Rattle.std.specs.Prelude.{ℕ, ◌≡◌, ◌+◌, ◌<◌, ◌^◌, [], false, Err, IfErr, IfOk, None, OnErr, Some, length};
ghost use Rattle.std.specs.Prelude.{replicate};
ghost use Rattle.std.specs.Io.KnownBytes.{Appends};
ghost use Rattle.output.specs.Begun.{AppendsBeginning};
ghost use Rattle.rvclass.specs.Fetch.{words_of};
ghost use Rattle.receiver.specs.Holds.{HasReceived};
ghost use Rattle.listing.specs.Begun.{BeginsPart, IsPartOfListing};
ghost use Rattle.listing.specs.Entries.{start_text};
ghost use Rattle.listing.specs.Listing.{AppendsListing, IsListing, names_in};
ghost use Rattle.listing.specs.steps.Part.{AreListedFrom, IsPartOfMessages};
ghost use Rattle.listing.specs.steps.Started.{IsListedBehind, IsPartBehind, harts_by, start_of};

use crate::entries::{At, write_incomplete, write_start};
use crate::input::ListInput;
use crate::message_listing::list_message;
use crate::outcome::Listed;
use captures::CaptureFault;
use message::{HEADER_SIZE, Header, MessageFault, Messages, ProgressSink};
use payload::Mode;
use receiver::Receiver;
use retire::WriteFault;
use std::alloc::Allocator;
use std::io::Write;

/// Writes what each message of some harts of a capture says and settles, in lines or as a table.
///
/// In lines the first one, of a capture of version 2, is that of its header, as
/// [`dump_capture`](captures::dump_capture) writes it. Then comes a line for each message, in the capture's order: the
/// offset of its first byte in the capture, in 8 hexadecimal digits at least; the line that `dump_capture` writes for
/// it; ` => `; and its effect. A table has the names of the columns, and a row for each message that has a line, with
/// the same effect; `docs/FORMATS.md` has the columns.
///
/// The effect is `nothing`, or `1 event, A`, or `N events, A to Z`: the events that the message adds to its hart's
/// list, with the places of the first and of the last. The events of a waiting packet that it settles are among them. A
/// place is an address or a trap's exception program counter, in hexadecimal, and its name by the symbols, where
/// symbols are handed in. Where the message's packet waits for the next one of its hart, `, waits` follows. Where it
/// closes its hart, `, closed` follows.
///
/// The harts are those below the count in the header of a capture of version 2, and else those below
/// [`harts`](ListInput::harts). The listing ends where [`decode_harts`](captures::decode_harts) stops. A message that
/// is refused there has its line or row too, without an effect. Where there is no complete message, there is a line or
/// row of the offset. Where an allocation failed for the events of a packet, its message has none. Where the header is
/// cut short or bad, there is no line, and of a table there are the names of the columns alone.
///
/// Messages of harts that are not among [`only`](ListInput::only) are passed over unjudged: they are not received, have
/// no line, and cause no fault, whatever they are, also those of harts that the capture does not have. Offsets and
/// places count them all the same, also that in [`Listed::fault`], `watch` is told of them, and the line of a header is
/// as it is. In [`Listed::closed`] such a hart is not closed.
///
/// `watch` is told of each message that is received and has its line, or is passed over.
///
/// [`WriteFault::Memory`] comes where an allocation failed before anything was written, and [`WriteFault::Write`] where
/// the writer failed: what was written then is a prefix of the text. The writer is not flushed. Memory is taken for the
/// events of all harts.
pub fn list_capture<A: Allocator + Copy, S: Allocator, W: Write, V: ProgressSink>(
    alloc: A,
    input: &ListInput<'_, S>,
    sink: &mut W,
    watch: &V,
) -> Result<Listed<A>, WriteFault>
    ensures listed { IfOk result (λ listed. AppendsListing
        (IsListing (words_of input.now.program.now) input.now.form input.now.only input.now.harts (names_in input.now)
        input.now.capture.now) listed.closed.items listed.fault (W.contents sink.old) (W.contents sink.new)) }
    ensures begun { OnErr result (BeginsPart
        (IsPartOfListing (words_of input.now.program.now) input.now.form input.now.only input.now.harts
        (names_in input.now) input.now.capture.now) (W.contents sink.old) (W.contents sink.new)) }
    ensures memory { result ≡ Err WriteFault.Memory → sink.new ≡ sink.old }
{
    let mut messages = Messages::new(input.capture);
    match messages.header() {
        Ok(header) => list_behind(alloc, input, header, messages, sink, watch),
        Err(fault) => list_nothing(alloc, input, fault, sink),
    }
}

/// Writes what comes before messages alone, where there is no header for this fault.
fn list_nothing<A: Allocator, S: Allocator, W: Write>(
    alloc: A,
    input: &ListInput<'_, S>,
    fault: MessageFault,
    sink: &mut W,
) -> Result<Listed<A>, WriteFault>
    ensures found { IfOk result (λ listed. (listed.closed.items ≡ replicate input.now.harts false)
        × (listed.fault ≡ Some (0, CaptureFault.Message fault))
        × Appends (W.contents sink.old) (W.contents sink.new) (start_text input.now.form None)) }
    ensures begun { AppendsBeginning (start_text input.now.form None) (W.contents sink.old) (W.contents sink.new) }
    ensures memory { result ≡ Err WriteFault.Memory → sink.new ≡ sink.old }
{
    let closed = vec![in alloc; false; usize::from(input.harts)]?;
    write_start(input.form, None, sink)?;
    Ok(Listed {
        closed,
        fault: Some((0, CaptureFault::Message(fault))),
    })
}

/// Lists the messages after a header, or those of a capture that has none.
fn list_behind<A: Allocator + Copy, S: Allocator, W: Write, V: ProgressSink>(
    alloc: A,
    input: &ListInput<'_, S>,
    header: Option<Header>,
    messages: Messages<'_>,
    sink: &mut W,
    watch: &V,
) -> Result<Listed<A>, WriteFault>
    requires { (start_of header).first + length messages < 2 ^ 64 }
    ensures listed { IfOk result (λ listed. AppendsListing
        (IsListedBehind input.now input.now.harts header messages.entry) listed.closed.items listed.fault
        (W.contents sink.old) (W.contents sink.new)) }
    ensures begun { OnErr result (BeginsPart (IsPartBehind input.now input.now.harts header messages.entry)
        (W.contents sink.old) (W.contents sink.new)) }
    ensures memory { result ≡ Err WriteFault.Memory → sink.new ≡ sink.old }
{
    let mut receiver = Receiver::new(alloc, harts_by(header, input.harts))?;
    let fault = list_started(&mut receiver, input, header, messages, sink, watch)?;
    let (_, closed) = receiver.into_parts();
    Ok(Listed { closed, fault })
}

/// How many harts there are: as many as the header counts, or else as are asked for.
fn harts_by(header: Option<Header>, harts: u16) -> u16
    ensures { result ≡ harts_by header harts }
{
    match header {
        Some(header) => header.harts,
        None => harts,
    }
}

/// Where messages begin.
#[derive(Clone, Copy)]
pub(crate) struct Start {
    /// The mode that the header announces.
    pub(crate) announced: Option<Mode>,
    /// The offset of the first message.
    pub(crate) first: u64,
}

/// Where the messages after a header begin, or those of a capture that has none.
fn start_of(header: Option<Header>) -> Start
    ensures { result ≡ start_of header }
{
    match header {
        Some(header) => Start {
            announced: Some(header.mode),
            first: HEADER_SIZE as u64,
        },
        None => Start {
            announced: None,
            first: 0,
        },
    }
}

/// Lists the messages after a header with a receiver that received none.
fn list_started<A: Allocator + Copy, S: Allocator, W: Write, V: ProgressSink>(
    receiver: &mut Receiver<A>,
    input: &ListInput<'_, S>,
    header: Option<Header>,
    messages: Messages<'_>,
    sink: &mut W,
    watch: &V,
) -> Result<Option<(u64, CaptureFault)>, WriteFault>
    requires room { (start_of header).first + length messages < 2 ^ 64 }
    requires none { (harts : ℕ) × HasReceived (λ hart. words_of input.now.program.now) harts [] receiver.old }
    ensures listed { (harts : ℕ)
        → HasReceived (λ hart. words_of input.now.program.now) (harts_by header harts) [] receiver.old
        → IfOk result (λ stop. AppendsListing (IsListedBehind input.now harts header messages.entry)
        receiver.new.closed stop (W.contents sink.old) (W.contents sink.new)) }
    ensures begun { (harts : ℕ)
        → HasReceived (λ hart. words_of input.now.program.now) (harts_by header harts) [] receiver.old
        → OnErr result (BeginsPart (IsPartBehind input.now harts header messages.entry)
        (W.contents sink.old) (W.contents sink.new)) }
    ensures fault { IfErr result (λ fault. fault ≡ WriteFault.Write) }
{
    write_start(input.form, header, sink)?;
    list_messages(receiver, input, start_of(header), messages, sink, watch)
}

/// Lists messages that begin there with a receiver that received none. Returns where that stops before their end, and
/// why.
fn list_messages<A: Allocator + Copy, S: Allocator, W: Write, V: ProgressSink>(
    receiver: &mut Receiver<A>,
    input: &ListInput<'_, S>,
    start: Start,
    mut messages: Messages<'_>,
    sink: &mut W,
    watch: &V,
) -> Result<Option<(u64, CaptureFault)>, WriteFault>
    requires room { start.first + length messages < 2 ^ 64 }
    requires none { (harts : ℕ) × HasReceived (λ hart. words_of input.now.program.now) harts [] receiver.old }
    ensures listed { (harts : ℕ) → HasReceived (λ hart. words_of input.now.program.now) harts [] receiver.old
        → IfOk result (λ stop. AppendsListing (AreListedFrom input.now harts start messages.entry)
        receiver.new.closed stop (W.contents sink.old) (W.contents sink.new)) }
    ensures begun { (harts : ℕ) → HasReceived (λ hart. words_of input.now.program.now) harts [] receiver.old
        → OnErr result (BeginsPart (IsPartOfMessages input.now harts start messages.entry)
        (W.contents sink.old) (W.contents sink.new)) }
    ensures fault { IfErr result (λ fault. fault ≡ WriteFault.Write) }
{
    let mut number = 0;
    let mut offset = start.first;
    loop {
        let message = match messages.next() {
            Ok(Some(message)) => message,
            Ok(None) => return Ok(None),
            Err(fault) => {
                write_incomplete(input.form, At { number, offset }, sink)?;
                return Ok(Some((number, CaptureFault::Message(fault))));
            }
        };
        let at = At { number, offset };
        match list_message(receiver, input, start.announced, at, &message, sink)? {
            None => {
                number += 1;
                offset += message.size() as u64;
                watch.note(1);
            }
            Some(fault) => return Ok(Some((number, CaptureFault::from(fault)))),
        }
    }
}
