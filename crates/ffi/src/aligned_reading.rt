//! RECEIVED, read by the payloads that were sent.

ghost use Rattle.std.specs.Prelude.{◌≡◌, ◌<◌, ◌^◌, ◌++◌, ◌∷◌, [], ℕ, IfOk, List, OnOk, drop, length};
ghost use Rattle.auditing.specs.PayloadSights.{KeepsPayloads, sight_kept};
ghost use Rattle.auditing.specs.Split.{AreSplit};
ghost use Rattle.frames.specs.Counted.{bytes_in, messages_in};
ghost use Rattle.frames.specs.Passages.{Sees, spans_left};
ghost use Rattle.message.specs.declared.message.Message.{Message as AnyMessage};
ghost use Rattle.ffi.specs.steps.Aligning.{HasRead};

use auditing::{KnownPayloads, SentPayloads};
use frames::{CaptureStart, GuidedScan, Span, first_place, is_framed, start_of};
use message::Message;
use payload::By;
use std::alloc::{AllocError, Global};

/// RECEIVED, as it was read.
#[derive(Drop)]
pub(crate) struct CameBy {
    /// How it begins.
    pub(crate) start: CaptureStart,
    /// Its messages that are taken, and the longest runs of bytes between them.
    pub(crate) spans: Vec<Span>,
    /// How many bytes are of no message.
    pub(crate) bytes: u64,
    /// The payloads of the messages, by hart.
    pub(crate) payloads: SentPayloads,
}

/// Reads RECEIVED, which has these bytes, by the payloads of these messages of SENT, which has so many harts.
pub(crate) fn read_received(
    alloc: Global,
    by: By,
    harts: usize,
    sent: &[Message],
    received: &[u8],
) -> Result<CameBy, AllocError>
    ensures { IfOk result (HasRead by harts sent.now received.now) }
{
    let start = start_of(received);
    let from = first_place(start.header);
    let framed = is_framed(bytes_from(received, from));
    let known = known_payloads(alloc, by, framed, sent)?;
    let mut payloads = SentPayloads::with_space(alloc, harts, by, &[])?;
    let mut spans = Vec::new(alloc);
    let scan = GuidedScan::new(received, from);
    let bytes = read_spans(&known, scan, &mut spans, &mut payloads)?;
    Ok(CameBy {
        start,
        spans,
        bytes,
        payloads,
    })
}

/// The bytes from a place on; none from a place after the last byte.
fn bytes_from(bytes: &[u8], from: usize) -> &[u8]
    ensures { result.now ≡ drop from bytes.now }
{
    &bytes[from.min(bytes.len())..]
}

/// The payloads of these messages of SENT, to be looked up. `framed` says whether RECEIVED is messages to its end.
fn known_payloads(
    alloc: Global,
    by: By,
    framed: bool,
    sent: &[Message],
) -> Result<KnownPayloads, AllocError>
    ensures { IfOk result (KeepsPayloads framed by sent.now) }
{
    let mut known = KnownPayloads::new(alloc, by, framed);
    for message in sent {
        known.add(message)?;
    }
    Ok(known)
}

/// Adds the messages that are left and the longest runs of bytes between them, and the payloads of the messages. Returns
/// how many bytes are of no message.
fn read_spans(
    known: &KnownPayloads,
    scan: GuidedScan<'_>,
    spans: &mut Vec<Span>,
    payloads: &mut SentPayloads,
) -> Result<u64, AllocError>
    requires fresh { spans.old.items ≡ [] }
    ensures spans { (sees : Sees) → ((message : AnyMessage) → sight_kept known.now message ≡ sees message)
        → OnOk result (spans.new.items ≡ spans_left sees scan.entry) }
    ensures bytes { length scan.entry.bytes < 2 ^ 64 → IfOk result (λ bytes. bytes ≡ bytes_in spans.new.items) }
    ensures split { (harts : ℕ) → AreSplit payloads.old.by harts [] payloads.old.lists
        → OnOk result (AreSplit payloads.old.by harts (messages_in spans.new.items) payloads.new.lists) }
    ensures by { payloads.new.by ≡ payloads.old.by }
{
    let mut left = scan;
    let mut bytes: u64 = 0;
    while let Some(span) = left.next(known) {
        let more = add_payload(payloads, &span)?;
        spans.push(span)?;
        bytes = bytes.saturating_add(more);
    }
    Ok(bytes)
}

/// Adds the payload of a span, if that is a message. Returns how many bytes of no message it has.
fn add_payload(payloads: &mut SentPayloads, span: &Span) -> Result<u64, AllocError>
    ensures bytes { IfOk result (λ more. more ≡ bytes_in (span.now ∷ [])) }
    ensures split { (harts : ℕ) (messages : List AnyMessage) → AreSplit payloads.old.by harts messages payloads.old.lists
        → OnOk result (AreSplit payloads.old.by harts (messages ++ messages_in (span.now ∷ [])) payloads.new.lists) }
    ensures by { payloads.new.by ≡ payloads.old.by }
{
    match span {
        Span::Frame { message, .. } => {
            payloads.add(message)?;
            Ok(0)
        }
        Span::Bytes { count, .. } => Ok(*count as u64),
    }
}
