//! RECEIVED, read by the payloads that were sent.

ghost use Rattle.std.specs.Prelude.{◌≡◌, ◌<◌, ◌^◌, ◌==◌, ◌&&◌, [], drop, IfOk, IfSome, List, OnOk, is_none, length};
ghost use Rattle.message.specs.declared.message.Message.{Message as AnyMessage};
ghost use Rattle.frames.specs.Passages.{Sees, spans_left};
ghost use Rattle.frames.specs.Start.{first_place};
ghost use Rattle.auditing.specs.PayloadSights.{sight_kept};
ghost use Rattle.path_commands.specs.steps.Matching.{IsFresh, IsKept, KeepsSpans, ReadsCame, TakesSpan};

use crate::by_hart::{ByHart, read_by_hart, take_message};
use crate::keeping::KeptSent;
use crate::received::Progress;
use crate::recognising::known_payloads;
use auditing::{KnownPayloads, SentPayloads};
use frames::{GuidedScan, Span, first_place, is_framed, start_of};
use message::{HartRange, Header, MessageFault};
use payload::By;
use std::alloc::{AllocError, Global};

/// A run of bytes of RECEIVED that are of no message.
#[derive(Clone, Copy)]
pub(crate) struct ByteRun {
    /// How many messages are taken before it.
    pub(crate) place: u64,
    /// The offset of its first byte.
    pub(crate) offset: u64,
    /// How many bytes it has.
    pub(crate) count: u64,
}

/// RECEIVED, as it was read.
#[derive(Drop)]
pub(crate) struct Received {
    /// Its header, if it has a valid one.
    pub(crate) header: Option<Header>,
    /// Why it has none, where it begins as a capture of version 2 does.
    pub(crate) fault: Option<MessageFault>,
    /// Its messages by hart.
    pub(crate) lists: ByHart,
    /// The runs of bytes between them.
    pub(crate) runs: Vec<ByteRun>,
    /// How many messages, bytes of no message and runs of these it has.
    pub(crate) read: Progress,
}

/// Whether RECEIVED is read without damage: why it has no header, where it begins as a capture of version 2 does, and how
/// far it was read.
pub(crate) fn is_undamaged(fault: Option<MessageFault>, read: Progress) -> bool
    ensures { result ≡ (is_none fault && (read.bytes == 0)) }
{
    fault.is_none() && read.bytes == 0
}

/// Reads RECEIVED, which has these bytes, by the payloads of SENT. The payloads of these harts are kept, as they are
/// compared by these.
///
/// Where RECEIVED is messages to its end, they are read by their lengths, and nothing is looked up.
pub(crate) fn read_received(
    alloc: Global,
    harts: HartRange,
    sent: &KeptSent,
    by: By,
    bytes: &[u8],
) -> Result<Received, AllocError>
    ensures came { (messages : List AnyMessage) → IsKept by harts messages sent.now
        → IfOk result (ReadsCame by messages harts (length sent.now.payloads.lists) bytes.now) }
    ensures count { IfOk result (λ came. length came.lists.payloads.lists ≡ length sent.now.payloads.lists) }
{
    let count = sent.payloads.harts();
    let whole = read_whole(alloc, harts, count, by, bytes)?;
    if let Some(came) = whole {
        return Ok(came);
    }
    let start = start_of(bytes);
    let framed = is_framed(body_of(bytes, start.header));
    let own = body_of(sent.bytes.as_slice(), sent.header);
    let known = known_payloads(alloc, own, by, framed)?;
    let fresh = Received {
        header: start.header,
        fault: start.fault,
        lists: ByHart {
            harts: Vec::new(alloc),
            payloads: SentPayloads::with_space(alloc, count, by, &[])?,
        },
        runs: Vec::new(alloc),
        read: Progress::START,
    };
    let spans = GuidedScan::new(bytes, first_place(start.header));
    read_spans(fresh, &known, harts, spans)
}

/// RECEIVED, where its header is valid, if it begins as a capture of version 2 does, and messages follow to its end;
/// `None` where it is not so. These messages are read by their lengths.
fn read_whole(
    alloc: Global,
    harts: HartRange,
    count: usize,
    by: By,
    bytes: &[u8],
) -> Result<Option<Received>, AllocError>
    ensures { IfOk result (λ found. IfSome found (λ own. (sent : List AnyMessage)
        → ReadsCame by sent harts count bytes.now own)) }
{
    let front = read_by_hart(alloc, harts, count, by, bytes)?;
    if front.stop.is_some() {
        return Ok(None);
    }
    let messages = front.lists.harts.len() as u64;
    Ok(Some(Received {
        header: front.header,
        fault: None,
        lists: front.lists,
        runs: Vec::new(alloc),
        read: Progress {
            messages,
            bytes: 0,
            runs: 0,
        },
    }))
}

/// The bytes of a capture after its header, or all of them where it has no valid one.
fn body_of(bytes: &[u8], header: Option<Header>) -> &[u8]
    ensures { result.now ≡ drop (first_place header) bytes.now }
{
    &bytes[first_place(header).min(bytes.len())..]
}

/// Takes the messages of RECEIVED that are left and the runs of bytes between them, by what is known of SENT. None was
/// taken before.
fn read_spans(
    fresh: Received,
    known: &KnownPayloads,
    harts: HartRange,
    spans: GuidedScan<'_>,
) -> Result<Received, AllocError>
    requires fresh { IsFresh harts fresh }
    ensures header { IfOk result (λ own. own.header ≡ fresh.header) }
    ensures fault { IfOk result (λ own. own.fault ≡ fresh.fault) }
    ensures kept { (sees : Sees) → ((message : AnyMessage) → sight_kept known.now message ≡ sees message)
        → length spans.entry.bytes < 2 ^ 64 → IfOk result (λ own. KeepsSpans harts (spans_left sees spans.entry) own
        × (length own.lists.payloads.lists ≡ length fresh.lists.payloads.lists)) }
    ensures by { IfOk result (λ own. own.lists.payloads.by ≡ fresh.lists.payloads.by) }
{
    let mut own = fresh;
    let mut left = spans;
    while let Some(span) = left.next(known) {
        take_span(&mut own, harts, &span)?;
    }
    Ok(own)
}

/// Keeps the message of a span, if it is of one of these harts, or its run of bytes.
fn take_span(own: &mut Received, harts: HartRange, span: &Span) -> Result<(), AllocError>
    ensures { OnOk result (TakesSpan harts span.now own.old own.new) }
{
    match span {
        Span::Frame { message, .. } => {
            own.read = own.read.with_message();
            take_message(&mut own.lists, harts, message)
        }
        Span::Bytes { offset, count } => {
            let run = ByteRun {
                place: own.lists.harts.len() as u64,
                offset: *offset as u64,
                count: *count as u64,
            };
            own.read = own.read.with_bytes(run.count);
            own.runs.push(run)?;
            Ok(())
        }
    }
}
