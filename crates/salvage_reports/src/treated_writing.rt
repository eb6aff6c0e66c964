//! Writing what salvaging does with each message of a damaged capture.

ghost use Rattle.std.specs.Prelude.{◌≡◌, ◌+◌, ◌<◌, ◌^◌, IfErr, IfOk, OnOk, drop, length, option_map};
ghost use Rattle.std.specs.Io.KnownBytes.{Appends};
ghost use Rattle.output.specs.Begun.{AppendsBeginning};
ghost use Rattle.frames.specs.Search.{is_chosen};
ghost use Rattle.frames.specs.Start.{spans_of};
ghost use Rattle.salvage_reports.specs.TreatedText.{after_span, front_text, place_after, span_text, spans_text};
ghost use Rattle.salvage_reports.specs.TreatedText.{treated_text_of};

use crate::hart_rows::TreatedInRows;
use crate::treated_messages::{TreatedColumns, TreatedMessage, write_message, write_run};
use frames::{Span, Spans, mode_of, spans_of, write_start};
use listing::Form;
use message::{HartRange, Header};
use output::write_text;
use payload::Mode;
use retire::WriteFault;
use std::alloc::Allocator;
use std::io::Write;
use symbols::Symbols;

/// What is done with the messages of some harts of a capture that may be damaged.
#[derive(Clone, Copy)]
pub struct TreatedCapture<'a> {
    /// Its header, where it has a valid one.
    pub header: Option<Header>,
    /// These harts.
    pub only: HartRange,
    /// Its bytes.
    pub bytes: &'a [u8],
    /// What is done with each message of these harts, and which rows it settles, in their order, as
    /// [`in_rows`](crate::in_rows) returns it.
    pub treated: &'a [TreatedInRows],
}

/// How the spans of a capture are written, and what is done with their messages.
#[derive(Clone, Copy)]
struct Treatments<'a> {
    form: Form,
    mode: Mode,
    treated: &'a [TreatedInRows],
}

/// Writes what is done with each message of some harts of a capture that may be damaged: in order a line or a row for
/// each frame of these harts among its bytes, and for each run of bytes that belong to no frame. Frames of other harts are
/// passed over, but the place of a message counts them. The frames are those that [`spans_of`] finds after the header, or
/// from the first byte on where there is none. A frame for which no treatment is left has no line and no row.
///
/// Before the lines comes that of the header, as [`search_capture`](frames::search_capture) writes it, if there is one. The
/// line of a frame is the offset of its message's first byte, in 8 hexadecimal digits at least; the hart, the number and
/// the packet, as [`list_capture`](listing::list_capture) writes them; ` => `; and a word for what is done with the
/// message: `stranger`, `copy`, `doubtful`, `bad: ` and why, `alone`, `passed`, or the effect of a message that is taken, as
/// `list_capture` writes it, with its rows, where the form says so. After the word of a message that is far comes
/// `, far`, and after that of one that is late `, late`. The line of a run of bytes is its offset and `bytes: N`.
///
/// Before the rows come the names of the columns, which are those of
/// [`write_listing_table`](listing::write_listing_table), with `far` before `late`; `docs/FORMATS.md` has them. The row of a
/// frame has its message's packet, a word for what is done with the message, and why it is bad, where it is; whether it is
/// far, and whether it is late; and what a message adds that is taken, as in the table of a listing. The row of a run of bytes has its offset and how many bytes there are.
///
/// Places are named by the symbols, where symbols are handed in. The only fault is [`WriteFault::Write`], where the writer
/// failed: what was written then is a prefix of the text. The writer is not flushed. No memory is taken.
pub fn write_treated<S: Allocator, W: Write>(
    form: Form,
    symbols: Option<&Symbols<S>>,
    capture: TreatedCapture<'_>,
    sink: &mut W,
) -> Result<(), WriteFault>
    ensures text { OnOk result (Appends (W.contents sink.old) (W.contents sink.new)
        (treated_text_of form capture.entry.only (option_map (λ file. file.now) symbols.entry) capture.entry.header
        capture.entry.bytes.now capture.entry.treated.now)) }
    ensures begun { AppendsBeginning
        (treated_text_of form capture.entry.only (option_map (λ file. file.now) symbols.entry) capture.entry.header
        capture.entry.bytes.now capture.entry.treated.now) (W.contents sink.old) (W.contents sink.new) }
    ensures fault { IfErr result (λ fault. fault ≡ WriteFault.Write) }
{
    let treatments = Treatments {
        form,
        mode: mode_of(capture.header),
        treated: capture.treated,
    };
    let spans = counted_spans(capture.bytes, capture.header);
    write_front(form, capture.header, sink)?;
    write_spans(treatments, symbols, capture.only, spans, sink)
}

/// The frames of a capture and the runs of bytes between them, of which there are no more than bytes.
fn counted_spans(bytes: &[u8], header: Option<Header>) -> Spans<'_>
    ensures value { result ≡ spans_of header bytes.now }
    ensures few { length result < 2 ^ 63 }
{
    spans_of(bytes, header)
}

/// Writes the line of the header, if there is one, or the names of the columns.
fn write_front<W: Write>(form: Form, header: Option<Header>, sink: &mut W) -> Result<(), WriteFault>
    ensures text { OnOk result (Appends (W.contents sink.old) (W.contents sink.new) (front_text form header)) }
    ensures begun { AppendsBeginning (front_text form header) (W.contents sink.old) (W.contents sink.new) }
    ensures fault { IfErr result (λ fault. fault ≡ WriteFault.Write) }
{
    match form {
        Form::Lines { .. } => write_start(header, sink)?,
        Form::Table => write_text(sink, TreatedColumns)?,
    }
    Ok(())
}

/// Writes the lines or the rows of the spans of these harts.
fn write_spans<S: Allocator, W: Write>(
    treatments: Treatments<'_>,
    symbols: Option<&Symbols<S>>,
    only: HartRange,
    spans: Spans<'_>,
    sink: &mut W,
) -> Result<(), WriteFault>
    requires { length spans < 2 ^ 63 }
    ensures text { OnOk result (Appends (W.contents sink.old) (W.contents sink.new)
        (spans_text treatments.entry.form (is_chosen only) (option_map (λ file. file.now) symbols.entry) treatments.entry.mode 0
        spans.entry treatments.entry.treated.now)) }
    ensures begun { AppendsBeginning
        (spans_text treatments.entry.form (is_chosen only) (option_map (λ file. file.now) symbols.entry) treatments.entry.mode 0
        spans.entry treatments.entry.treated.now) (W.contents sink.old) (W.contents sink.new) }
    ensures fault { IfErr result (λ fault. fault ≡ WriteFault.Write) }
{
    let mut place = 0;
    let mut passed = 0;
    for span in spans {
        if is_chosen(only, &span) {
            place = write_span(treatments, symbols, passed, &span, place, sink)?;
        } else {
            passed += 1;
        }
    }
    Ok(())
}

/// Whether a span is of bytes, or of one of these harts.
fn is_chosen(only: HartRange, span: &Span) -> bool
    ensures { result ≡ is_chosen only span.now }
{
    match span {
        Span::Frame { message, .. } => only.selects(message.hart),
        Span::Bytes { .. } => true,
    }
}

/// Writes the line or the row of a span, where the treatment of its message is the one at this place, if it is a frame. So
/// many messages were passed over before it. Returns the place of the treatment after it.
fn write_span<S: Allocator, W: Write>(
    treatments: Treatments<'_>,
    symbols: Option<&Symbols<S>>,
    passed: u64,
    span: &Span,
    place: usize,
    sink: &mut W,
) -> Result<usize, WriteFault>
    requires { passed < 2 ^ 63 }
    ensures text { OnOk result (Appends (W.contents sink.old) (W.contents sink.new)
        (span_text treatments.entry.form (option_map (λ file. file.now) symbols.entry) treatments.entry.mode (place + passed)
        span.now (drop place treatments.entry.treated.now))) }
    ensures begun { AppendsBeginning
        (span_text treatments.entry.form (option_map (λ file. file.now) symbols.entry) treatments.entry.mode (place + passed)
        span.now (drop place treatments.entry.treated.now)) (W.contents sink.old) (W.contents sink.new) }
    ensures place { IfOk result (λ next. next ≡ place_after place span.now (drop place treatments.entry.treated.now)) }
    ensures left { IfOk result
        (λ next. drop next treatments.entry.treated.now ≡ after_span span.now (drop place treatments.entry.treated.now)) }
    ensures fault { IfErr result (λ fault. fault ≡ WriteFault.Write) }
{
    match span {
        Span::Frame { offset, message } => {
            let Some(treated) = treatments.treated.get(place) else {
                return Ok(place);
            };
            let one = TreatedMessage {
                mode: treatments.mode,
                at: place as u64 + passed,
                offset: *offset as u64,
                message,
                treated,
            };
            write_message(treatments.form, symbols, one, sink)?;
            Ok(place + 1)
        }
        Span::Bytes { offset, count } => {
            write_run(treatments.form, *offset as u64, *count as u64, sink)?;
            Ok(place)
        }
    }
}
