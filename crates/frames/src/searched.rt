//! Captures that may be damaged as text.

ghost use Rattle.std.specs.Prelude.{◌≡◌, ◌∷◌, IfErr, IfOk, OnErr, OnOk, [], option_map};
ghost use Rattle.std.specs.Io.KnownBytes.{Appends};
ghost use Rattle.std.specs.List.{list_any};
ghost use Rattle.output.specs.Begun.{AppendsBeginning};
ghost use Rattle.captures.specs.Dump.{AppendsDump, BeginsDump};
ghost use Rattle.frames.specs.Search.{IsSearched, IsSearchedOf, chosen, is_chosen, is_damaged, mode_of, search_text};
ghost use Rattle.frames.specs.Search.{span_line, spans_text, start_line, stop_of};
ghost use Rattle.frames.specs.Start.{spans_of};

use crate::start::{spans_of, start_of};
use crate::{Span, Spans};
use captures::{Dumped, write_bytes_line, write_header_line, write_message_line};
use message::{HartRange, Header, MessageFault, ProgressSink};
use payload::Mode;
use retire::WriteFault;
use std::alloc::Allocator;
use std::io::Write;
use symbols::Symbols;

/// Writes what is found in a capture that may be damaged. With a valid header its line comes first, as
/// [`dump_capture`](captures::dump_capture) writes it. Then comes a line for each frame that is taken and for each
/// longest run of bytes between frames, in the capture's order: of a frame the line of its message, as `dump_capture`
/// writes it, and of bytes `bytes: N at OFFSET`. An address field is named by the header's mode, and without a header
/// `diff`.
///
/// What is returned says whether some bytes are of no frame or the payload of some message is no packet. Its fault is
/// that of a header that is cut short or bad, with the number 0: the frames are looked for from the first byte on then,
/// and the lines go on to the end of the capture all the same.
///
/// The only fault is [`WriteFault::Write`], where the writer failed; what was written then is a prefix of the text. The
/// time is linear in the capture, whatever it holds. No memory is taken, and the writer is not flushed. `watch` is told
/// of each message that is found; [`NoProgress`](message::NoProgress) is for whoever does not want to know.
pub fn search_capture<W: Write, V: ProgressSink>(
    capture: &[u8],
    sink: &mut W,
    watch: &V,
) -> Result<Dumped, WriteFault>
    ensures searched { IfOk result (λ dumped. AppendsDump (IsSearched capture.now) dumped.bad dumped.fault
        (W.contents sink.old) (W.contents sink.new)) }
    ensures begun { OnErr result (BeginsDump (IsSearched capture.now) (W.contents sink.old) (W.contents sink.new)) }
    ensures fault { IfErr result (λ fault. fault ≡ WriteFault.Write) }
{
    search_harts(capture, HartRange::ALL, None::<&Symbols>, sink, watch)
}

/// Writes what is found of these harts in a capture that may be damaged, as [`search_capture`] writes what is found of
/// all: the line of the header as it is, the lines of these harts' frames alone, and those of the bytes between frames.
/// Frames of other harts are passed over, whatever their payloads are; `watch` is told of them all the same. Where
/// symbols are given, addresses are named as [`dump_harts`](captures::dump_harts) names them.
pub fn search_harts<S: Allocator, W: Write, V: ProgressSink>(
    capture: &[u8],
    harts: HartRange,
    symbols: Option<&Symbols<S>>,
    sink: &mut W,
    watch: &V,
) -> Result<Dumped, WriteFault>
    ensures searched { IfOk result (λ dumped. AppendsDump (IsSearchedOf (option_map (λ file. file.now) symbols.entry) harts capture.now)
        dumped.bad dumped.fault (W.contents sink.old) (W.contents sink.new)) }
    ensures begun { OnErr result
        (BeginsDump (IsSearchedOf (option_map (λ file. file.now) symbols.entry) harts capture.now)
        (W.contents sink.old) (W.contents sink.new)) }
    ensures fault { IfErr result (λ fault. fault ≡ WriteFault.Write) }
{
    let start = start_of(capture);
    let bad = write_found(capture, harts, symbols, start.header, sink, watch)?;
    Ok(Dumped {
        bad,
        fault: stop_of(start.fault),
    })
}

/// Where the search stops, for the fault of the header.
fn stop_of(fault: Option<MessageFault>) -> Option<(u64, MessageFault)>
    ensures { result ≡ stop_of fault }
{
    match fault {
        Some(why) => Some((0, why)),
        None => None,
    }
}

/// Writes the line of the header, if there is one, and those of bytes and of these harts' frames after it. Returns
/// whether one of these is damaged.
fn write_found<S: Allocator, W: Write, V: ProgressSink>(
    capture: &[u8],
    harts: HartRange,
    symbols: Option<&Symbols<S>>,
    header: Option<Header>,
    sink: &mut W,
    watch: &V,
) -> Result<bool, WriteFault>
    ensures damaged { IfOk result
        (λ damaged. damaged ≡ list_any is_damaged (chosen harts (spans_of header capture.now))) }
    ensures text { OnOk result
        (Appends (W.contents sink.old) (W.contents sink.new)
        (search_text (option_map (λ file. file.now) symbols.entry) harts header capture.now)) }
    ensures begun { AppendsBeginning (search_text (option_map (λ file. file.now) symbols.entry) harts header capture.now)
        (W.contents sink.old) (W.contents sink.new) }
    ensures fault { IfErr result (λ fault. fault ≡ WriteFault.Write) }
{
    write_start(header, sink)?;
    write_spans(
        mode_of(header),
        harts,
        symbols,
        spans_of(capture, header),
        sink,
        watch,
    )
}

/// Writes the line of the header, if there is one. The only fault is [`WriteFault::Write`], where the writer failed:
/// what was written then is a prefix of the line. No memory is taken.
pub fn write_start<W: Write>(header: Option<Header>, sink: &mut W) -> Result<(), WriteFault>
    ensures text { OnOk result (Appends (W.contents sink.old) (W.contents sink.new) (start_line header)) }
    ensures begun { AppendsBeginning (start_line header) (W.contents sink.old) (W.contents sink.new) }
    ensures fault { IfErr result (λ fault. fault ≡ WriteFault.Write) }
{
    match header {
        Some(header) => write_header_line(sink, &header),
        None => Ok(()),
    }
}

/// The mode that names address fields: the header's, and without a header the differential one. No memory is taken.
pub fn mode_of(header: Option<Header>) -> Mode
    ensures { result ≡ mode_of header }
{
    match header {
        Some(header) => header.mode,
        None => Mode::Differential,
    }
}

/// Writes the lines of bytes and of these harts' frames, and returns whether one of them is damaged.
fn write_spans<S: Allocator, W: Write, V: ProgressSink>(
    mode: Mode,
    harts: HartRange,
    symbols: Option<&Symbols<S>>,
    spans: Spans<'_>,
    sink: &mut W,
    watch: &V,
) -> Result<bool, WriteFault>
    ensures damaged { IfOk result (λ damaged. damaged ≡ list_any is_damaged (chosen harts spans.entry)) }
    ensures text { OnOk result
        (Appends (W.contents sink.old) (W.contents sink.new)
        (spans_text (option_map (λ file. file.now) symbols.entry) mode (chosen harts spans.entry))) }
    ensures begun { AppendsBeginning (spans_text (option_map (λ file. file.now) symbols.entry) mode (chosen harts spans.entry))
        (W.contents sink.old) (W.contents sink.new) }
    ensures fault { IfErr result (λ fault. fault ≡ WriteFault.Write) }
{
    let mut damaged = false;
    for span in spans {
        damaged |= write_chosen(mode, harts, symbols, &span, sink)?;
        note(watch, &span);
    }
    Ok(damaged)
}

/// Tells of the message of a span, if there is one.
fn note<V: ProgressSink>(watch: &V, span: &Span) {
    if matches!(span, Span::Frame { .. }) {
        watch.note(1);
    }
}

/// Writes the line of a span if it is of bytes or of one of these harts. Returns whether such a span is damaged.
fn write_chosen<S: Allocator, W: Write>(
    mode: Mode,
    harts: HartRange,
    symbols: Option<&Symbols<S>>,
    span: &Span,
    sink: &mut W,
) -> Result<bool, WriteFault>
    ensures damaged { IfOk result (λ damaged. damaged ≡ list_any is_damaged (chosen harts (span.now ∷ []))) }
    ensures text { OnOk result (Appends (W.contents sink.old) (W.contents sink.new)
        (spans_text (option_map (λ file. file.now) symbols.entry) mode (chosen harts (span.now ∷ [])))) }
    ensures begun { AppendsBeginning
        (spans_text (option_map (λ file. file.now) symbols.entry) mode (chosen harts (span.now ∷ [])))
        (W.contents sink.old) (W.contents sink.new) }
    ensures fault { IfErr result (λ fault. fault ≡ WriteFault.Write) }
{
    if is_chosen(harts, span) {
        write_span(mode, symbols, span, sink)
    } else {
        Ok(false)
    }
}

/// Whether a span is of bytes or of one of these harts.
fn is_chosen(harts: HartRange, span: &Span) -> bool
    ensures { result ≡ is_chosen harts span.now }
{
    match span {
        Span::Frame { message, .. } => harts.selects(message.hart),
        Span::Bytes { .. } => true,
    }
}

/// Writes the line of a span, and returns whether it is damaged.
fn write_span<S: Allocator, W: Write>(
    mode: Mode,
    symbols: Option<&Symbols<S>>,
    span: &Span,
    sink: &mut W,
) -> Result<bool, WriteFault>
    ensures damaged { IfOk result (λ damaged. damaged ≡ is_damaged span.now) }
    ensures text { OnOk result (Appends (W.contents sink.old) (W.contents sink.new)
        (span_line (option_map (λ file. file.now) symbols.entry) mode span.now)) }
    ensures begun { AppendsBeginning (span_line (option_map (λ file. file.now) symbols.entry) mode span.now)
        (W.contents sink.old) (W.contents sink.new) }
    ensures fault { IfErr result (λ fault. fault ≡ WriteFault.Write) }
{
    match span {
        Span::Frame { message, .. } => write_message_line(sink, symbols, mode, message),
        Span::Bytes { offset, count } => {
            write_bytes_line(sink, *offset as u64, *count as u64)?;
            Ok(true)
        }
    }
}
