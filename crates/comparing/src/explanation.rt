//! The report of a comparison that says where logs differ.

ghost use Rattle.std.specs.Prelude.{◌≡◌, ◌<◌, IfErr, IfOk, OnOk, get_or, is_none, length};
ghost use Rattle.std.specs.Io.KnownBytes.{Appends};
ghost use Rattle.std.specs.List.{flat_map, list_all};
ghost use Rattle.output.specs.Begun.{AppendsBeginning};
ghost use Rattle.comparing.specs.Explained.{are_whole_sourced, before_lines, below_text, both_line, differing_lines};
ghost use Rattle.comparing.specs.Explained.{explained_text, hart_lines, is_whole_sourced, names_in, row_line, row_name};
ghost use Rattle.comparing.specs.Explained.{rows_lines, three_lines};
ghost use Rattle.comparing.specs.Lines.{line_text};

use crate::explained::{ExplainedHart, RowKind, RowStart};
use crate::source::SourceText;
use crate::sourcing::SourcedHart;
use bench::{ComparedHart, write_result};
use captures::CaptureFault;
use output::{write_bytes, write_text};
use retire::{Event, WriteFault};
use std::alloc::{Allocator, Global};
use std::io::Write;
use symbols::Symbols;

/// How it is said where logs differ.
#[derive(Drop)]
pub struct Explaining<'a, S: Allocator = Global> {
    /// Whether the rows before the first difference are wanted.
    pub before: bool,
    /// What places are named by, if that is given.
    pub symbols: Option<&'a Symbols<S>>,
    /// Where decoding stops before the end of the capture, and why.
    pub stop: Option<(u64, CaptureFault)>,
}

/// Writes the line of each hart, and the one of the result, and returns whether the result is whole: each verdict is,
/// and decoding came to the end of the capture. Below the line of each hart whose log did not come back whole it writes
/// the row in which the log and what is decoded first differ: the log's and the decoded one, or `end` where there is
/// none, each with the name of its place, where there are symbols; and the message that the row comes from, or why it
/// is not decoded. Where they are asked for, the up to three rows before it, which both have, come first.
///
/// The only fault is [`WriteFault::Write`], where the writer failed; what was written then is a prefix of the text. No
/// memory is taken, and the writer is not flushed.
pub fn write_explained<S: Allocator, W: Write>(
    how: &Explaining<'_, S>,
    harts: &[SourcedHart],
    sink: &mut W,
) -> Result<bool, WriteFault>
    ensures whole { IfOk result (λ whole. whole ≡ are_whole_sourced (is_none how.now.stop) harts.now) }
    ensures text { OnOk result (Appends (W.contents sink.old) (W.contents sink.new)
        (explained_text how.now.before (names_in how.now) how.now.stop harts.now)) }
    ensures begun { AppendsBeginning (explained_text how.now.before (names_in how.now) how.now.stop harts.now)
        (W.contents sink.old) (W.contents sink.new) }
    ensures fault { IfErr result (λ fault. fault ≡ WriteFault.Write) }
{
    write_harts(how, harts, sink)?;
    let whole = how.stop.is_none() & are_whole_harts(harts);
    write_result(whole, sink)?;
    Ok(whole)
}

/// Writes the lines of each hart.
fn write_harts<S: Allocator, W: Write>(
    how: &Explaining<'_, S>,
    harts: &[SourcedHart],
    sink: &mut W,
) -> Result<(), WriteFault>
    ensures text { OnOk result (Appends (W.contents sink.old) (W.contents sink.new)
        (flat_map (hart_lines how.now.before (names_in how.now) how.now.stop) harts.now)) }
    ensures begun { AppendsBeginning (flat_map (hart_lines how.now.before (names_in how.now) how.now.stop) harts.now)
        (W.contents sink.old) (W.contents sink.new) }
    ensures fault { IfErr result (λ fault. fault ≡ WriteFault.Write) }
{
    for place in 0..harts.len() {
        write_hart(how, hart_at(harts, place), sink)?;
    }
    Ok(())
}

/// What is said of the hart at this place.
fn hart_at(harts: &[SourcedHart], place: usize) -> &SourcedHart
    requires { place < length harts.now }
    ensures { result.now ≡ get_or harts.now place result.now }
{
    &harts[place]
}

/// Writes the lines of a hart.
fn write_hart<S: Allocator, W: Write>(
    how: &Explaining<'_, S>,
    one: &SourcedHart,
    sink: &mut W,
) -> Result<(), WriteFault>
    ensures text { OnOk result (Appends (W.contents sink.old) (W.contents sink.new)
        (hart_lines how.now.before (names_in how.now) how.now.stop one.now)) }
    ensures begun { AppendsBeginning (hart_lines how.now.before (names_in how.now) how.now.stop one.now)
        (W.contents sink.old) (W.contents sink.new) }
    ensures fault { IfErr result (λ fault. fault ≡ WriteFault.Write) }
{
    write_line(&one.hart.line, sink)?;
    write_below(how, one, sink)
}

/// Writes the line of a hart.
fn write_line<W: Write>(line: &ComparedHart, sink: &mut W) -> Result<(), WriteFault>
    ensures text { OnOk result (Appends (W.contents sink.old) (W.contents sink.new) (line_text line.now)) }
    ensures begun { AppendsBeginning (line_text line.now) (W.contents sink.old) (W.contents sink.new) }
    ensures fault { IfErr result (λ fault. fault ≡ WriteFault.Write) }
{
    write_text(sink, format_args!("{line}\n"))?;
    Ok(())
}

/// Writes what is below the line of a hart: nothing, where its log came back whole.
fn write_below<S: Allocator, W: Write>(
    how: &Explaining<'_, S>,
    one: &SourcedHart,
    sink: &mut W,
) -> Result<(), WriteFault>
    ensures text { OnOk result (Appends (W.contents sink.old) (W.contents sink.new)
        (below_text how.now.before (names_in how.now) how.now.stop one.now)) }
    ensures begun { AppendsBeginning (below_text how.now.before (names_in how.now) how.now.stop one.now)
        (W.contents sink.old) (W.contents sink.new) }
    ensures fault { IfErr result (λ fault. fault ≡ WriteFault.Write) }
{
    if one.hart.line.verdict.is_whole() {
        return Ok(());
    }
    write_differing(how, one, sink)
}

/// Writes what is below the line of a hart whose log did not come back whole.
fn write_differing<S: Allocator, W: Write>(
    how: &Explaining<'_, S>,
    one: &SourcedHart,
    sink: &mut W,
) -> Result<(), WriteFault>
    ensures text { OnOk result (Appends (W.contents sink.old) (W.contents sink.new)
        (differing_lines how.now.before (names_in how.now) how.now.stop one.now)) }
    ensures begun { AppendsBeginning (differing_lines how.now.before (names_in how.now) how.now.stop one.now)
        (W.contents sink.old) (W.contents sink.new) }
    ensures fault { IfErr result (λ fault. fault ≡ WriteFault.Write) }
{
    write_before(how, &one.hart, sink)?;
    write_rows(how, &one.hart, sink)?;
    let hart = one.hart.line.hart;
    let row = one.hart.row;
    let source = SourceText {
        source: one.source,
        stop: how.stop,
    };
    write_text(sink, format_args!("hart {hart}: row {row}: {source}\n"))?;
    Ok(())
}

/// Writes the lines of the three rows before the first difference, as many as there are, if they are wanted.
fn write_before<S: Allocator, W: Write>(
    how: &Explaining<'_, S>,
    hart: &ExplainedHart,
    sink: &mut W,
) -> Result<(), WriteFault>
    ensures text { OnOk result (Appends (W.contents sink.old) (W.contents sink.new)
        (before_lines how.now.before (names_in how.now) hart.now)) }
    ensures begun { AppendsBeginning (before_lines how.now.before (names_in how.now) hart.now)
        (W.contents sink.old) (W.contents sink.new) }
    ensures fault { IfErr result (λ fault. fault ≡ WriteFault.Write) }
{
    if !how.before {
        return Ok(());
    }
    write_three(how, hart, sink)
}

/// Writes the lines of the three rows before the first difference, as many as there are.
fn write_three<S: Allocator, W: Write>(
    how: &Explaining<'_, S>,
    hart: &ExplainedHart,
    sink: &mut W,
) -> Result<(), WriteFault>
    ensures text { OnOk result (Appends (W.contents sink.old) (W.contents sink.new)
        (three_lines (names_in how.now) hart.now)) }
    ensures begun { AppendsBeginning (three_lines (names_in how.now) hart.now)
        (W.contents sink.old) (W.contents sink.new) }
    ensures fault { IfErr result (λ fault. fault ≡ WriteFault.Write) }
{
    write_both(how, hart, 3, hart.near.three_before, sink)?;
    write_both(how, hart, 2, hart.near.two_before, sink)?;
    write_both(how, hart, 1, hart.near.one_before, sink)
}

/// Writes the line of a row that both the log and the decoded events have, so many before the first difference, if
/// there is such a row.
fn write_both<S: Allocator, W: Write>(
    how: &Explaining<'_, S>,
    hart: &ExplainedHart,
    many: usize,
    event: Option<Event>,
    sink: &mut W,
) -> Result<(), WriteFault>
    ensures text { OnOk result (Appends (W.contents sink.old) (W.contents sink.new)
        (both_line (names_in how.now) hart.now many event)) }
    ensures begun { AppendsBeginning (both_line (names_in how.now) hart.now many event)
        (W.contents sink.old) (W.contents sink.new) }
    ensures fault { IfErr result (λ fault. fault ≡ WriteFault.Write) }
{
    let row = hart.row.saturating_sub(many);
    match event {
        Some(_) => write_row(how, hart.line.hart, row, RowKind::Both, event, sink),
        None => Ok(()),
    }
}

/// Writes the lines of the row of the log and of the decoded one.
fn write_rows<S: Allocator, W: Write>(
    how: &Explaining<'_, S>,
    hart: &ExplainedHart,
    sink: &mut W,
) -> Result<(), WriteFault>
    ensures text { OnOk result (Appends (W.contents sink.old) (W.contents sink.new)
        (rows_lines (names_in how.now) hart.now)) }
    ensures begun { AppendsBeginning (rows_lines (names_in how.now) hart.now)
        (W.contents sink.old) (W.contents sink.new) }
    ensures fault { IfErr result (λ fault. fault ≡ WriteFault.Write) }
{
    let number = hart.line.hart;
    write_row(how, number, hart.row, RowKind::Log, hart.near.log, sink)?;
    write_row(
        how,
        number,
        hart.row,
        RowKind::Decoded,
        hart.near.decoded,
        sink,
    )
}

/// Writes the line of a row of a hart.
fn write_row<S: Allocator, W: Write>(
    how: &Explaining<'_, S>,
    hart: usize,
    row: usize,
    kind: RowKind,
    event: Option<Event>,
    sink: &mut W,
) -> Result<(), WriteFault>
    ensures text { OnOk result (Appends (W.contents sink.old) (W.contents sink.new)
        (row_line (names_in how.now) hart row kind event)) }
    ensures begun { AppendsBeginning (row_line (names_in how.now) hart row kind event)
        (W.contents sink.old) (W.contents sink.new) }
    ensures fault { IfErr result (λ fault. fault ≡ WriteFault.Write) }
{
    let start = RowStart {
        hart,
        row,
        kind,
        event,
    };
    write_text(sink, start)?;
    write_name(how, event, sink)?;
    write_bytes(sink, b"\n")?;
    Ok(())
}

/// Writes what the place of a row is named, if there is a row and there are symbols.
fn write_name<S: Allocator, W: Write>(
    how: &Explaining<'_, S>,
    event: Option<Event>,
    sink: &mut W,
) -> Result<(), WriteFault>
    ensures text { OnOk result (Appends (W.contents sink.old) (W.contents sink.new)
        (row_name (names_in how.now) event)) }
    ensures begun { AppendsBeginning (row_name (names_in how.now) event)
        (W.contents sink.old) (W.contents sink.new) }
    ensures fault { IfErr result (λ fault. fault ≡ WriteFault.Write) }
{
    match event {
        Some(event) => symbols::write_name(how.symbols, event.place(), sink),
        None => Ok(()),
    }
}

/// Whether the log of each of these harts came back whole.
fn are_whole_harts(harts: &[SourcedHart]) -> bool
    ensures { result ≡ list_all is_whole_sourced harts.now }
{
    for one in harts {
        if !one.hart.line.verdict.is_whole() {
            return false;
        }
    }
    true
}
