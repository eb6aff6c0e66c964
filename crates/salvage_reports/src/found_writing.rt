//! Writing what was found of a capture that may be damaged.

ghost use Rattle.std.specs.Prelude.{◌≡◌, ◌≤◌, Err, IfErr, OnOk, option_map, vec_capacity};
ghost use Rattle.std.specs.Io.KnownBytes.{Appends};
ghost use Rattle.std.specs.List.{flat_map};
ghost use Rattle.parallel_decode.specs.EachHart.{joined_harts};
ghost use Rattle.output.specs.Begun.{AppendsBeginning};
ghost use Rattle.salvaging.specs.PartsIn.{part_of, parts_in};
ghost use Rattle.salvage_reports.specs.Layouts.{behind_item, counts_text, end_of, found_as, front_text, log_of};
ghost use Rattle.salvage_reports.specs.Layouts.{rest_text, run_text, texts_from};
ghost use Rattle.salvage_reports.specs.SalvagedItems.{item_text, text_if};
ghost use Rattle.salvage_reports.specs.ShownParts.{none_gone};
ghost use Rattle.salvage_reports.specs.steps.Harts.{ending_text, own_text, own_total};

use crate::found::Found;
use crate::offsets::offsets_of;
use crate::salvaged_items::{
    Columns, Counted, Item, ItemLine, ItemRow, Total, counted_of, run_of, said_of, strangers_of,
};
use crate::shown_parts::{Gone, Reported, gone_after, shown_item};
use crate::stretch_ends::write_stretch_end;
use crate::totals::total_of;
use frames::{Spans, spans_of};
use output::write_text;
use retire::{LOG_ROOM, WriteFault, write_log_in};
use salvaging::{Part, SalvagedHart};
use std::alloc::Global;
use std::io::Write;
use symbols::Symbols;

/// How what is salvaged is laid out.
#[derive(Clone, Copy)]
pub enum Layout {
    /// A line for each hart and for each part of what is left of its log, and the rows of each stretch.
    Text,
    /// The same without the rows.
    Summary,
    /// A table of CSV, which has no rows of logs.
    Table,
}

/// A layout, and what the places of stretches are named by, if that is given.
#[derive(Clone, Copy)]
struct Style<'s> {
    layout: Layout,
    symbols: Option<&'s Symbols>,
}

/// Writes what was found of the bytes of a capture in a layout: of each of these harts its line and its text, or its
/// rows; then where bytes belong to no frame; how many messages are strangers; and what is counted of all these harts.
/// The text and the columns are listed in `docs/FORMATS.md`. Where symbols are handed in, the line of each stretch ends with its first place and its
/// last, and what they are named.
///
/// [`WriteFault::Memory`] comes before anything is written. Where the writer fails, what was written is a prefix of the
/// text. The writer is not flushed.
pub fn write_found<O: Write>(
    alloc: Global,
    layout: Layout,
    symbols: Option<&Symbols>,
    found: &Found,
    bytes: &[u8],
    out: &mut O,
) -> Result<(), WriteFault>
    ensures text { OnOk result (Appends (O.contents out.old) (O.contents out.new)
        (found_as layout (option_map (λ file. file.now) symbols.entry) found.now bytes.now)) }
    ensures begun { AppendsBeginning (found_as layout (option_map (λ file. file.now) symbols.entry) found.now bytes.now)
        (O.contents out.old) (O.contents out.new) }
    ensures untouched { result ≡ Err WriteFault.Memory → out.new ≡ out.old }
{
    let mut room = Vec::with_capacity(alloc, LOG_ROOM)?;
    write_report(Style { layout, symbols }, &mut room, found, bytes, out)
}

/// Writes what was found of the bytes of a capture in a layout. It does not allocate, since the buffer `room` is large
/// enough for the text of a log.
fn write_report<O: Write>(
    style: Style<'_>,
    room: &mut Vec<u8>,
    found: &Found,
    bytes: &[u8],
    out: &mut O,
) -> Result<(), WriteFault>
    requires { LOG_ROOM ≤ vec_capacity room.old }
    ensures fault { IfErr result (λ fault. fault ≡ WriteFault.Write) }
    ensures text { OnOk result (Appends (O.contents out.old) (O.contents out.new)
        (found_as style.entry.layout (option_map (λ file. file.now) style.entry.symbols) found.now bytes.now)) }
    ensures begun { AppendsBeginning
        (found_as style.entry.layout (option_map (λ file. file.now) style.entry.symbols) found.now bytes.now)
        (O.contents out.old) (O.contents out.new) }
{
    write_front(style.layout, out)?;
    write_harts(style, room, found, found.harts(), out)?;
    write_ending(style.layout, found, bytes, out)
}

/// Writes what comes after the harts: bytes that belong to no frame, the count of strangers, and what is counted of all
/// harts.
fn write_ending<O: Write>(
    layout: Layout,
    found: &Found,
    bytes: &[u8],
    out: &mut O,
) -> Result<(), WriteFault>
    ensures fault { IfErr result (λ fault. fault ≡ WriteFault.Write) }
    ensures text { OnOk result
        (Appends (O.contents out.old) (O.contents out.new) (ending_text layout found.now bytes.now)) }
    ensures begun { AppendsBeginning (ending_text layout found.now bytes.now) (O.contents out.old) (O.contents out.new) }
{
    let spans = spans_of(bytes, found.header);
    write_rest(layout, spans, found.salvaged.strangers, out)?;
    let all = [
        Total::Rows,
        Total::Decoded,
        Total::Passed,
        Total::Far,
        Total::Bad,
        Total::Alone,
        Total::Doubtful,
        Total::Copies,
        Total::Strangers,
        Total::Late,
        Total::Bytes,
    ];
    write_totals(layout, found, bytes, &all, out)
}

/// Writes these counts of all harts.
fn write_totals<O: Write>(
    layout: Layout,
    found: &Found,
    bytes: &[u8],
    all: &[Total],
    out: &mut O,
) -> Result<(), WriteFault>
    ensures fault { IfErr result (λ fault. fault ≡ WriteFault.Write) }
    ensures text { OnOk result
        (Appends (O.contents out.old) (O.contents out.new) (flat_map (own_total layout found.now bytes.now) all.now)) }
    ensures begun { AppendsBeginning (flat_map (own_total layout found.now bytes.now) all.now) (O.contents out.old)
        (O.contents out.new) }
{
    for what in all {
        write_total(layout, found, bytes, *what, out)?;
    }
    Ok(())
}

/// Writes a count of all harts.
fn write_total<O: Write>(
    layout: Layout,
    found: &Found,
    bytes: &[u8],
    what: Total,
    out: &mut O,
) -> Result<(), WriteFault>
    ensures fault { IfErr result (λ fault. fault ≡ WriteFault.Write) }
    ensures text { OnOk result
        (Appends (O.contents out.old) (O.contents out.new) (own_total layout found.now bytes.now what)) }
    ensures begun { AppendsBeginning (own_total layout found.now bytes.now what) (O.contents out.old)
        (O.contents out.new) }
{
    let harts = found.harts().len();
    let messages = found.frames.messages.len();
    let count = total_of(what, found, bytes);
    write_item(
        layout,
        Item::All {
            what,
            count,
            harts,
            messages,
        },
        out,
    )
}

/// Writes what comes before the harts: in a table the names of its columns.
fn write_front<O: Write>(layout: Layout, out: &mut O) -> Result<(), WriteFault>
    ensures fault { IfErr result (λ fault. fault ≡ WriteFault.Write) }
    ensures text { OnOk result (Appends (O.contents out.old) (O.contents out.new) (front_text layout)) }
    ensures begun { AppendsBeginning (front_text layout) (O.contents out.old) (O.contents out.new) }
{
    match layout {
        Layout::Table => write_text(out, Columns)?,
        Layout::Text | Layout::Summary => {}
    }
    Ok(())
}

/// Writes the texts of harts, from the first of those that were found on.
fn write_harts<O: Write>(
    style: Style<'_>,
    room: &mut Vec<u8>,
    found: &Found,
    harts: &[SalvagedHart],
    out: &mut O,
) -> Result<(), WriteFault>
    requires { LOG_ROOM ≤ vec_capacity room.old }
    ensures fault { IfErr result (λ fault. fault ≡ WriteFault.Write) }
    ensures text { OnOk result (Appends (O.contents out.old) (O.contents out.new)
        (joined_harts (own_text style.entry.layout (option_map (λ file. file.now) style.entry.symbols) found.now)
        found.now.only.first harts.now)) }
    ensures begun { AppendsBeginning
        (joined_harts (own_text style.entry.layout (option_map (λ file. file.now) style.entry.symbols) found.now)
        found.now.only.first harts.now)
        (O.contents out.old) (O.contents out.new) }
{
    for (place, own) in harts.iter().enumerate() {
        let hart = usize::from(found.only.first) + place;
        write_hart(style, room, found, hart, own, out)?;
    }
    Ok(())
}

/// Writes the text of a hart.
fn write_hart<O: Write>(
    style: Style<'_>,
    room: &mut Vec<u8>,
    found: &Found,
    hart: usize,
    own: &SalvagedHart,
    out: &mut O,
) -> Result<(), WriteFault>
    requires { LOG_ROOM ≤ vec_capacity room.old }
    ensures fault { IfErr result (λ fault. fault ≡ WriteFault.Write) }
    ensures text { OnOk result (Appends (O.contents out.old) (O.contents out.new)
        (own_text style.entry.layout (option_map (λ file. file.now) style.entry.symbols) found.now hart own.now)) }
    ensures begun { AppendsBeginning
        (own_text style.entry.layout (option_map (λ file. file.now) style.entry.symbols) found.now hart own.now)
        (O.contents out.old) (O.contents out.new) }
    ensures room { vec_capacity room.old ≤ vec_capacity room.new }
{
    let head = Item::Hart {
        hart,
        mode: own.mode,
        closed: own.closed,
    };
    let offsets = offsets_of(found.frames.offsets.as_slice(), hart);
    write_item(style.layout, head, out)?;
    write_if(style.layout, said_of(hart, found.header, own.mode), out)?;
    let reported = Reported {
        hart,
        offsets,
        gaps: own.gaps.as_slice(),
        far: own.far.as_slice(),
    };
    write_parts(style, room, reported, own.parts.as_slice(), out)?;
    write_counts(style.layout, hart, own, out)
}

/// Writes the parts of a hart's log.
fn write_parts<O: Write>(
    style: Style<'_>,
    room: &mut Vec<u8>,
    reported: Reported<'_>,
    parts: &[Part],
    out: &mut O,
) -> Result<(), WriteFault>
    requires { LOG_ROOM ≤ vec_capacity room.old }
    ensures fault { IfErr result (λ fault. fault ≡ WriteFault.Write) }
    ensures text { OnOk result (Appends (O.contents out.old) (O.contents out.new)
        (texts_from style.entry.layout (option_map (λ file. file.now) style.entry.symbols) reported.entry.hart
        reported.entry.offsets.now reported.entry.gaps.now reported.entry.far.now none_gone (parts_in parts.now))) }
    ensures begun { AppendsBeginning
        (texts_from style.entry.layout (option_map (λ file. file.now) style.entry.symbols) reported.entry.hart
        reported.entry.offsets.now reported.entry.gaps.now reported.entry.far.now none_gone (parts_in parts.now))
        (O.contents out.old) (O.contents out.new) }
    ensures room { vec_capacity room.old ≤ vec_capacity room.new }
{
    let mut gone = Gone { gaps: 0, far: 0 };
    for part in parts {
        write_if(style.layout, shown_item(reported, gone, part), out)?;
        write_behind(style, room, part, out)?;
        gone = gone_after(reported, gone, part);
    }
    Ok(())
}

/// Writes what comes after the item of a part: of a stretch the end of its line, and its log.
fn write_behind<O: Write>(
    style: Style<'_>,
    room: &mut Vec<u8>,
    part: &Part,
    out: &mut O,
) -> Result<(), WriteFault>
    requires { LOG_ROOM ≤ vec_capacity room.old }
    ensures fault { IfErr result (λ fault. fault ≡ WriteFault.Write) }
    ensures text { OnOk result (Appends (O.contents out.old) (O.contents out.new)
        (behind_item style.entry.layout (option_map (λ file. file.now) style.entry.symbols) (part_of part.now))) }
    ensures begun { AppendsBeginning
        (behind_item style.entry.layout (option_map (λ file. file.now) style.entry.symbols) (part_of part.now))
        (O.contents out.old) (O.contents out.new) }
    ensures room { vec_capacity room.old ≤ vec_capacity room.new }
{
    write_end(style, part, out)?;
    write_rows(style.layout, room, part, out)
}

/// Writes the end of the line of a stretch; of a row, and of any other part, nothing.
fn write_end<O: Write>(style: Style<'_>, part: &Part, out: &mut O) -> Result<(), WriteFault>
    ensures fault { IfErr result (λ fault. fault ≡ WriteFault.Write) }
    ensures text { OnOk result (Appends (O.contents out.old) (O.contents out.new)
        (end_of style.entry.layout (option_map (λ file. file.now) style.entry.symbols) (part_of part.now))) }
    ensures begun { AppendsBeginning
        (end_of style.entry.layout (option_map (λ file. file.now) style.entry.symbols) (part_of part.now))
        (O.contents out.old) (O.contents out.new) }
{
    match (style.layout, part) {
        (Layout::Text, Part::Stretch { events, .. }) => {
            write_stretch_end(style.symbols, events.as_slice(), out)
        }
        (Layout::Summary, Part::Stretch { events, .. }) => {
            write_stretch_end(style.symbols, events.as_slice(), out)
        }
        _ => Ok(()),
    }
}

/// Writes the log of a stretch, in the layout that has it; of any other part nothing.
fn write_rows<O: Write>(
    layout: Layout,
    room: &mut Vec<u8>,
    part: &Part,
    out: &mut O,
) -> Result<(), WriteFault>
    requires { LOG_ROOM ≤ vec_capacity room.old }
    ensures fault { IfErr result (λ fault. fault ≡ WriteFault.Write) }
    ensures text { OnOk result (Appends (O.contents out.old) (O.contents out.new) (log_of layout (part_of part.now))) }
    ensures begun { AppendsBeginning (log_of layout (part_of part.now)) (O.contents out.old) (O.contents out.new) }
    ensures room { vec_capacity room.old ≤ vec_capacity room.new }
{
    match (layout, part) {
        (Layout::Text, Part::Stretch { events, .. }) => write_log_in(room, out, events.as_slice()),
        _ => Ok(()),
    }
}

/// Writes the counts of a hart's copies and of its late messages, where there are any.
fn write_counts<O: Write>(
    layout: Layout,
    hart: usize,
    own: &SalvagedHart,
    out: &mut O,
) -> Result<(), WriteFault>
    ensures fault { IfErr result (λ fault. fault ≡ WriteFault.Write) }
    ensures text { OnOk result (Appends (O.contents out.old) (O.contents out.new) (counts_text layout hart own.now)) }
    ensures begun { AppendsBeginning (counts_text layout hart own.now) (O.contents out.old) (O.contents out.new) }
{
    write_if(layout, counted_of(hart, Counted::Copies, own.copies), out)?;
    write_if(layout, counted_of(hart, Counted::Late, own.late), out)
}

/// Writes what comes after the harts: each run of bytes that belong to no frame, and the count of strangers.
fn write_rest<O: Write>(
    layout: Layout,
    spans: Spans<'_>,
    strangers: usize,
    out: &mut O,
) -> Result<(), WriteFault>
    ensures fault { IfErr result (λ fault. fault ≡ WriteFault.Write) }
    ensures text { OnOk result
        (Appends (O.contents out.old) (O.contents out.new) (rest_text layout spans.entry strangers)) }
    ensures begun { AppendsBeginning (rest_text layout spans.entry strangers) (O.contents out.old)
        (O.contents out.new) }
{
    write_runs(layout, spans, out)?;
    write_if(layout, strangers_of(strangers), out)
}

/// Writes each run of bytes that belong to no frame.
fn write_runs<O: Write>(layout: Layout, spans: Spans<'_>, out: &mut O) -> Result<(), WriteFault>
    ensures fault { IfErr result (λ fault. fault ≡ WriteFault.Write) }
    ensures text { OnOk result
        (Appends (O.contents out.old) (O.contents out.new) (flat_map (run_text layout) spans.entry)) }
    ensures begun { AppendsBeginning (flat_map (run_text layout) spans.entry) (O.contents out.old)
        (O.contents out.new) }
{
    for span in spans {
        write_if(layout, run_of(&span), out)?;
    }
    Ok(())
}

/// Writes an item, if there is one.
fn write_if<O: Write>(layout: Layout, item: Option<Item>, out: &mut O) -> Result<(), WriteFault>
    ensures fault { IfErr result (λ fault. fault ≡ WriteFault.Write) }
    ensures text { OnOk result (Appends (O.contents out.old) (O.contents out.new) (text_if layout item)) }
    ensures begun { AppendsBeginning (text_if layout item) (O.contents out.old) (O.contents out.new) }
{
    match item {
        Some(item) => write_item(layout, item, out),
        None => Ok(()),
    }
}

/// Writes the line or the row of an item.
fn write_item<O: Write>(layout: Layout, item: Item, out: &mut O) -> Result<(), WriteFault>
    ensures fault { IfErr result (λ fault. fault ≡ WriteFault.Write) }
    ensures text { OnOk result (Appends (O.contents out.old) (O.contents out.new) (item_text layout item)) }
    ensures begun { AppendsBeginning (item_text layout item) (O.contents out.old) (O.contents out.new) }
{
    match layout {
        Layout::Table => write_text(out, ItemRow(item))?,
        Layout::Text | Layout::Summary => write_text(out, ItemLine(item))?,
    }
    Ok(())
}
