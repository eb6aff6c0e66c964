//! The report on messages that carry no numbers, written row by row.

ghost use Rattle.std.specs.Prelude.{◌≡◌, ◌≤◌, OnOk, length};
ghost use Rattle.std.specs.Io.KnownBytes.{Appends};
ghost use Rattle.std.specs.List.{flat_map};
ghost use Rattle.output.specs.Begun.{AppendsBeginning};
ghost use Rattle.path_commands.specs.AuditText.{unless_summary};
ghost use Rattle.path_commands.specs.MatchedRows.{arrival_row, arrival_rows, count_before, counts_row, matched_report};
ghost use Rattle.path_commands.specs.MatchedRows.{matched_rows, own_row, single_rows, unmatched_rows};
ghost use Rattle.path_commands.specs.Rows.{bytes_row};
ghost use Rattle.path_commands.specs.UnnumberedText.{first_place_of, of_selected, texts_from};

use crate::hart_check::is_among;
use crate::lost_rows::write_lost;
use crate::matched_lines::place_of;
use crate::matched_rows::{ArrivalRow, MatchedRow, MatchedTotal, TotalRow};
use crate::reading::ByteRun;
use crate::report::Report;
use crate::rows::FrontRow;
use crate::table_rows::BytesRow;
use auditing::{Alignment, Line, LostRuns, counts_of, run_lengths};
use command_inputs::Format;
use output::write_text;
use std::io;
use std::io::Write;

/// Writes the report, by the alignments of the harts of SENT, by the runs of bytes of RECEIVED and what is to be said of
/// its messages, and by what is found of all together.
pub(crate) fn write_report<O: Write>(
    report: Report,
    all: &[Alignment],
    runs: &[ByteRun],
    lines: &[Line],
    its: MatchedTotal,
    out: &mut O,
) -> io::Result<()>
    ensures text { OnOk result (Appends (O.contents out.old) (O.contents out.new)
        (matched_report report all.now runs.now lines.now its)) }
    ensures begun { AppendsBeginning (matched_report report all.now runs.now lines.now its)
        (O.contents out.old) (O.contents out.new) }
{
    let front = FrontRow(report.format);
    write_text(out, front)?;
    write_matched_rows(report, all, runs, lines, its, out)
}

/// Writes the rows of the report.
fn write_matched_rows<O: Write>(
    report: Report,
    all: &[Alignment],
    runs: &[ByteRun],
    lines: &[Line],
    its: MatchedTotal,
    out: &mut O,
) -> io::Result<()>
    ensures text { OnOk result (Appends (O.contents out.old) (O.contents out.new)
        (matched_rows report all.now runs.now lines.now its)) }
    ensures begun { AppendsBeginning (matched_rows report all.now runs.now lines.now its)
        (O.contents out.old) (O.contents out.new) }
{
    write_singles(report, all, runs, lines, out)?;
    write_aligned(report, all, out)?;
    let row = TotalRow {
        format: report.format,
        its,
    };
    write_text(out, row)?;
    out.flush()?;
    Ok(())
}

/// The place of the message that the first line is of, if there is one.
pub(crate) fn first_of(lines: &[Line]) -> Option<u64>
    ensures { result ≡ first_place_of lines.now }
{
    match lines.first() {
        Some(line) => Some(place_of(*line)),
        None => None,
    }
}

/// Writes the rows of single messages, of runs of bytes and of the numbers that are lost, but none in a summary.
fn write_singles<O: Write>(
    report: Report,
    all: &[Alignment],
    runs: &[ByteRun],
    lines: &[Line],
    out: &mut O,
) -> io::Result<()>
    ensures text { OnOk result (Appends (O.contents out.old) (O.contents out.new)
        (unless_summary report.summary (single_rows report.format all.now runs.now lines.now))) }
    ensures begun { AppendsBeginning (unless_summary report.summary (single_rows report.format all.now runs.now lines.now))
        (O.contents out.old) (O.contents out.new) }
{
    if report.summary {
        return Ok(());
    }
    write_arrivals(report.format, runs, lines, out)?;
    write_unmatched(report.format, all, out)
}

/// Writes the rows of single messages and of runs of bytes, each run after the messages before it.
fn write_arrivals<O: Write>(
    format: Format,
    runs: &[ByteRun],
    lines: &[Line],
    out: &mut O,
) -> io::Result<()>
    ensures text { OnOk result (Appends (O.contents out.old) (O.contents out.new)
        (arrival_rows format runs.now lines.now)) }
    ensures begun { AppendsBeginning (arrival_rows format runs.now lines.now)
        (O.contents out.old) (O.contents out.new) }
{
    let mut left = lines;
    for run in runs {
        let count = count_before(run.place, left);
        write_lines(format, &left[..count], out)?;
        write_run(format, run, out)?;
        left = &left[count..];
    }
    write_lines(format, left, out)
}

/// How many of these lines are of messages before this place.
fn count_before(place: u64, lines: &[Line]) -> usize
    ensures value { result ≡ count_before place lines.now }
    ensures within { result ≤ length lines.now }
{
    for (count, line) in lines.iter().enumerate() {
        if place_of(*line) >= place {
            return count;
        }
    }
    lines.len()
}

/// Writes the row of a run of bytes.
fn write_run<O: Write>(format: Format, run: &ByteRun, out: &mut O) -> io::Result<()>
    ensures text { OnOk result (Appends (O.contents out.old) (O.contents out.new)
        (bytes_row format run.now.offset run.now.count)) }
    ensures begun { AppendsBeginning (bytes_row format run.now.offset run.now.count)
        (O.contents out.old) (O.contents out.new) }
{
    write_text(
        out,
        BytesRow {
            format,
            offset: run.offset,
            count: run.count,
        },
    )
}

/// Writes the rows of single messages.
fn write_lines<O: Write>(format: Format, lines: &[Line], out: &mut O) -> io::Result<()>
    ensures text { OnOk result (Appends (O.contents out.old) (O.contents out.new)
        (flat_map (arrival_row format) lines.now)) }
    ensures begun { AppendsBeginning (flat_map (arrival_row format) lines.now)
        (O.contents out.old) (O.contents out.new) }
{
    for line in lines {
        write_arrival(format, line, out)?;
    }
    Ok(())
}

/// Writes the row of a message.
fn write_arrival<O: Write>(format: Format, line: &Line, out: &mut O) -> io::Result<()>
    ensures text { OnOk result (Appends (O.contents out.old) (O.contents out.new) (arrival_row format line.now)) }
    ensures begun { AppendsBeginning (arrival_row format line.now) (O.contents out.old) (O.contents out.new) }
{
    write_text(
        out,
        ArrivalRow {
            format,
            line: *line,
        },
    )
}

/// Writes the rows of the numbers of each hart that are lost.
fn write_unmatched<O: Write>(format: Format, all: &[Alignment], out: &mut O) -> io::Result<()>
    ensures text { OnOk result (Appends (O.contents out.old) (O.contents out.new)
        (texts_from (unmatched_rows format) 0 all.now)) }
    ensures begun { AppendsBeginning (texts_from (unmatched_rows format) 0 all.now)
        (O.contents out.old) (O.contents out.new) }
{
    for hart in 0..all.len() {
        write_lost(format, LostRuns::new(all[hart].sent()), hart, out)?;
    }
    Ok(())
}

/// Writes the rows of each hart that is asked for.
fn write_aligned<O: Write>(report: Report, all: &[Alignment], out: &mut O) -> io::Result<()>
    ensures text { OnOk result (Appends (O.contents out.old) (O.contents out.new)
        (texts_from (of_selected report.harts (own_row report.format)) 0 all.now)) }
    ensures begun { AppendsBeginning (texts_from (of_selected report.harts (own_row report.format)) 0 all.now)
        (O.contents out.old) (O.contents out.new) }
{
    for hart in 0..all.len() {
        write_hart(report, hart, &all[hart], out)?;
    }
    Ok(())
}

/// Writes the rows of a hart with this alignment, if it is asked for.
fn write_hart<O: Write>(report: Report, hart: usize, own: &Alignment, out: &mut O) -> io::Result<()>
    ensures text { OnOk result (Appends (O.contents out.old) (O.contents out.new)
        (of_selected report.harts (own_row report.format) hart own.now)) }
    ensures begun { AppendsBeginning (of_selected report.harts (own_row report.format) hart own.now)
        (O.contents out.old) (O.contents out.new) }
{
    if !is_among(report.harts, hart) {
        return Ok(());
    }
    write_text(out, matched_row_of(report.format, hart, own))
}

/// The row of a hart with this alignment.
fn matched_row_of(format: Format, hart: usize, own: &Alignment) -> MatchedRow
    ensures { counts_row result.format result.hart result.counts result.runs result.longest
        ≡ own_row format hart own.now }
{
    let lengths = run_lengths(own.sent());
    MatchedRow {
        format,
        hart,
        counts: counts_of(own),
        runs: lengths.runs,
        longest: lengths.longest,
    }
}
