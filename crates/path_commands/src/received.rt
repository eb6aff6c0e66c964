//! The messages of RECEIVED and the bytes between them, written row by row.

ghost use Rattle.std.specs.Prelude.{◌≡◌, ◌<◌, ◌≤◌, ◌^◌, ◌∷◌, ◌++◌, IfErr, IfOk, List, [], OnOk};
ghost use Rattle.std.specs.Prelude.{length};
ghost use Rattle.std.specs.Io.KnownBytes.{Appends};
ghost use Rattle.output.specs.Begun.{AppendsBeginning};
ghost use Rattle.message.specs.declared.message.Message.{Message as AnyMessage};
ghost use Rattle.auditing.specs.Audits.{Audits as IsAudit};
ghost use Rattle.auditing.specs.Known.{known_all};
ghost use Rattle.auditing.specs.Seen.{sight_of};
ghost use Rattle.frames.specs.Borrowed.{message_of, span_of};
ghost use Rattle.frames.specs.Counted.{bytes_in, messages_in, runs_in};
ghost use Rattle.frames.specs.Passages.{spans_left};
ghost use Rattle.path_commands.specs.AuditText.{unless_summary};
ghost use Rattle.path_commands.specs.Rows.{bytes_row, found_row, front_rows, row_or_none, span_row};
ghost use Rattle.path_commands.specs.steps.Noting.{none_noted, noted_more, noted_of};
ghost use Rattle.path_commands.specs.steps.Reading.{progress_after, with_bytes, with_message};

use crate::noting::Noted;
use crate::report::Report;
use crate::rows::{FrontRow, MessageRow};
use crate::table_rows::BytesRow;
use auditing::{Audit, Finding};
use command_inputs::{Format, MessageProgress};
use frames::{BorrowedMessage, BorrowedSpan, GuidedScan};
use log_streams::Files;
use message::{Header, MessageFault, ProgressSink};
use output::write_text;
use retire::WriteFault;
use std::io::Write;

/// How far RECEIVED is read.
#[derive(Clone, Copy)]
pub(crate) struct Progress {
    /// How many messages were taken.
    pub(crate) messages: u64,
    /// How many bytes were of no message.
    pub(crate) bytes: u64,
    /// How many runs they were in.
    pub(crate) runs: u64,
}

impl Progress {
    /// Before the first byte.
    pub(crate) const START: Progress = Progress {
        messages: 0,
        bytes: 0,
        runs: 0,
    };

    /// After one message more.
    #[inline(always)]
    pub(crate) fn with_message(self) -> Progress
        ensures { result ≡ with_message self }
    {
        Progress {
            messages: self.messages.saturating_add(1),
            bytes: self.bytes,
            runs: self.runs,
        }
    }

    /// After one run more of so many bytes.
    #[inline(always)]
    pub(crate) fn with_bytes(self, count: u64) -> Progress
        ensures { result ≡ with_bytes self count }
    {
        Progress {
            messages: self.messages,
            bytes: self.bytes.saturating_add(count),
            runs: self.runs.saturating_add(1),
        }
    }

    /// After one span more.
    #[inline(always)]
    pub(crate) fn after(self, passage: BorrowedSpan<'_>) -> Progress
        ensures { result ≡ progress_after self (span_of passage.entry) }
    {
        match passage {
            BorrowedSpan::Message { .. } => self.with_message(),
            BorrowedSpan::Bytes { count, .. } => self.with_bytes(count as u64),
        }
    }
}

/// How RECEIVED was read.
#[derive(Clone, Copy)]
pub(crate) struct ReceivedSummary {
    /// Its header, if it has a valid one.
    pub(crate) header: Option<Header>,
    /// Why it has none, where it begins as a capture of version 2 does.
    pub(crate) fault: Option<MessageFault>,
    /// How many messages, bytes of no message and runs of these it has.
    pub(crate) read: Progress,
    /// What is found of the messages of the harts that are asked for.
    pub(crate) noted: Noted,
}

/// Begins to show how far the messages of RECEIVED are worked through, where that is asked for. These are its bytes,
/// and messages are looked for from this offset on.
pub(crate) fn begin_spans<F: Files>(
    progress: &MessageProgress<'_, F>,
    path: &Audit<'_>,
    bytes: &[u8],
    from: usize,
) {
    if progress.is_asked() {
        progress.begin(messages_in(path, bytes, from));
    }
}

/// How many messages there are in these bytes of RECEIVED from this offset on.
fn messages_in(path: &Audit<'_>, bytes: &[u8], from: usize) -> u64 {
    let mut left = GuidedScan::new(bytes, from);
    let mut read = Progress::START;
    // A span has a byte at least.
    for _ in 0..bytes.len() {
        match left.next_passage(path) {
            Some(passage) => read = read.after(passage),
            None => return read.messages,
        }
    }
    read.messages
}

/// Writes the names of the columns in a table, takes the messages of RECEIVED that are left, and writes their rows, as
/// [`take_spans`] does. Ends what [`begin_spans`] began.
pub(crate) fn write_spans<F: Files, O: Write>(
    progress: &MessageProgress<'_, F>,
    path: &mut Audit<'_>,
    noted: &mut Noted,
    spans: GuidedScan<'_>,
    report: Report,
    out: &mut O,
) -> Result<Progress, WriteFault>
    requires fresh { noted.old ≡ none_noted }
    ensures audits { (sent : List AnyMessage) → IsAudit sent [] path.old → length spans.entry.bytes < 2 ^ 64
        → IfOk result (λ progress. IsAudit sent (messages_in (spans_left
        (sight_of path.old.by sent) spans.entry)) path.new
        × (progress.bytes ≡ bytes_in (spans_left (sight_of path.old.by sent) spans.entry))
        × (progress.runs ≡ runs_in (spans_left (sight_of path.old.by sent) spans.entry))
        × (length (messages_in (spans_left (sight_of path.old.by sent) spans.entry)) ≤ length spans.entry.bytes)
        × (progress.messages ≡ length (messages_in (spans_left (sight_of path.old.by sent) spans.entry)))) }
    ensures noted { (sent : List AnyMessage) → IsAudit sent [] path.old → length spans.entry.bytes < 2 ^ 64
        → OnOk result (noted.new ≡ noted_of report.harts (known_all path.old.by sent)
        (known_all path.old.by (messages_in (spans_left (sight_of path.old.by sent) spans.entry)))) }
    ensures by { path.new.by ≡ path.old.by }
    ensures header { path.new.header ≡ path.old.header }
    ensures text { (sent : List AnyMessage) → IsAudit sent [] path.old → length spans.entry.bytes < 2 ^ 64
        → OnOk result (Appends (O.contents out.old) (O.contents out.new)
        (front_rows path.old.by report sent (spans_left (sight_of path.old.by sent) spans.entry))) }
    ensures begun { (sent : List AnyMessage) → IsAudit sent [] path.old → length spans.entry.bytes < 2 ^ 64
        → AppendsBeginning (front_rows path.old.by report sent (spans_left (sight_of path.old.by sent) spans.entry))
        (O.contents out.old) (O.contents out.new) }
    ensures fault { IfErr result (λ fault. fault ≡ WriteFault.Write) }
{
    let read = take_spans(progress, path, noted, spans, report, out);
    progress.end();
    read
}

/// Writes the names of the columns in a table. Then it takes the messages of RECEIVED that are left, and writes a row
/// for each that is not in order or skips a number, and for each run of bytes between them, but none in a summary.
/// Returns how far it was read then.
fn take_spans<V: ProgressSink, O: Write>(
    watch: &V,
    path: &mut Audit<'_>,
    noted: &mut Noted,
    spans: GuidedScan<'_>,
    report: Report,
    out: &mut O,
) -> Result<Progress, WriteFault>
    requires fresh { noted.old ≡ none_noted }
    ensures audits { (sent : List AnyMessage) → IsAudit sent [] path.old → length spans.entry.bytes < 2 ^ 64
        → IfOk result (λ progress. IsAudit sent (messages_in (spans_left
        (sight_of path.old.by sent) spans.entry)) path.new
        × (progress.bytes ≡ bytes_in (spans_left (sight_of path.old.by sent) spans.entry))
        × (progress.runs ≡ runs_in (spans_left (sight_of path.old.by sent) spans.entry))
        × (length (messages_in (spans_left (sight_of path.old.by sent) spans.entry)) ≤ length spans.entry.bytes)
        × (progress.messages ≡ length (messages_in (spans_left (sight_of path.old.by sent) spans.entry)))) }
    ensures noted { (sent : List AnyMessage) → IsAudit sent [] path.old → length spans.entry.bytes < 2 ^ 64
        → OnOk result (noted.new ≡ noted_of report.harts (known_all path.old.by sent)
        (known_all path.old.by (messages_in (spans_left (sight_of path.old.by sent) spans.entry)))) }
    ensures by { path.new.by ≡ path.old.by }
    ensures header { path.new.header ≡ path.old.header }
    ensures text { (sent : List AnyMessage) → IsAudit sent [] path.old → length spans.entry.bytes < 2 ^ 64
        → OnOk result (Appends (O.contents out.old) (O.contents out.new)
        (front_rows path.old.by report sent (spans_left (sight_of path.old.by sent) spans.entry))) }
    ensures begun { (sent : List AnyMessage) → IsAudit sent [] path.old → length spans.entry.bytes < 2 ^ 64
        → AppendsBeginning (front_rows path.old.by report sent (spans_left (sight_of path.old.by sent) spans.entry))
        (O.contents out.old) (O.contents out.new) }
    ensures fault { IfErr result (λ fault. fault ≡ WriteFault.Write) }
{
    let front = FrontRow(report.format);
    write_text(out, front)?;
    let mut left = spans;
    let mut progress = Progress::START;
    while let Some(passage) = left.next_passage(&*path) {
        write_passage(path, noted, passage, progress.messages, report, out)?;
        progress = progress.after(passage);
        note(watch, passage);
    }
    Ok(progress)
}

/// Tells of the message of a passage, if there is one.
fn note<V: ProgressSink>(watch: &V, passage: BorrowedSpan<'_>) {
    if matches!(passage, BorrowedSpan::Message { .. }) {
        watch.note(1);
    }
}

/// Takes the message of a passage, and writes its row or that of the passage's bytes, where it has one. So many
/// messages were taken before.
#[inline(always)]
fn write_passage<O: Write>(
    path: &mut Audit<'_>,
    noted: &mut Noted,
    passage: BorrowedSpan<'_>,
    place: u64,
    report: Report,
    out: &mut O,
) -> Result<(), WriteFault>
    ensures audits { (sent received : List AnyMessage) → IsAudit sent received path.old
        → IsAudit sent (received ++ messages_in (span_of passage.entry ∷ [])) path.new }
    ensures noted { (sent received : List AnyMessage) → IsAudit sent received path.old
        → OnOk result (noted.new
        ≡ noted_more path.old.by report.harts sent received noted.old place (span_of passage.entry)) }
    ensures by { path.new.by ≡ path.old.by }
    ensures header { path.new.header ≡ path.old.header }
    ensures text { (sent received : List AnyMessage) → IsAudit sent received path.old → place ≡ length received
        → OnOk result (Appends (O.contents out.old) (O.contents out.new)
        (span_row path.old.by report sent received (span_of passage.entry))) }
    ensures begun { (sent received : List AnyMessage) → IsAudit sent received path.old → place ≡ length received
        → AppendsBeginning (span_row path.old.by report sent received (span_of passage.entry))
        (O.contents out.old) (O.contents out.new) }
    ensures fault { IfErr result (λ fault. fault ≡ WriteFault.Write) }
{
    match passage {
        BorrowedSpan::Message { message, .. } => {
            let finding = path.examine_borrowed(message);
            if !report.harts.selects(message.hart) {
                return Ok(());
            }
            *noted = noted.after(place, finding);
            write_message(path, place, message, finding, report, out)
        }
        BorrowedSpan::Bytes { offset, count } => write_run(
            offset as u64,
            count as u64,
            report,
            out,
        ),
    }
}

/// Writes the row of a message at this place, but none in a summary, and none of one that is in order and skips no
/// number.
#[inline(always)]
fn write_message<O: Write>(
    path: &Audit<'_>,
    place: u64,
    message: BorrowedMessage<'_>,
    finding: Finding,
    report: Report,
    out: &mut O,
) -> Result<(), WriteFault>
    ensures text { (sent received : List AnyMessage) → IsAudit sent received path.now
        → OnOk result (Appends (O.contents out.old) (O.contents out.new)
        (row_or_none report sent place (record { message = message_of message.entry; finding = finding }))) }
    ensures begun { (sent received : List AnyMessage) → IsAudit sent received path.now
        → AppendsBeginning
        (row_or_none report sent place (record { message = message_of message.entry; finding = finding }))
        (O.contents out.old) (O.contents out.new) }
    ensures fault { IfErr result (λ fault. fault ≡ WriteFault.Write) }
{
    if report.summary || finding.is_plain() {
        return Ok(());
    }
    write_finding(path, place, message, finding, report.format, out)
}

/// Writes the row of a run of bytes of no message, but none in a summary.
fn write_run<O: Write>(
    offset: u64,
    count: u64,
    report: Report,
    out: &mut O,
) -> Result<(), WriteFault>
    ensures text { OnOk result (Appends (O.contents out.old) (O.contents out.new)
        (unless_summary report.summary (bytes_row report.format offset count))) }
    ensures begun { AppendsBeginning (unless_summary report.summary (bytes_row report.format offset count))
        (O.contents out.old) (O.contents out.new) }
    ensures fault { IfErr result (λ fault. fault ≡ WriteFault.Write) }
{
    if report.summary {
        return Ok(());
    }
    let row = BytesRow {
        format: report.format,
        offset,
        count,
    };
    write_text(out, row)?;
    Ok(())
}

/// Writes the row of a message at this place.
#[inline(never)]
fn write_finding<O: Write>(
    path: &Audit<'_>,
    place: u64,
    message: BorrowedMessage<'_>,
    finding: Finding,
    format: Format,
    out: &mut O,
) -> Result<(), WriteFault>
    ensures text { (sent received : List AnyMessage) → IsAudit sent received path.now
        → OnOk result (Appends (O.contents out.old) (O.contents out.new)
        (found_row format sent place (record { message = message_of message.entry; finding = finding }))) }
    ensures begun { (sent received : List AnyMessage) → IsAudit sent received path.now
        → AppendsBeginning
        (found_row format sent place (record { message = message_of message.entry; finding = finding }))
        (O.contents out.old) (O.contents out.new) }
    ensures fault { IfErr result (λ fault. fault ≡ WriteFault.Write) }
{
    let hart = message.hart;
    let number = message.number;
    let row = MessageRow {
        format,
        place,
        hart,
        number,
        finding,
        sent: path.sent(hart, number),
        came: message.payload,
    };
    write_text(out, row)?;
    Ok(())
}
