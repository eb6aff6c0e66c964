//! The subcommand `audit`, while messages come.

ghost use Rattle.std.specs.Prelude.{◌≡◌};
ghost use Rattle.path_commands.specs.Followed.{window_of};
ghost use Rattle.path_commands.specs.steps.Following.{AppendsSome, HasFollowed, IsStream};

use crate::ending::Ending;
use crate::hart_check::{check_hart, count_among, past_among};
use crate::live_lines::LinesText;
use crate::message_stream::MessageStream;
use crate::reading::is_undamaged;
use crate::reason::{Fault, sent_fault};
use crate::report::Report;
use crate::rows::{CountsRow, EndingRow};
use crate::sides::{are_unlike, by_packets, ended, is_whole};
use crate::total::Total;
use auditing::SentFault;
use command_inputs::{Audit as Asked, FileReader, Files, Format, Status};
use frames::{CaptureStart, Span, known_harts};
use live::{
    Arrived, LiveAudit, LiveRows, LookFault, ReadFault, Received, ReceivedFault, SourceFault,
};
use message::{HartRange, Header, MessageFault};
use output::{write_bytes, write_text};
use std::alloc::Global;
use std::io::Write;

/// The window where none is given.
const DEFAULT_WINDOW: u64 = 65_536;

/// How many messages may be in view before the front, and after it.
fn window_of(window: Option<u64>) -> u32
    ensures { result ≡ window_of window }
{
    window.unwrap_or(DEFAULT_WINDOW).min(u64::from(u32::MAX)) as u32
}

/// Opens the file at a path. No byte of it is read yet.
fn open<'a, F: Files>(files: &F, path: &'a str) -> Result<F::Reader, Fault<'a>>
    ensures { IsStream (F.content files.now path.entry.now) path.entry result }
{
    match files.open_file(path) {
        Ok(reader) => Ok(reader),
        Err(why) => Err(Fault::of_file(path, why)),
    }
}

/// Opens the file at a path, whose messages are to be read.
fn open_stream<'a, F: Files>(
    alloc: Global,
    files: &F,
    path: &'a str,
) -> Result<MessageStream<F::Reader>, Fault<'a>>
    ensures { IsStream (F.content files.now path.entry.now) path.entry result }
{
    let reader = match open(files, path) {
        Ok(reader) => reader,
        Err(why) => return Err(why),
    };
    match MessageStream::new(alloc, reader) {
        Ok(stream) => Ok(stream),
        Err(_) => Err(Fault::Memory),
    }
}

/// The fault of a capture after so many messages.
fn source_fault<'a>(path: &'a str, number: u64, why: SourceFault) -> Fault<'a> {
    match why {
        SourceFault::Read => Fault::Unreadable(path),
        SourceFault::Memory => Fault::Memory,
        SourceFault::Unread(why) => sent_fault(path, SentFault::Unread(number, why)),
    }
}

/// The fault of SENT, of which so many messages were read, at which the run ends.
fn look_fault<'a>(path: &'a str, number: u64, why: LookFault) -> Fault<'a> {
    match why {
        LookFault::Source(why) => source_fault(path, number, why),
        LookFault::Sent(ReadFault::Misplaced(why)) => sent_fault(
            path,
            SentFault::Misplaced(number.saturating_sub(1), why),
        ),
        LookFault::Sent(ReadFault::Full) => Fault::Memory,
    }
}

/// The header of a capture.
fn header_of<'a, R: FileReader + Drop>(
    path: &'a str,
    stream: &mut MessageStream<R>,
) -> Result<Option<Header>, Fault<'a>> {
    match stream.header() {
        Ok(header) => Ok(header),
        Err(why) => Err(source_fault(path, 0, why)),
    }
}

/// What is held of both captures.
#[derive(Drop)]
struct Following<R> {
    /// Their headers.
    headers: Headers,
    /// RECEIVED.
    coming: Coming<R>,
    /// What is held of their messages.
    audit: LiveAudit,
    /// What is found.
    lines: LinesText,
}

/// What both captures begin with.
#[derive(Clone, Copy)]
struct Headers {
    sent: Option<Header>,
    received: CaptureStart,
}

/// RECEIVED, as it is read.
#[derive(Drop)]
struct Coming<R> {
    /// The file.
    reader: R,
    /// What was read and is not taken yet.
    received: Received,
}

/// As [`crate::audit`], while messages come.
pub(crate) fn audit_live<'a, F: Files, O: Write>(
    alloc: Global,
    files: &F,
    asked: &Asked<'a>,
    harts: HartRange,
    out: &mut O,
) -> Result<Status, Fault<'a>>
    ensures { HasFollowed (F.content files.now) asked.now result (O.contents out.old) (O.contents out.new) }
{
    let mut sent = match open_stream(alloc, files, asked.sent) {
        Ok(sent) => sent,
        Err(why) => return Err(why),
    };
    let reader = match open(files, asked.received) {
        Ok(reader) => reader,
        Err(why) => return Err(why),
    };
    follow_both(alloc, asked, harts, &mut sent, reader, out)
}

/// The same, where both files are open.
fn follow_both<'a, R: FileReader + Drop, O: Write>(
    alloc: Global,
    asked: &Asked<'a>,
    harts: HartRange,
    sent: &mut MessageStream<R>,
    reader: R,
    out: &mut O,
) -> Result<Status, Fault<'a>>
    ensures { AppendsSome (O.contents out.old) (O.contents out.new) }
{
    let own = match begin(alloc, asked, harts, sent, reader) {
        Ok(own) => own,
        Err(why) => return Err(why),
    };
    let Following {
        headers,
        mut coming,
        mut audit,
        mut lines,
    } = own;
    match follow(asked, &mut audit, sent, &mut coming, &mut lines, out) {
        Ok(()) => {}
        Err(why) => return Err(why),
    }
    write_rest(asked, headers, &lines, out)
}

/// Reads the headers, SENT's first, and returns what is held before the first message.
fn begin<'a, R: FileReader + Drop>(
    alloc: Global,
    asked: &Asked<'a>,
    harts: HartRange,
    sent: &mut MessageStream<R>,
    reader: R,
) -> Result<Following<R>, Fault<'a>> {
    let header = header_of(asked.sent, sent)?;
    let known = known_harts(header);
    check_hart(asked, harts, usize::from(known))?;
    let how = by_packets(asked.packets);
    let mut coming = Coming {
        reader,
        received: Received::new(alloc, known)?,
    };
    let headers = Headers {
        sent: header,
        received: start_of(asked, &mut coming)?,
    };
    let report = Report {
        format: asked.format,
        harts,
        summary: asked.summary,
    };
    Ok(Following {
        headers,
        coming,
        audit: LiveAudit::new(alloc, window_of(asked.window), known, how)?,
        lines: LinesText::new(alloc, report, known)?,
    })
}

/// Writes the lines that are decided and not written yet.
fn write_lines<'a, O: Write>(lines: &mut LinesText, out: &mut O) -> Result<(), Fault<'a>>
    ensures { AppendsSome (O.contents out.old) (O.contents out.new) }
{
    if lines.text.is_empty() {
        return check_lines(lines);
    }
    match write_bytes(out, lines.text.as_slice()) {
        Ok(()) => {}
        Err(_) => return Err(Fault::Output),
    }
    match out.flush() {
        Ok(()) => {}
        Err(_) => return Err(Fault::Output),
    }
    lines.text.clear();
    check_lines(lines)
}

/// Stops where lines are missing, since an allocation failed.
fn check_lines<'a>(lines: &LinesText) -> Result<(), Fault<'a>> {
    if lines.failed {
        return Err(Fault::Memory);
    }
    Ok(())
}

/// Takes the messages of RECEIVED, and then ends the audit. Lines are written as they are decided.
fn follow<'a, R: FileReader + Drop, O: Write>(
    asked: &Asked<'a>,
    audit: &mut LiveAudit,
    sent: &mut MessageStream<R>,
    coming: &mut Coming<R>,
    lines: &mut LinesText,
    out: &mut O,
) -> Result<(), Fault<'a>>
    ensures { AppendsSome (O.contents out.old) (O.contents out.new) }
{
    for _ in 0..u64::MAX {
        let span = match next_received(asked, audit, sent, coming) {
            Ok(Some(span)) => span,
            Ok(None) => return follow_sent(asked, audit, sent, lines, out),
            Err(why) => return Err(why),
        };
        match pass(asked, audit, sent, span, lines, out) {
            Ok(()) => {}
            Err(why) => return Err(why),
        }
    }
    // No file has so many messages.
    Err(Fault::Memory)
}

/// The next message of RECEIVED, or the next run of bytes of no message; `None` at the end.
fn next_received<'a, R: FileReader + Drop>(
    asked: &Asked<'a>,
    audit: &mut LiveAudit,
    sent: &mut MessageStream<R>,
    coming: &mut Coming<R>,
) -> Result<Option<Span>, Fault<'a>> {
    let Coming { reader, received } = coming;
    match audit.next_received(received, reader, sent) {
        Ok(found) => Ok(found),
        Err(ReceivedFault::File(why)) => Err(Fault::of_file(asked.received, why)),
        Err(ReceivedFault::Sent(why)) => Err(look_fault(asked.sent, sent.messages(), why)),
    }
}

/// How RECEIVED begins.
fn start_of<'a, R: FileReader + Drop>(
    asked: &Asked<'a>,
    coming: &mut Coming<R>,
) -> Result<CaptureStart, Fault<'a>> {
    let Coming { reader, received } = coming;
    match received.begin(reader) {
        Ok(start) => Ok(start),
        Err(ReceivedFault::File(why)) => Err(Fault::of_file(asked.received, why)),
        Err(ReceivedFault::Sent(_)) => Err(Fault::Memory),
    }
}

/// Takes a message of RECEIVED, or passes a run of its bytes, and writes the lines that are decided.
fn pass<'a, R: FileReader + Drop, O: Write>(
    asked: &Asked<'a>,
    audit: &mut LiveAudit,
    sent: &mut MessageStream<R>,
    span: Span,
    lines: &mut LinesText,
    out: &mut O,
) -> Result<(), Fault<'a>>
    ensures { AppendsSome (O.contents out.old) (O.contents out.new) }
{
    match span {
        Span::Frame { message, .. } => {
            let place = lines.read.messages;
            lines.read = lines.read.with_message();
            take(asked, audit, sent, Arrived { place, message }, lines, out)
        }
        Span::Bytes { offset, count } => {
            lines.pass_bytes(offset as u64, count as u64);
            write_lines(lines, out)
        }
    }
}

/// Takes a message of RECEIVED, and writes the lines that are decided.
fn take<'a, R: FileReader + Drop, O: Write>(
    asked: &Asked<'a>,
    audit: &mut LiveAudit,
    sent: &mut MessageStream<R>,
    one: Arrived,
    lines: &mut LinesText,
    out: &mut O,
) -> Result<(), Fault<'a>>
    ensures { AppendsSome (O.contents out.old) (O.contents out.new) }
{
    let taken = audit.take(one, sent, lines);
    match write_lines(lines, out) {
        Ok(()) => looked(asked, sent.messages(), taken),
        Err(why) => Err(why),
    }
}

/// What was found, or the fault of SENT, of which so many messages were read.
fn looked<'a, T>(
    asked: &Asked<'a>,
    number: u64,
    found: Result<T, LookFault>,
) -> Result<T, Fault<'a>> {
    match found {
        Ok(found) => Ok(found),
        Err(why) => Err(look_fault(asked.sent, number, why)),
    }
}

/// RECEIVED has ended: reads SENT to its end, and writes the lines that are decided.
fn follow_sent<'a, R: FileReader + Drop, O: Write>(
    asked: &Asked<'a>,
    audit: &mut LiveAudit,
    sent: &mut MessageStream<R>,
    lines: &mut LinesText,
    out: &mut O,
) -> Result<(), Fault<'a>>
    ensures { AppendsSome (O.contents out.old) (O.contents out.new) }
{
    for _ in 0..u64::MAX {
        match read_sent(asked, audit, sent, lines, out) {
            Ok(true) => return end(asked, audit, sent, lines, out),
            Ok(false) => {}
            Err(why) => return Err(why),
        }
    }
    // SENT has not so many messages.
    Err(Fault::Memory)
}

/// Reads one message more of SENT, and writes the lines that are decided. Returns whether SENT has ended.
fn read_sent<'a, R: FileReader + Drop, O: Write>(
    asked: &Asked<'a>,
    audit: &mut LiveAudit,
    sent: &mut MessageStream<R>,
    lines: &mut LinesText,
    out: &mut O,
) -> Result<bool, Fault<'a>>
    ensures { AppendsSome (O.contents out.old) (O.contents out.new) }
{
    let read = audit.read_sent(sent, lines);
    match write_lines(lines, out) {
        Ok(()) => looked(asked, sent.messages(), read),
        Err(why) => Err(why),
    }
}

/// Ends the audit, where SENT has ended, and writes the lines that are left.
fn end<'a, R: FileReader + Drop, O: Write>(
    asked: &Asked<'a>,
    audit: &mut LiveAudit,
    sent: &mut MessageStream<R>,
    lines: &mut LinesText,
    out: &mut O,
) -> Result<(), Fault<'a>>
    ensures { AppendsSome (O.contents out.old) (O.contents out.new) }
{
    let ended = audit.end(sent, lines);
    match write_lines(lines, out) {
        Ok(()) => looked(asked, sent.messages(), ended),
        Err(why) => Err(why),
    }
}

/// Writes the rows of the harts and what follows them, and returns how the run ends.
fn write_rest<'a, O: Write>(
    asked: &Asked<'a>,
    headers: Headers,
    lines: &LinesText,
    out: &mut O,
) -> Result<Status, Fault<'a>>
    ensures { AppendsSome (O.contents out.old) (O.contents out.new) }
{
    let count = sent_harts(headers.sent, &lines.rows);
    match check_hart(asked, lines.report.harts, count) {
        Ok(()) => {}
        Err(why) => return Err(why),
    }
    let total = match write_rows(lines, count, out) {
        Ok(total) => total,
        Err(why) => return Err(why),
    };
    let start = headers.received;
    let unlike = are_unlike(headers.sent, start.header, start.fault);
    let undamaged = is_undamaged(start.fault, lines.read);
    let ending = Ending {
        harts: count_among(lines.report.harts, count),
        total,
        messages: lines.read.messages,
        strangers: lines.noted.strangers,
        bytes: lines.read.bytes,
        runs: lines.read.runs,
        unlike,
        first: lines.noted.first,
        whole: is_whole(total.whole, lines.noted.strangers, unlike, undamaged),
    };
    write_ending(asked, start.fault, lines.report.format, ending, out)
}

/// Writes the last rows, and returns how the run ends.
fn write_ending<'a, O: Write>(
    asked: &Asked<'a>,
    fault: Option<MessageFault>,
    format: Format,
    ending: Ending,
    out: &mut O,
) -> Result<Status, Fault<'a>>
    ensures { AppendsSome (O.contents out.old) (O.contents out.new) }
{
    let row = EndingRow { format, ending };
    match write_text(out, row) {
        Ok(()) => {}
        Err(_) => return Err(Fault::Output),
    }
    match out.flush() {
        Ok(()) => ended(asked.received, fault, ending.whole),
        Err(_) => Err(Fault::Output),
    }
}

/// How many harts SENT has: as many as its header counts, or without one those up to the highest that has a message.
fn sent_harts(header: Option<Header>, rows: &LiveRows) -> usize {
    if let Some(header) = header {
        return usize::from(header.harts);
    }
    let mut count = 0;
    for hart in 0..rows.harts() {
        if rows.row(hart).row.tally.sent > 0 {
            count = hart + 1;
        }
    }
    count
}

/// Writes the rows of the harts that are asked for, of so many, and returns what is found of them together.
fn write_rows<'a, O: Write>(
    lines: &LinesText,
    count: usize,
    out: &mut O,
) -> Result<Total, Fault<'a>>
    ensures { AppendsSome (O.contents out.old) (O.contents out.new) }
{
    let mut total = Total::new().with_too_late(0);
    let past = past_among(lines.report.harts, count).min(lines.rows.harts());
    for hart in usize::from(lines.report.harts.first)..past {
        let own = lines.rows.row(hart);
        total = total.add(own.row).with_too_late(own.too_late);
        let row = CountsRow {
            format: lines.report.format,
            hart,
            row: own.row,
            too_late: Some(own.too_late),
        };
        match write_text(out, row) {
            Ok(()) => {}
            Err(_) => return Err(Fault::Output),
        }
    }
    Ok(total)
}
