//! Cases of the texts of logs (`retire`) and of schedules (`schedule`).

use cases::{Case, events_of, put_quoted, put_rows, text_of};
use funnel::{Turn, read_schedule};
use output::write_text;
use retire::{
    Event, LogFault, LogReader, MOST_ROWS, PieceBuffer, ReaderSource, read_log,
    read_log_from_slice, write_log,
};
use std::alloc::Global;
use std::io::Read;

/// The header of a log.
const HEADER: &str = "addr,itype,priv,cause,tval\n";

/// Appends what is read of a text.
fn put_read(case: &Case, read: Result<Vec<Event>, LogFault>) {
    match read {
        Ok(events) => put_rows(case, events.as_slice()),
        Err(fault) => case.put_shown(fault),
    }
}

/// What is read of a reader in pieces of so many bytes, of at most so many rows. A fault comes again, and each piece has a
/// row.
fn read_in_pieces<R: Read + Drop>(
    alloc: Global,
    size: usize,
    most: u32,
    reader: R,
    limit: usize,
) -> Result<Vec<Event>, LogFault> {
    let buffer = PieceBuffer::of_size(alloc, size)?;
    let mut reader = LogReader::new(buffer, alloc, most, ReaderSource::new(reader));
    let mut events = Vec::new(alloc);
    for _ in 0..limit {
        let before = events.len();
        match reader.next(&mut events) {
            Ok(true) if events.len() > before => {}
            Ok(true) => return Err(LogFault::Memory),
            Ok(false) => return Ok(events),
            Err(fault) => {
                if reader.next(&mut events) != Err(fault) {
                    return Err(LogFault::Memory);
                }
                return Err(fault);
            }
        }
    }
    Err(LogFault::Memory)
}

/// Appends where something else is read of a text that is cut into three parts, each of which comes in a call of its own,
/// where the last begins at a place: the part in the middle has up to three bytes.
fn put_cuts(case: &Case, text: &[u8], second: usize, most: u32) {
    let limit = text.len().saturating_add(2);
    let (before, last) = text.split_at(second.min(text.len()));
    for first in second.saturating_sub(3)..second.saturating_add(1) {
        let (front, middle) = before.split_at(first.min(before.len()));
        let parts = front.chain(middle).chain(last);
        put_read(case, read_in_pieces(case.alloc, 1, most, parts, limit));
        case.end_way("cut");
    }
}

/// `read "TEXT"`: the events of a log's text, from a reader, from memory, and in pieces.
pub(crate) fn read_case(case: &Case) {
    let alloc = case.alloc;
    let text = text_of(case);
    let text = text.as_slice();
    put_read(case, read_log(alloc, alloc, text));
    case.end_first_way();
    put_read(case, read_log_from_slice(alloc, alloc, text));
    case.end_way("in memory");
    let limit = text.len().saturating_add(2);
    put_read(case, read_in_pieces(alloc, 32_768, MOST_ROWS, text, limit));
    case.end_way("in pieces");
}

/// `read-most ROWS "TEXT"`: the events of a log's text that may have so many rows, in pieces, wherever it is cut.
pub(crate) fn read_most_case(case: &Case) {
    let most = case.next_decimal().min(u64::from(u32::MAX)) as u32;
    let text = text_of(case);
    let text = text.as_slice();
    let limit = text.len().saturating_add(2);
    put_read(case, read_in_pieces(case.alloc, 1, most, text, limit));
    case.end_first_way();
    for second in 0..text.len().saturating_add(1) {
        put_cuts(case, text, second, most);
    }
}

/// `write ROWS`: the text of a log after its header, which has to be read back.
pub(crate) fn write_case(case: &Case) {
    let alloc = case.alloc;
    let events = events_of(case);
    let mut text = Vec::new(alloc);
    let written = write_log(alloc, &mut text, events.as_slice());
    case.granted(written);
    let Some(rows) = text.as_slice().strip_prefix(HEADER.as_bytes()) else {
        return case.put_word("no header");
    };
    put_quoted(case, rows);
    match read_log(alloc, alloc, text.as_slice()) {
        Ok(back) if back.as_slice() == events.as_slice() => {}
        _ => case.put_word("is not read back"),
    }
}

/// Whether turns are the same two again and again.
fn are_pairs(turns: &[Turn]) -> bool {
    for (place, turn) in turns.iter().enumerate() {
        if turns.get(place % 2) != Some(turn) {
            return false;
        }
    }
    turns.len() > 8 && turns.len() % 2 == 0
}

/// Appends turns. Two that come again and again are named once.
fn put_turns(case: &Case, turns: &[Turn]) {
    let mut shown = turns;
    if are_pairs(turns) {
        case.put_filled("# times", &[turns.len() as u64 / 2]);
        shown = turns.get(..2).unwrap_or(&[]);
    }
    for turn in shown {
        match turn {
            Turn::Hart(hart) => case.put_word(*hart),
            Turn::Collect => case.put_word("c"),
        }
    }
}

/// `schedule HARTS "TEXT"`: the turns of a schedule. Two that come again and again are named once.
pub(crate) fn schedule_case(case: &Case) {
    let harts = case.next_short();
    let text = text_of(case);
    match read_schedule(case.alloc, harts, text.as_slice()) {
        Ok(turns) => put_turns(case, turns.as_slice()),
        Err(fault) => case.put_word(fault),
    }
}

/// `text-line "TEXT"`: a text that is written with a line's end.
pub(crate) fn line_case(case: &Case) {
    let text = text_of(case);
    let Some(text) = case.read(str::from_utf8(text.as_slice())) else {
        return;
    };
    let mut written = Vec::new(case.alloc);
    let done = write_text(&mut written, format_args!("{text}\n"));
    case.granted(done);
    put_quoted(case, written.as_slice());
}
