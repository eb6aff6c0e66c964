//! What shows only from outside while something is read: who is told of messages, and how much of a log is read before
//! its first events.

use captures::{decode_harts, decode_watched};
use cases::{Case, bytes_of};
use message::{ProgressSink, range_of};
use retire::{LogReader, MOST_ROWS, PieceBuffer, ReaderSource};
use rvclass::Program;
use std::cell::Cell;
use std::io;
use std::io::Read;

/// Counts the messages that it is told of.
#[derive(Drop)]
struct Noted {
    messages: Cell<usize>,
}

impl ProgressSink for Noted {
    fn note(&self, messages: usize) {
        let before = self.messages.get();
        self.messages.set(before.saturating_add(messages));
    }
}

/// `told HARTS RANGE BYTES`: of how many messages the watch is told while the capture of so many harts is decoded, or,
/// where the range is not `all`, what it has of the harts of the range.
pub(crate) fn told(case: &Case, program: &Program) {
    let (harts, range, digits) = (case.word(), case.word(), case.text());
    let harts = case.short(harts);
    let bytes = bytes_of(case, digits);
    let bytes = bytes.as_slice();
    let told = Noted {
        messages: Cell::new(0),
    };
    let outcome = match range_of(range) {
        Some(range) => decode_harts(case.alloc, program, harts, range, bytes, &told),
        None => decode_watched(case.alloc, program, harts, bytes, &told),
    };
    case.put_shown(told.messages.get());
    case.put(" messages");
    match outcome {
        Ok(outcome) if outcome.fault.is_some() => case.put_part("a fault"),
        Ok(_) => {}
        Err(_) => case.no_memory(),
    }
}

/// A reader of bytes that counts how many it gave.
#[derive(Drop)]
struct Counted<'t> {
    rest: &'t [u8],
    given: &'t Cell<usize>,
}

impl Read for Counted<'_> {
    fn read(&mut self, buf: &mut [u8]) -> io::Result<usize> {
        let count = (&mut self.rest).read(buf)?;
        self.given.set(self.given.get().saturating_add(count));
        Ok(count)
    }
}

/// The header of a log.
const HEADER: &str = "addr,itype,priv,cause,tval\n";

/// `piece SIZE COUNT ROW`: how many events are in the first piece, of so many bytes, of a log with this row so many
/// times, and how many bytes are read for it.
pub(crate) fn piece(case: &Case) {
    let (size, count, row) = (case.word(), case.word(), case.text());
    let (size, count) = (case.decimal(size), case.decimal(count));
    let text = case.over("");
    text.put(HEADER);
    for _ in 0..count {
        text.put(row);
        text.put("\n");
    }
    case.join(&text);
    let text = text.taken();
    let given = Cell::new(0usize);
    let source = ReaderSource::new(Counted {
        rest: text.as_bytes(),
        given: &given,
    });
    let Ok(buffer) = PieceBuffer::of_size(case.alloc, size as usize) else {
        return case.no_memory();
    };
    let mut reader = LogReader::new(buffer, case.alloc, MOST_ROWS, source);
    let mut events = Vec::new(case.alloc);
    if reader.next(&mut events).is_err() {
        case.unread();
    }
    let read = [events.len() as u64, given.get() as u64];
    case.put_filled("# events of # bytes", &read);
}
