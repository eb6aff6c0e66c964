//! Each request for memory of what reads logs, and of what writes them, is refused in turn.

use crate::fixtures::{bytes_in, log_of};
use crate::same::same_at;
use cases::Refusing;
use retire::{Event, LogFault, WriteFault, read_log, read_log_from_slice, write_log};
use std::alloc::Global;
use std::process::Abort;

#[test]
fn one_request_is_refused(rt: HostRuntime) {
    let heap = Refusing::new(rt.alloc(), 1);
    for place in 0..3u64 {
        let before = heap.requests();
        let list: Result<Vec<u8, &Refusing<Global>>, _> = Vec::with_capacity(&heap, 1);
        let found = (before, list.is_ok(), heap.has_refused());
        same_at(&rt, place, found, (place, place != 1, place > 0));
    }
}

/// By which call a log is read.
type By = &'static str;

const READER: By = "reader";

const SLICE: By = "slice";

/// The header of a log, a row, and 32 rows after it with numbers of the same length; and the same with short rows.
const LONG: &str = r#""addr,itype,priv,cause,tval\n80000000,0,3,,\n\[32*80000002,0,3,,]""#;

const SHORT: &str = r#""addr,itype,priv,cause,tval\n80000000,0,3,,\n\[32*0,0,3,,]""#;

/// The same, where `csv` reads the first row, since its first field goes on after a closing quote.
const QUOTED_LONG: &str = r#""addr,itype,priv,cause,tval\n"8"0000000,0,3,,\n\[32*80000002,0,3,,]""#;

const QUOTED_SHORT: &str = r#""addr,itype,priv,cause,tval\n"8"0000000,0,3,,\n\[32*0,0,3,,]""#;

/// Their rows.
const LONG_ROWS: &str = "80000000,0,3,, 32*80000002,0,3,,";

const SHORT_ROWS: &str = "80000000,0,3,, 32*0,0,3,,";

/// How a log is read, its text, its rows, and the result where each request is refused: `m` is memory, and `e` the events.
///
/// A reader's list grows to 4, 8, 16, 32 and 64 events. The list of a text in memory first asks for capacity by the text's
/// length, and grows as a reader's does where that is refused. Where rows are short that capacity is too small, and the
/// list asks once more: at a plain row, or at one that `csv` reads since it reads the first row. `csv` takes its memory
/// from `Global` alone.
const LOGS: [(By, &str, &str, &str); 6] = [
    (READER, LONG, LONG_ROWS, "mmmmm"),
    (READER, QUOTED_SHORT, SHORT_ROWS, "mmmmm"),
    (SLICE, LONG, LONG_ROWS, "e"),
    (SLICE, SHORT, SHORT_ROWS, "em"),
    (SLICE, QUOTED_LONG, LONG_ROWS, "e"),
    (SLICE, QUOTED_SHORT, SHORT_ROWS, "em"),
];

/// What is read of a text, with memory of a heap.
fn read_by<'h, R: AllocGlobal>(
    rt: &R,
    by: By,
    heap: &'h Refusing<Global>,
    text: &[u8],
) -> Result<Vec<Event, &'h Refusing<Global>>, LogFault> {
    if by == READER {
        read_log(heap, rt.alloc(), text)
    } else {
        read_log_from_slice(heap, rt.alloc(), text)
    }
}

/// Ends the test unless this is the result where each request is refused, and the events where none is.
fn each_request<R: Abort + AllocGlobal>(
    rt: &R,
    log: usize,
    by: By,
    text: &[u8],
    want: &[Event],
    ends: &[u8],
) {
    for place in 0..ends.len() + 1 {
        let heap = Refusing::new(rt.alloc(), place as u64);
        let read = read_by(rt, by, &heap, text);
        let is_memory = ends.get(place) == Some(&b'm');
        let refused = heap.has_refused() == (place < ends.len());
        match read {
            Ok(events) => {
                let found = (events.as_slice(), is_memory, refused);
                same_at(rt, (log, place), found, (want, false, true));
            }
            Err(fault) => {
                let found = (fault, is_memory, refused);
                same_at(rt, (log, place), found, (LogFault::Memory, true, true));
            }
        }
    }
}

#[test]
fn each_request_of_a_reading(rt: HostRuntime) {
    for (log, (by, text, rows, ends)) in LOGS.iter().enumerate() {
        let (text, want) = (bytes_in(&rt, *text), log_of(&rt, *rows));
        each_request(&rt, log, *by, &text, &want, ends.as_bytes());
    }
}

// Capacity for the text is asked for once, before anything is written.
#[test]
fn each_request_of_a_writing(rt: HostRuntime) {
    let (text, events) = (bytes_in(&rt, LONG), log_of(&rt, LONG_ROWS));
    for place in 0..2usize {
        let heap = Refusing::new(rt.alloc(), place as u64);
        let mut sink = Vec::new(rt.alloc());
        let fault = write_log(&heap, &mut sink, &events).err();
        let (fault_wanted, wanted) = if place == 0 {
            (Some(WriteFault::Memory), b"".as_slice())
        } else {
            (None, text.as_slice())
        };
        let found = (fault, sink.as_slice(), heap.has_refused());
        same_at(&rt, place, found, (fault_wanted, wanted, place == 0));
    }
}
