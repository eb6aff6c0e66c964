//! Logs that come in pieces, where a device or an allocation fails.

use crate::fixtures::{bytes_in, log_of};
use crate::same::same_at;
use cases::FailingReader;
use linked_list_allocator::LocalHeap;
use retire::{Event, LogFault, LogReader, MOST_ROWS, PieceBuffer, ReaderSource, Source};
use std::io::ErrorKind;
use std::process::Abort;

/// What is read of a source in pieces.
fn read_in_pieces<R: Abort + AllocGlobal, S: Source + Drop>(
    rt: &R,
    source: S,
) -> Result<Vec<Event>, LogFault> {
    let alloc = rt.alloc();
    let buffer = PieceBuffer::of_size(alloc, 32_768)?;
    let mut reader = LogReader::new(buffer, alloc, MOST_ROWS, source);
    let mut events = Vec::new(alloc);
    for _piece in 0..100_000u32 {
        let before = events.len();
        match reader.next(&mut events) {
            Ok(true) => same_at(rt, "a piece with a row", events.len() > before, true),
            Ok(false) => return Ok(events),
            Err(fault) => {
                same_at(rt, "again", reader.next(&mut events), Err(fault));
                return Err(fault);
            }
        }
    }
    Err(LogFault::Memory)
}

/// The text of a log with retirements at 2, 4, 6 and so on. The first 32,768 bytes end in row 3,175.
const MANY_ROWS: &str = r#""addr,itype,priv,cause,tval\n\(10000*2+2,0,3,,)""#;

/// The first calls give bytes, and then the device fails.
#[test]
fn device_fails_at_each_call(rt: HostRuntime) {
    let (text, log) = (bytes_in(&rt, MANY_ROWS), log_of(&rt, "10000*2+2,0,3,,"));
    for calls in 0..20usize {
        let source = FailingReader {
            rest: &text,
            most: 10_000,
            calls,
            kind: ErrorKind::TimedOut,
        };
        // The text has 107,846 bytes: eleven calls give them, and the twelfth finds the end.
        let found = read_in_pieces(&rt, ReaderSource::new(source));
        match found {
            Ok(events) => same_at(&rt, calls, (events == log, calls >= 12), (true, true)),
            Err(fault) => same_at(&rt, calls, (fault, calls >= 12), (LogFault::Read, false)),
        }
    }
}

/// Ends the test unless a list in so many bytes has memory for so many pieces of a text, and for no more.
fn has_memory_for<R: Abort + AllocGlobal>(rt: &R, text: &[u8], bytes: usize, pieces: usize) {
    let alloc = rt.alloc();
    let heap = LocalHeap::new(alloc, bytes).expect(rt, "memory");
    let buffer = PieceBuffer::new(alloc).expect(rt, "memory");
    let mut reader = LogReader::new(buffer, alloc, MOST_ROWS, ReaderSource::new(text));
    let mut events = Vec::new(&heap);
    for piece in 0..=pieces {
        let wanted = if piece < pieces {
            Ok(true)
        } else {
            Err(LogFault::Memory)
        };
        same_at(rt, (bytes, piece), reader.next(&mut events), wanted);
    }
}

/// The list has no memory for the first piece, or for a later one.
#[test]
fn memory_for_events_is_refused(rt: HostRuntime) {
    let text = bytes_in(&rt, MANY_ROWS);
    has_memory_for(&rt, &text, 0, 0);
    has_memory_for(&rt, &text, 400_000, 2);
}
