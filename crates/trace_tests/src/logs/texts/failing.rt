//! Devices that fail, and allocations that fail.

use super::{RETIRED, ROW, text_of_rows};
use crate::same::same_at;
use cases::{FailingReader, FailingWriter};
use linked_list_allocator::LocalHeap;
use retire::{Event, LogFault, WriteFault, read_log, read_log_from_slice, write_log};
use std::io::ErrorKind;
use std::process::Abort;

/// Readers that give at most `most` bytes a call, and fail after fewer calls than are needed, do not read a text of two
/// rows; the others do.
fn is_read<R: Abort + AllocGlobal>(rt: &R, text: &[u8], most: usize) {
    let mut failed = 0usize;
    for calls in 0..200 {
        let source = FailingReader {
            rest: text,
            most,
            calls,
            kind: ErrorKind::TimedOut,
        };
        match read_log(rt.alloc(), rt.alloc(), source) {
            Ok(events) => same_at(rt, (most, calls), events.len(), 2),
            Err(fault) => {
                same_at(rt, most, (fault, calls), (LogFault::Read, failed));
                failed = failed.saturating_add(1);
            }
        }
    }
    // One call finds the end of the text.
    let enough = text.len() < failed.saturating_mul(most) && failed < 200;
    same_at(rt, (failed, most), enough, true);
}

#[test]
fn reader_fails_at_each_call(rt: HostRuntime) {
    let text = text_of_rows(&rt, "80000000,0,3,,\n80000004,2,3,7,0", 1);
    for most in [1, 7, 1000] {
        is_read(&rt, &text, most);
    }
}

/// Whether a log is written whole to a writer that takes at most `most` bytes a call and fails after `calls` calls. The
/// writer holds the text; or it holds a beginning of it, and then the call returned Write.
fn is_written<R: Abort + AllocGlobal>(
    rt: &R,
    events: &[Event],
    whole: &[u8],
    most: usize,
    calls: usize,
) -> bool {
    let mut sink = FailingWriter {
        held: Vec::new(rt.alloc()),
        most,
        calls,
    };
    let end = write_log(rt.alloc(), &mut sink, events).err();
    let fails = sink.held.len() < whole.len();
    let begins = whole.starts_with(&sink.held);
    let found = (end, begins);
    let wanted = (fails.then_some(WriteFault::Write), true);
    same_at(rt, (most, calls), found, wanted);
    !fails
}

/// Writers that fail after fewer calls than are needed do not take a log of `count` rows whole; the others do.
fn fail_first<R: Abort + AllocGlobal>(rt: &R, count: usize, most: usize, limit: usize) {
    let events = vec![in rt.alloc(); RETIRED; count].expect(rt, "memory");
    let whole = text_of_rows(rt, ROW, count);
    let mut failed = 0usize;
    for calls in 0..limit {
        if !is_written(rt, &events, &whole, most, calls) {
            same_at(rt, (most, "calls that are too few"), calls, failed);
            failed = failed.saturating_add(1);
        }
    }
    let enough = whole.len() <= failed.saturating_mul(most) && failed < limit;
    same_at(rt, (failed, most), enough, true);
}

/// A byte a call; and more text than `write_log` holds at a time.
#[test]
fn writer_fails_at_each_call(rt: HostRuntime) {
    for (count, most, limit) in [(3, 1, 80), (10_000, 10_007, 20), (10_000, 1_000_000, 20)] {
        fail_first(&rt, count, most, limit);
    }
}

#[test]
fn memory_is_refused(rt: HostRuntime) {
    let alloc = rt.alloc();
    let heap = LocalHeap::new(alloc, 0).expect(&rt, "memory");
    let text = text_of_rows(&rt, ROW, 1);
    let read = read_log(&heap, alloc, text.as_slice()).err();
    let in_memory = read_log_from_slice(&heap, alloc, &text).err();
    let mut sink = Vec::new(alloc);
    let written = write_log(&heap, &mut sink, &[RETIRED]).err();
    let fault = Some(LogFault::Memory);
    let wanted = (fault, fault, Some(WriteFault::Memory), 0);
    same_at(
        &rt,
        "no memory",
        (read, in_memory, written, sink.len()),
        wanted,
    );
}
