//! Readers and writers that fail, or move one byte a call.

use crate::fixtures::message;
use crate::same::same_at;
use cases::{FailingReader, FailingWriter};
use message::{
    Header, Message, MessageFault, Start, read_message, read_start, write_header, write_message,
};
use payload::Mode;
use std::io::ErrorKind;
use std::process::Abort;

/// The bytes of a message.
const WHOLE: [u8; 16] = [7, 0, 9, 0, 0, 0, 0, 0, 0, 0, 5, 0x73, 0, 0, 0, 0x20];

/// A header, and its settings.
const HEADER: [u8; 16] = [
    0xff, 0xff, 0x72, 0x76, 0x74, 0x72, 0x61, 0x63, 0x65, 0x32, 0, 1, 0x34, 0x12, 0x21, 0x03,
];

const SETTINGS: Header = Header {
    mode: Mode::Full,
    period: 0x1234,
    harts: 0x0321,
};

/// A reader of some bytes, one a call, that fails with an error of this kind at one call, after this many.
fn reader_of(rest: &[u8], calls: usize, kind: ErrorKind) -> FailingReader<'_> {
    FailingReader {
        rest,
        most: 1,
        calls,
        kind,
    }
}

/// A writer that takes a byte a call, and fails at one call, after this many.
fn writer_of<R: AllocGlobal>(rt: &R, calls: usize) -> FailingWriter {
    FailingWriter {
        held: Vec::new(rt.alloc()),
        most: 1,
        calls,
    }
}

/// Ends the test unless reading this many bytes of the message, and of the header, returns this fault.
pub(crate) fn are_refused(
    rt: &impl Abort,
    length: usize,
    calls: usize,
    kind: ErrorKind,
    fault: MessageFault,
) {
    let length = length.min(16);
    let mut reader = reader_of(&WHOLE[..length], calls, kind);
    let place = (kind, length, calls);
    let start = read_start(&mut reader_of(&HEADER[..length], calls, kind));
    let found = (read_message(&mut reader), start.err());
    same_at(rt, place, found, (Err(fault), Some(fault)));
}

/// Ends the test unless the message and the header are read by readers that fail at one call, and reading after the
/// message returns this.
pub(crate) fn are_read(
    rt: &impl Abort,
    calls: usize,
    kind: ErrorKind,
    behind: Result<Option<Message>, MessageFault>,
) {
    let mut reader = reader_of(&WHOLE, calls, kind);
    let sent = message(rt, 7, 9, &[0x73, 0, 0, 0, 0x20]);
    let read = (read_message(&mut reader), read_message(&mut reader));
    let start = read_start(&mut reader_of(&HEADER, calls, kind));
    let is_start = start == Ok(Start::Version2(SETTINGS));
    let wanted = ((Ok(Some(sent)), behind), true);
    same_at(rt, (kind, calls), (read, is_start), wanted);
}

/// Readers of one byte a call, which fail at each place, and where that is after all that is read.
#[test]
fn one_read_fails_at_each_place(rt: HostRuntime) {
    for calls in 0..16 {
        are_refused(&rt, 16, calls, ErrorKind::UnexpectedEof, MessageFault::Read);
    }
    let timeout = ErrorKind::TimedOut;
    are_refused(&rt, 7, 100, timeout, MessageFault::Short);
    are_read(&rt, 16, timeout, Err(MessageFault::Read));
    are_read(&rt, 5, ErrorKind::Interrupted, Ok(None));
}

/// Ends the test unless a message, and a header, are written so to writers that fail at one call, after this many. Each
/// writer then holds as many of the first bytes.
pub(crate) fn are_written<R: Abort + AllocGlobal>(
    rt: &R,
    calls: usize,
    end: Result<(), MessageFault>,
) {
    let length = calls.min(16);
    let sent = message(rt, 7, 9, &[0x73, 0, 0, 0, 0x20]);
    let (mut message, mut header) = (writer_of(rt, calls), writer_of(rt, calls));
    let ends = (
        write_message(&mut message, &sent),
        write_header(&mut header, &SETTINGS),
    );
    let held = (message.held.as_slice(), header.held.as_slice());
    let wanted = ((end, end), (&WHOLE[..length], &HEADER[..length]));
    same_at(rt, calls, (ends, held), wanted);
}

#[test]
fn one_write_fails_at_each_place(rt: HostRuntime) {
    for calls in 0..16 {
        are_written(&rt, calls, Err(MessageFault::Write));
    }
    are_written(&rt, 16, Ok(()));
}
