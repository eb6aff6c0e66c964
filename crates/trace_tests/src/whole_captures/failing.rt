//! Captures and lines to writers that fail.

use super::{copies_of, write_capture};
use crate::fixtures::{NOPS, log_of, message, program_of};
use crate::same::same_at;
use captures::hex_lines;
use cases::FailingWriter;
use legalpath::LegalLog;
use message::{MessageFault, Version};
use payload::Mode;
use retire::WriteFault;
use std::process::Abort;

/// The capture of two harts of two instructions, in version 2 at the period 1,024. In version 1 it has no header.
const DIFFERENTIAL: [u8; 120] = [
    0xff, 0xff, 0x72, 0x76, 0x74, 0x72, 0x61, 0x63, 0x65, 0x32, 0, 0, 0, 4, 2, 0, // the header
    0, 0, 0, 0, 0, 0, 0, 0, 0, 0, 1, 0x1f, // opens
    0, 0, 1, 0, 0, 0, 0, 0, 0, 0, 5, 0x73, 0, 0, 0, 0x20, // the first instruction
    0, 0, 2, 0, 0, 0, 0, 0, 0, 0, 1, 0x0a, // the second one
    0, 0, 3, 0, 0, 0, 0, 0, 0, 0, 1, 0x4f, // closes
    1, 0, 0, 0, 0, 0, 0, 0, 0, 0, 1, 0x1f, // opens hart 1
    1, 0, 1, 0, 0, 0, 0, 0, 0, 0, 5, 0x73, 0, 0, 0, 0x20, // the first instruction
    1, 0, 2, 0, 0, 0, 0, 0, 0, 0, 1, 0x0a, // the second one
    1, 0, 3, 0, 0, 0, 0, 0, 0, 0, 1, 0x4f, // closes
];

/// The same with full addresses.
const FULL: [u8; 130] = [
    0xff, 0xff, 0x72, 0x76, 0x74, 0x72, 0x61, 0x63, 0x65, 0x32, 0, 1, 0, 4, 2, 0, // the header
    0, 0, 0, 0, 0, 0, 0, 0, 0, 0, 2, 0x1f, 1, // opens
    0, 0, 1, 0, 0, 0, 0, 0, 0, 0, 5, 0x73, 0, 0, 0, 0x20, // the first instruction
    0, 0, 2, 0, 0, 0, 0, 0, 0, 0, 5, 0x0a, 0, 0, 0, 1, // the second one
    0, 0, 3, 0, 0, 0, 0, 0, 0, 0, 1, 0x4f, // closes
    1, 0, 0, 0, 0, 0, 0, 0, 0, 0, 2, 0x1f, 1, // opens hart 1
    1, 0, 1, 0, 0, 0, 0, 0, 0, 0, 5, 0x73, 0, 0, 0, 0x20, // the first instruction
    1, 0, 2, 0, 0, 0, 0, 0, 0, 0, 5, 0x0a, 0, 0, 0, 1, // the second one
    1, 0, 3, 0, 0, 0, 0, 0, 0, 0, 1, 0x4f, // closes
];

/// A writer that takes a byte a call, and fails after this many calls, holds as many bytes of the whole. The call
/// returns Write just where that is not all.
fn is_cut<R: Abort + AllocGlobal>(
    rt: &R,
    logs: &[LegalLog<'_>],
    settings: (Version, Mode),
    calls: usize,
    whole: &[u8],
) {
    let mut sink = FailingWriter {
        held: Vec::new(rt.alloc()),
        most: 1,
        calls,
    };
    let end = write_capture(rt, logs, 1024, settings, &mut sink).err();
    let fails = calls < whole.len();
    let begun = whole.get(..calls.min(whole.len()));
    let wanted = (fails.then_some(MessageFault::Write), begun);
    let found = (end, Some(sink.held.as_slice()));
    same_at(rt, (settings, calls), found, wanted);
}

/// The capture of two harts to writers that fail at each byte, and to one that does not.
fn are_cut<R: Abort + AllocGlobal>(
    rt: &R,
    logs: &[LegalLog<'_>],
    settings: (Version, Mode),
    whole: &[u8],
) {
    for calls in 0..whole.len().saturating_add(1) {
        is_cut(rt, logs, settings, calls, whole);
    }
}

#[test]
fn writer_fails_at_each_byte(rt: HostRuntime) {
    let program = program_of(&rt, NOPS);
    let log = log_of(&rt, "80000000,0,3,, 80000004,0,3,,");
    let logs = copies_of(&rt, &program, &log, 2);
    for (mode, whole) in [
        (Mode::Differential, DIFFERENTIAL.as_slice()),
        (Mode::Full, &FULL),
    ] {
        are_cut(
            &rt,
            &logs,
            (Version::One, mode),
            whole.get(16..).unwrap_or(&[]),
        );
        are_cut(&rt, &logs, (Version::Two, mode), whole);
    }
}

/// The lines of the packet that opens a trace and of the first instruction to a writer that fails after nine bytes: it
/// holds these.
#[test]
fn line_writer_fails(rt: HostRuntime) {
    let first = b"\x73\0\0\0\x20".as_slice();
    for (open, begun) in [
        (b"\x1f".as_slice(), b"0 0 1f\n0 ".as_slice()),
        (b"\x1f\x01", b"0 0 1f01\n"),
    ] {
        let payloads = [
            message(&rt, 0, 0, open).payload,
            message(&rt, 0, 1, first).payload,
        ];
        let mut sink = FailingWriter {
            held: Vec::new(rt.alloc()),
            most: 1,
            calls: 9,
        };
        let end = hex_lines(0, &payloads, &mut sink);
        let found = (end, sink.held.as_slice());
        same_at(&rt, "cut", found, (Err(WriteFault::Write), begun));
    }
}
