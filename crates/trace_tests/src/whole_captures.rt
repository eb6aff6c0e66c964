//! Whole captures (`captures`): to writers that fail; the logs of their harts,
//! written while they are decoded (`parallel_decode`); and the first pass over them, with the harts side by side
//! (`parallel_decode`). What captures are written, read and decoded as are cases of `vectors`.

mod failing;
mod surveyed;
mod written;

use crate::fixtures::short_log;
use crate::packets::legal_log;
use captures::{CaptureOutcome, decode_capture, encode_capture};
use legalpath::LegalLog;
use message::{MessageFault, Version};
use payload::Mode;
use retire::Event;
use rvclass::Program;
use std::io::Write;
use std::process::Abort;

/// What a capture of version 1 of this many harts, or of version 2, decodes to.
fn decoded<R: Abort + AllocGlobal>(
    rt: &R,
    program: &Program,
    harts: u16,
    capture: &[u8],
) -> CaptureOutcome {
    decode_capture(rt.alloc(), program, harts, capture).expect(rt, "memory")
}

/// The same log for each of these harts.
fn copies_of<'p, R: Abort + AllocGlobal>(
    rt: &R,
    program: &'p Program,
    log: &[Event],
    harts: u16,
) -> Vec<LegalLog<'p>> {
    let mut logs = Vec::new(rt.alloc());
    for _ in 0..harts {
        logs.push(legal_log(rt, program, log)).expect(rt, "memory");
    }
    logs
}

/// Writes the capture of logs, 1 to 1,024, in a version and a mode.
fn write_capture<R: Abort, W: Write>(
    rt: &R,
    logs: &[LegalLog<'_>],
    period: u16,
    (version, mode): (Version, Mode),
    sink: &mut W,
) -> Result<(), MessageFault> {
    let count = logs.len();
    assert!(rt; 0 < count && count <= 1024);
    let period = period.max(1);
    match version {
        Version::One => encode_capture(logs, period, mode, Version::One, sink),
        Version::Two => encode_capture(logs, period, mode, Version::Two, sink),
    }
}

/// The capture of so many harts, 1 to 1,024, that each retire this many instructions C.NOP once.
fn short_capture<R: Abort + AllocGlobal>(
    rt: &R,
    program: &Program,
    (harts, events): (u16, u32),
    period: u16,
    form: (Version, Mode),
) -> Vec<u8> {
    let log = short_log(rt, events);
    let logs = copies_of(rt, program, &log, harts);
    capture_of(rt, &logs, period, form)
}

/// The capture of logs, 1 to 1,024, in a version and a mode.
fn capture_of<R: Abort + AllocGlobal>(
    rt: &R,
    logs: &[LegalLog<'_>],
    period: u16,
    form: (Version, Mode),
) -> Vec<u8> {
    let mut capture = Vec::new(rt.alloc());
    write_capture(rt, logs, period, form, &mut capture).expect(rt, "a capture");
    capture
}
