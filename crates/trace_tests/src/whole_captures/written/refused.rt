//! Each request for memory is refused in turn, and the output fails at each call.

use super::in_threads::write_shared;
use super::told::Told;
use super::written;
use crate::fixtures::{BRANCH_LOOP, program_of, short_words};
use crate::refused_captures::{CAPTURE, FULL};
use crate::same::same_at;
use crate::whole_captures::short_capture;
use cases::{FailingWriter, Refusing};
use message::{HartRange, NoProgress, Version};
use parallel_decode::{Selection, survey_capture};
use payload::Mode;
use retire::WriteFault;
use rvclass::Program;
use std::io;
use std::io::{ErrorKind, Write};
use std::process::Abort;
use std::thread::Threads;

/// The requests of the first pass: for what is kept of the harts, for the list of places, for the places of each of the
/// two harts, and for their flags.
const REQUESTS: u64 = 5;

/// Ends the test unless the first pass fails where a request is refused, and else makes no other.
fn are_refused<R: Abort + AllocGlobal>(rt: &R, program: &Program, capture: &[u8]) {
    let asked = Selection {
        program,
        harts: 2,
        range: HartRange::ALL,
        bytes: capture,
    };
    for place in 0..REQUESTS.saturating_add(1) {
        let heap = Refusing::new(rt.alloc(), place);
        let failed = survey_capture(&heap, &asked, &NoProgress).is_err();
        let refused = place < REQUESTS;
        same_at(rt, place, (heap.has_refused(), failed), (refused, refused));
    }
}

#[test]
fn each_request(rt: HostRuntime) {
    let program = program_of(&rt, BRANCH_LOOP);
    are_refused(&rt, &program, &CAPTURE);
    are_refused(&rt, &program, &FULL);
}

/// However long the logs are, no other request is made.
#[test]
fn long_logs_request_no_more(rt: HostRuntime) {
    let program = short_words(&rt, 70_000);
    let form = (Version::Two, Mode::Differential);
    for period in [7, 20_000] {
        let capture = short_capture(&rt, &program, (2, 70_000), period, form);
        are_refused(&rt, &program, &capture);
    }
}

/// An output that fails at what is written while the first pass was not told to have ended.
#[derive(Drop)]
struct Late<'a> {
    told: &'a Told,
    held: Vec<u8>,
}

impl Write for Late<'_> {
    fn write(&mut self, buf: &[u8]) -> io::Result<usize> {
        if self.told.ends.get() != 1 {
            return Err(io::Error::from(ErrorKind::StorageFull));
        }
        self.held.extend_from_slice(buf)?;
        Ok(buf.len())
    }

    fn flush(&mut self) -> io::Result<()> {
        Ok(())
    }
}

/// Ends the test unless nothing is written of a capture before the first pass was told to have ended, and then all.
fn ends_before<R: Threads + Sync + Abort + AllocGlobal>(rt: &R, program: &Program, capture: &[u8]) {
    let (whole, _) = written(rt, program, 2, capture);
    let told = Told::new();
    let mut out = Late {
        told: &told,
        held: Vec::new(rt.alloc()),
    };
    let fault = write_shared(rt, (1, 0), program, 2, capture, &told, &mut out).err();
    let found = (fault, out.held.as_slice());
    same_at(rt, capture.len(), found, (None, whole.as_slice()));
}

#[test]
fn the_first_pass_ends_before_the_first_row(rt: HostRuntime) {
    let program = program_of(&rt, BRANCH_LOOP);
    for capture in [CAPTURE.as_slice(), &FULL, &CAPTURE[..70], &[1], &[]] {
        ends_before(&rt, &program, capture);
    }
}

/// Ends the test unless an output that takes a byte a call, and fails after this many calls, holds as many bytes of the
/// text.
fn holds_bytes<R: Threads + Sync + Abort + AllocGlobal>(
    rt: &R,
    program: &Program,
    whole: &[u8],
    calls: usize,
) {
    let mut out = FailingWriter {
        held: Vec::new(rt.alloc()),
        most: 1,
        calls,
    };
    let fault = write_shared(rt, (1, 0), program, 2, &CAPTURE, &Told::new(), &mut out).err();
    let fails = calls < whole.len();
    let wanted = (fails.then_some(WriteFault::Write), whole.get(..calls));
    same_at(rt, calls, (fault, Some(out.held.as_slice())), wanted);
}

#[test]
fn output_fails_at_each_byte(rt: HostRuntime) {
    let program = program_of(&rt, BRANCH_LOOP);
    let (whole, _) = written(&rt, &program, 2, &CAPTURE);
    for calls in 0..whole.len().saturating_add(1) {
        holds_bytes(&rt, &program, &whole, calls);
    }
}
