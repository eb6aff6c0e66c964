//! The same, decoded in several threads: what is written does not depend on how they share it.

use super::told::Told;
use super::written;
use crate::fixtures::{BRANCH_LOOP, program_of, short_words};
use crate::refused_captures::{CAPTURE, FULL};
use crate::same::same_at;
use crate::whole_captures::short_capture;
use cases::FailingWriter;
use message::{HartRange, Version};
use parallel_decode::{DecodedHarts, Selection, Sharing, write_decoded_side_by_side};
use payload::Mode;
use retire::WriteFault;
use rvclass::Program;
use std::fmt::Debug;
use std::io::Write;
use std::process::Abort;
use std::thread::Threads;
use std::time::{Clock, Duration};
use std::{io, thread};

/// How many threads decode, and for how many bytes of text each of their buffers has space: for no row, for a row or two,
/// for the rows of a small hart, and for more.
const SHARINGS: [(usize, usize); 7] = [
    (0, 480),
    (1, 0),
    (2, 0),
    (2, 31),
    (3, 480),
    (4, 1 << 20),
    (7, 1 << 23),
];

/// Of long harts: a buffer for a row or two, and one for a stretch.
const LONG_SHARINGS: [(usize, usize); 2] = [(2, 31), (4, 1 << 20)];

/// Writes the logs of a capture's harts in so many threads, which have buffers of so many bytes.
pub(super) fn write_shared<R: Threads + Sync + AllocGlobal, O: Write>(
    rt: &R,
    (threads, text): (usize, usize),
    program: &Program,
    harts: u16,
    capture: &[u8],
    told: &Told,
    out: &mut O,
) -> Result<DecodedHarts, WriteFault> {
    let sharing = Sharing { threads, text };
    let asked = Selection {
        program,
        harts,
        range: HartRange::ALL,
        bytes: capture,
    };
    write_decoded_side_by_side(rt.alloc(), rt, sharing, &asked, told, out)
}

/// Ends the test unless what is written of a capture is what one thread writes, however threads share it.
fn is_same<R: Threads + Sync + Abort + AllocGlobal, P: Debug + Copy + Drop>(
    rt: &R,
    place: P,
    program: &Program,
    harts: u16,
    capture: &[u8],
    sharings: &[(usize, usize)],
) {
    let (wanted, wanted_end) = written(rt, program, harts, capture);
    for sharing in sharings {
        let at = (place, *sharing);
        let told = Told::new();
        let mut got = Vec::new(rt.alloc());
        let ended = write_shared(rt, *sharing, program, harts, capture, &told, &mut got);
        let ended = ended.expect(rt, "memory");
        let are_same = (got == wanted, ended.closed == wanted_end.closed);
        let found = (are_same, told.ends.get(), ended.fault);
        let wanted = ((true, true), 1, wanted_end.fault);
        same_at(rt, (at, got.len()), found, wanted);
    }
}

/// Two harts with few events each, in captures that end early.
#[test]
fn small_harts(rt: HostRuntime) {
    let program = program_of(&rt, BRANCH_LOOP);
    for place in [0usize, 11, 12, 70, 71, 133, 134] {
        is_same(
            &rt,
            place,
            &program,
            2,
            CAPTURE.get(..place).unwrap_or(&CAPTURE),
            &SHARINGS,
        );
    }
    is_same(&rt, 145usize, &program, 2, &FULL, &SHARINGS);
}

/// How captures are written.
const DIFFERENTIAL: (Version, Mode) = (Version::Two, Mode::Differential);

/// Of many small harts: buffers for a row or two, and for each hart.
const MANY_SHARINGS: [(usize, usize); 4] = [(2, 31), (3, 4_096), (4, 20_000), (3, 1 << 20)];

/// Many more harts than threads have buffers.
#[test]
fn many_harts(rt: HostRuntime) {
    let program = short_words(&rt, 100);
    let capture = short_capture(&rt, &program, (60, 100), 16, DIFFERENTIAL);
    is_same(&rt, true, &program, 60, &capture, &MANY_SHARINGS);
    let front = capture.get(..capture.len() / 2).unwrap_or(&[]);
    is_same(&rt, false, &program, 60, front, &MANY_SHARINGS);
}

/// The events of a hart of three stretches, and of one of two: a stretch ends at the first packet after 65,536 events.
const LONG: u32 = 140_000;

const SHORTER: u32 = 70_000;

/// Harts of several stretches, one of them also of several sections, in captures that are whole and that end in the last
/// stretch.
#[test]
fn long_harts(rt: HostRuntime) {
    for (harts, events, period) in [(1u16, LONG, 20_000), (2, SHORTER, 20_000), (1, LONG, 9)] {
        let program = short_words(&rt, events);
        let capture = short_capture(&rt, &program, (harts, events), period, DIFFERENTIAL);
        is_same(
            &rt,
            (harts, period, false),
            &program,
            harts,
            &capture,
            &LONG_SHARINGS,
        );
        let end = capture.len().saturating_sub(20);
        let front = capture.get(..end).unwrap_or(&[]);
        let at = (harts, period, true);
        is_same(&rt, at, &program, harts, front, &LONG_SHARINGS);
    }
}

/// Ends the test unless an output that takes 1,000 bytes a call at most, and fails after this many calls, holds a prefix of
/// the text of a capture of two harts.
fn holds_a_prefix<R: Threads + Sync + Abort + AllocGlobal>(
    rt: &R,
    program: &Program,
    capture: &[u8],
    whole: &[u8],
    at: (usize, (usize, usize)),
) {
    let mut out = FailingWriter {
        held: Vec::new(rt.alloc()),
        most: 1_000,
        calls: at.0,
    };
    let fault = write_shared(rt, at.1, program, 2, capture, &Told::new(), &mut out).err();
    let held = out.held.as_slice();
    let found = (fault, whole.starts_with(held), held.is_empty());
    let wanted = (Some(WriteFault::Write), true, at.0 == 0);
    same_at(rt, (at, held.len()), found, wanted);
}

/// It holds none, a part of the first stretch, and of the second hart.
#[test]
fn output_fails(rt: HostRuntime) {
    let program = short_words(&rt, SHORTER);
    let form = (Version::Two, Mode::Full);
    let capture = short_capture(&rt, &program, (2, SHORTER), 5_000, form);
    let (whole, _) = written(&rt, &program, 2, &capture);
    for calls in [0, 1, 700, 1_500] {
        for sharing in LONG_SHARINGS {
            holds_a_prefix(&rt, &program, &capture, &whole, (calls, sharing));
        }
    }
}

/// How many milliseconds an output takes for each write: while it does, threads end that find no buffer free.
const SLOW_MILLIS: u64 = 10;

/// An output that is slow.
#[derive(Drop)]
struct Slow<'a, R: Clock> {
    rt: &'a R,
    held: Vec<u8>,
}

impl<R: Clock> Write for Slow<'_, R> {
    fn write(&mut self, buf: &[u8]) -> io::Result<usize> {
        thread::sleep(self.rt, Duration::from_millis(SLOW_MILLIS));
        self.held.extend_from_slice(buf)?;
        Ok(buf.len())
    }

    fn flush(&mut self) -> io::Result<()> {
        Ok(())
    }
}

/// While the output is slow, threads that find no buffer free end, and others are started. The text is the same.
#[test]
fn output_is_slow(rt: HostRuntime) {
    let program = short_words(&rt, 100);
    let capture = short_capture(&rt, &program, (60, 100), 16, DIFFERENTIAL);
    let (whole, _) = written(&rt, &program, 60, &capture);
    for sharing in [(2, 31), (3, 4_096)] {
        let mut out = Slow {
            rt: &rt,
            held: Vec::new(rt.alloc()),
        };
        let told = Told::new();
        let fault = write_shared(&rt, sharing, &program, 60, &capture, &told, &mut out).err();
        same_at(&rt, sharing, (fault, out.held == whole), (None, true));
    }
}
