//! The first pass over a capture with the harts side by side (`parallel_decode`): what it finds is what the first pass in
//! one thread finds, and decoding goes on from each mark.

use super::written::told::Told;
use super::{capture_of, copies_of, decoded, short_capture};
use crate::fixtures::{BRANCH_LOOP, log_of, program_of, short_log, short_words};
use crate::packets::legal_log;
use crate::refused_captures::{CAPTURE, FULL};
use crate::same::same_at;
use crate::two_logs::{WORDS, rows_of};
use legalpath::LegalLog;
use message::{HartRange, Version};
use parallel_decode::{Mark, MarkedSurvey, Selection, survey_messages, survey_side_by_side};
use payload::Mode;
use rvclass::Program;
use std::fmt::Debug;
use std::process::Abort;
use std::thread::Threads;

/// Ends the test unless the messages of these harts are surveyed alike by several threads and by one. Returns what the
/// several find.
fn is_same<R: Abort + AllocGlobal + Threads + Sync, P: Debug + Copy + Drop>(
    rt: &R,
    place: P,
    program: &Program,
    (harts, range): (u16, HartRange),
    announced: Option<Mode>,
    bytes: &[u8],
) -> MarkedSurvey {
    let told = Told::new();
    let alloc = rt.alloc();
    let messages = Selection {
        program,
        harts,
        range,
        bytes,
    };
    let found = survey_side_by_side(alloc, rt, &messages, announced, &told);
    let found = found.expect(rt, "memory");
    let counted = Told::new();
    let alone = survey_messages(alloc, &messages, announced, &counted);
    let alone = alone.expect(rt, "memory");
    if let Some((number, _)) = alone.fault {
        same_at(rt, place, counted.messages.get(), number);
    }
    let are_places = found.places == alone.places;
    // A message takes 12 bytes at least.
    let are_told = told.messages.get() <= bytes.len() as u64 / 12;
    let came = (found.fault, found.closed.as_slice(), found.marks.len());
    let wanted = (alone.fault, alone.closed.as_slice(), alone.places.len());
    same_at(
        rt,
        place,
        (came, are_places, are_told),
        (wanted, true, true),
    );
    found
}

/// Which harts are looked at.
const RANGES: [HartRange; 4] = [
    HartRange::ALL,
    HartRange { first: 0, last: 0 },
    HartRange { first: 1, last: 1 },
    HartRange { first: 1, last: 0 },
];

/// Each range of harts, of few, as many and more than there are.
fn harts_are_same<R: Abort + AllocGlobal + Threads + Sync>(
    rt: &R,
    place: (usize, u8),
    program: &Program,
    bytes: &[u8],
) {
    for range in RANGES {
        for harts in [0u16, 1, 2, 3] {
            for mode in [None, Some(Mode::Differential), Some(Mode::Full)] {
                is_same(
                    rt,
                    (place, harts, mode),
                    program,
                    (harts, range),
                    mode,
                    bytes,
                );
            }
        }
    }
}

#[test]
fn cut_at_each_byte(rt: HostRuntime) {
    let program = program_of(&rt, BRANCH_LOOP);
    for place in 0..CAPTURE.len() {
        harts_are_same(
            &rt,
            (place, 0),
            &program,
            CAPTURE.get(..place).unwrap_or(&[]),
        );
    }
    harts_are_same(&rt, (CAPTURE.len(), 0), &program, &CAPTURE);
    harts_are_same(&rt, (FULL.len(), 1), &program, &FULL);
}

#[test]
fn changed_at_each_byte(rt: HostRuntime) {
    let program = program_of(&rt, BRANCH_LOOP);
    for place in 0..CAPTURE.len() {
        for value in [0u8, 1, 2, 5, 0x0d, 0x1f, 0x4f, 0x63, 0x73, 0xff] {
            let mut capture = CAPTURE;
            capture[place] = value;
            let at = (place, value);
            is_same(&rt, at, &program, (2, HartRange::ALL), None, &capture);
        }
    }
}

/// Ends the test unless the marks of a hart of so many events are as far apart as they have to be, up to its end.
fn are_apart<R: Abort>(rt: &R, marks: &[Mark], events: u64) {
    let mut before = 0u64;
    for mark in marks {
        let between = mark.events.saturating_sub(before);
        let is_apart = 65_536 <= between && between < 131_072;
        same_at(rt, (mark.events, before), is_apart, true);
        before = mark.events;
    }
    let is_near = events.saturating_sub(131_072) < before && before <= events;
    same_at(rt, (before, events), is_near, true);
}

/// Ends the test unless each of the first two marks of the one hart has the events that its messages settle.
fn are_settled<R: Abort + AllocGlobal>(
    rt: &R,
    program: &Program,
    bytes: &[u8],
    places: &[usize],
    marks: &[Mark],
) {
    for mark in marks.iter().take(2) {
        let end = places.get(mark.taken).copied().unwrap_or(bytes.len());
        let outcome = decoded(rt, program, 1, bytes.get(..end).unwrap_or(&[]));
        let log = outcome.harts.first().expect(rt, "a hart");
        same_at(rt, mark.taken, log.len() as u64, mark.events);
    }
}

/// Surveys the capture of harts that each retire so many instructions once, and looks at the marks of each. Where there is
/// one hart, its messages have to settle as many events as its marks say.
fn are_marked<R: Abort + AllocGlobal + Threads + Sync>(
    rt: &R,
    (harts, events): (u16, u32),
    period: u16,
    mode: Mode,
) {
    let program = short_words(rt, events);
    let form = (Version::One, mode);
    let bytes = short_capture(rt, &program, (harts, events), period, form);
    let found = is_same(rt, harts, &program, (harts, HartRange::ALL), None, &bytes);
    for (places, marks) in found.places.iter().zip(found.marks.iter()) {
        are_apart(rt, marks, u64::from(events));
        if harts == 1 {
            are_settled(rt, &program, &bytes, places, marks);
        }
    }
}

/// A hart of 70,000 events has one mark, and each of two has one, since a second one comes after 131,072 events or more. A hart
/// whose sections have more events than are between two marks has more: each is one of a part.
#[test]
fn marks_of_long_logs(rt: HostRuntime) {
    are_marked(&rt, (1, 70_000), 100, Mode::Full);
    are_marked(&rt, (2, 70_000), 100, Mode::Full);
    are_marked(&rt, (1, 700_000), 60, Mode::Differential);
}

/// Ends the test unless a capture with a byte changed is surveyed alike, at the first four bytes of each tenth of it.
fn changed_is_same<R: Abort + AllocGlobal + Threads + Sync>(
    rt: &R,
    program: &Program,
    harts: u16,
    bytes: &mut [u8],
) {
    let tenth = bytes.len() / 10;
    for part in 0..10 {
        for offset in 0..4 {
            let place = tenth * part + offset;
            if place < bytes.len() {
                bytes[place] ^= 1;
                let at = (harts, part, offset);
                is_same(rt, at, program, (harts, HartRange::ALL), None, bytes);
                bytes[place] ^= 1;
            }
        }
    }
}

/// Harts of 12,800 messages, each second one a synchronisation: three sections, in captures that are whole and that are
/// changed at bytes of each of them.
#[test]
fn harts_of_three_sections(rt: HostRuntime) {
    let program = short_words(&rt, 32_000);
    for (harts, mode) in [(1u16, Mode::Differential), (2, Mode::Full)] {
        let mut bytes = short_capture(&rt, &program, (harts, 32_000), 5, (Version::One, mode));
        let all = (harts, HartRange::ALL);
        for announced in [None, Some(Mode::Full)] {
            is_same(&rt, (harts, announced), &program, all, announced, &bytes);
        }
        changed_is_same(&rt, &program, harts, &mut bytes);
    }
}

/// Ends the test unless the capture of these logs is surveyed alike, in both modes.
fn encoded_is_same<R: Abort + AllocGlobal + Threads + Sync>(
    rt: &R,
    program: &Program,
    logs: &[LegalLog<'_>],
    period: u16,
) {
    let harts = (logs.len().min(1_024) as u16, HartRange::ALL);
    for mode in [Mode::Differential, Mode::Full] {
        let bytes = capture_of(rt, logs, period, (Version::One, mode));
        is_same(rt, (period, mode), program, harts, Some(mode), &bytes);
    }
}

/// 70,002 messages of one hart.
#[test]
fn messages_many(rt: HostRuntime) {
    let program = short_words(&rt, 70_000);
    let logs = copies_of(&rt, &program, &short_log(&rt, 70_000), 1);
    encoded_is_same(&rt, &program, &logs, 2);
}

/// 1,024 harts, which have together each kind of packet.
#[test]
fn harts_many(rt: HostRuntime) {
    let program = program_of(&rt, WORDS);
    let mut logs = Vec::new(rt.alloc());
    for hart in 0..1_024 {
        let log = legal_log(&rt, &program, &log_of(&rt, rows_of(hart)));
        logs.push(log).expect(&rt, "memory");
    }
    encoded_is_same(&rt, &program, &logs, 1_024);
}
