//! Each request for memory of what decodes a capture is refused in turn.

use crate::fixtures::{BRANCH_LOOP, log_of, program_of};
use crate::same::same_at;
use captures::{CaptureFault, CaptureOutcome, decode_capture};
use cases::Refusing;
use decoder::DecodeFault;
use std::alloc::{AllocError, Global};
use std::process::Abort;

/// The rows of the hart that takes a branch to itself 33 times.
const BRANCHES: &str = "33*80000000,5,3,,";

/// The rows of the hart that takes it four times and is then interrupted.
const INTERRUPTED: &str = "4*80000000,5,3,, 80000000,2,3,7,";

/// The capture of both harts: their messages alternately, one in each line.
pub(crate) const CAPTURE: [u8; 134] = [
    0, 0, 0, 0, 0, 0, 0, 0, 0, 0, 1, 0x1f, // opens
    1, 0, 0, 0, 0, 0, 0, 0, 0, 0, 1, 0x1f, // opens
    0, 0, 1, 0, 0, 0, 0, 0, 0, 0, 5, 0x63, 0, 0, 0, 0x20, // the first branch
    1, 0, 1, 0, 0, 0, 0, 0, 0, 0, 5, 0x63, 0, 0, 0, 0x20, // the first branch
    0, 0, 2, 0, 0, 0, 0, 0, 0, 0, 1, 0x01, // 31 branches
    1, 0, 2, 0, 0, 0, 0, 0, 0, 0, 1, 0x0d, // three branches, which wait
    0, 0, 3, 0, 0, 0, 0, 0, 0, 0, 1, 0x05, // the last branch, which waits
    1, 0, 3, 0, 0, 0, 0, 0, 0, 0, 6, 0xf7, 0x23, 0, 0, 0, 0x20, // the interrupt
    1, 0, 4, 0, 0, 0, 0, 0, 0, 0, 2, 0xcf, 0, // closes
    0, 0, 4, 0, 0, 0, 0, 0, 0, 0, 1, 0x4f, // closes
];

/// The same with full addresses.
pub(crate) const FULL: [u8; 145] = [
    0, 0, 0, 0, 0, 0, 0, 0, 0, 0, 2, 0x1f, 0x01, // opens
    1, 0, 0, 0, 0, 0, 0, 0, 0, 0, 2, 0x1f, 0x01, // opens
    0, 0, 1, 0, 0, 0, 0, 0, 0, 0, 5, 0x63, 0, 0, 0, 0x20, // the first branch
    1, 0, 1, 0, 0, 0, 0, 0, 0, 0, 5, 0x63, 0, 0, 0, 0x20, // the first branch
    0, 0, 2, 0, 0, 0, 0, 0, 0, 0, 1, 0x01, // 31 branches
    1, 0, 2, 0, 0, 0, 0, 0, 0, 0, 6, 0x0d, 0, 0, 0, 0, 0x01, // three branches, which wait
    0, 0, 3, 0, 0, 0, 0, 0, 0, 0, 5, 0x05, 0, 0, 0, 0x40, // the last branch, which waits
    1, 0, 3, 0, 0, 0, 0, 0, 0, 0, 6, 0xf7, 0x23, 0, 0, 0, 0x20, // the interrupt
    1, 0, 4, 0, 0, 0, 0, 0, 0, 0, 2, 0xcf, 0, // closes
    0, 0, 4, 0, 0, 0, 0, 0, 0, 0, 1, 0x4f, // closes
];

/// How many requests come before a message is decoded: for the numbers, the decoders, the lists and the flags of the
/// harts.
const BEFORE: usize = 4;

/// Where decoding ends if one of the requests after these is refused: at which message, and how many events of each
/// hart were known before it.
///
/// The list of the first hart grows to 4, 32 and 64 events, and that of the second to 4 and 8. There is capacity for
/// the three branches that wait and not for the interrupt after them: all four are left out.
const ENDS: [(u64, usize, usize); 5] = [(2, 0, 0), (3, 1, 0), (4, 1, 1), (7, 32, 1), (9, 32, 5)];

/// Why decoding ends there.
const MEMORY: CaptureFault = CaptureFault::Decode(DecodeFault::Memory);

/// What a call returned.
type Answer<'h> = Result<CaptureOutcome<&'h Refusing<Global>>, AllocError>;

/// Ends the test unless a hart has this many of its events, the first ones, and is closed just where it has them all.
fn has_first<R: Abort + AllocGlobal>(
    rt: &R,
    place: (usize, usize),
    outcome: &CaptureOutcome<&Refusing<Global>>,
    rows: &str,
    count: usize,
) {
    let events = outcome.harts.get(place.1).expect(rt, "a hart");
    let log = log_of(rt, rows);
    let found = (
        Some(events.as_slice()),
        outcome.closed.get(place.1).copied(),
    );
    same_at(
        rt,
        place,
        found,
        (log.get(..count), Some(count == log.len())),
    );
}

/// Ends the test unless this is the answer where the request at this place is refused: an error where the request is
/// for the outcome itself; else the outcome, with what was decoded before.
fn ends_at<R: Abort + AllocGlobal>(rt: &R, place: usize, answer: Answer<'_>) {
    same_at(rt, place, answer.is_ok(), BEFORE <= place);
    let Ok(outcome) = answer else {
        return;
    };
    let (fault, first, second) = match ENDS.get(place.saturating_sub(BEFORE)) {
        Some((message, first, second)) => (Some((*message, MEMORY)), *first, *second),
        None => (None, 33, 5),
    };
    same_at(rt, place, (outcome.harts.len(), outcome.fault), (2, fault));
    has_first(rt, (place, 0), &outcome, BRANCHES, first);
    has_first(rt, (place, 1), &outcome, INTERRUPTED, second);
}

/// Ends the test unless each request of the decoding of a capture is refused in turn.
fn are_refused<R: Abort + AllocGlobal>(rt: &R, capture: &[u8]) {
    let program = program_of(rt, BRANCH_LOOP);
    for place in 0..BEFORE + ENDS.len() + 1 {
        let heap = Refusing::new(rt.alloc(), place as u64);
        let answer = decode_capture(&heap, &program, 2, capture);
        let refused = place < BEFORE + ENDS.len();
        same_at(rt, place, heap.has_refused(), refused);
        ends_at(rt, place, answer);
    }
}

#[test]
fn each_request_of_a_decoding(rt: HostRuntime) {
    are_refused(&rt, &CAPTURE);
    are_refused(&rt, &FULL);
}
