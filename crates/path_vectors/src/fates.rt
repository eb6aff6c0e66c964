//! What becomes of messages that are drawn (`auditing`), and how a capture that came damaged is read on by what was sent
//! (`frames`). What has to come is worked out by `checks/drawn-paths`.

use crate::audits::messages_in;
use crate::paths::by_of;
use crate::spans::{bytes_in, put_bytes, put_message, put_span};
use auditing::{Audit, KnownPayloads, LostRuns};
use cases::{Case, message_of};
use frames::{BorrowedSpan, GuidedScan, Sent, is_framed};

/// How many runs may be lost of 12 numbers, and one more.
const MOST_RUNS: usize = 7;

/// Appends runs of numbers that were lost, each the first of those left.
fn put_lost(case: &Case, runs: LostRuns<'_>) {
    let mut left = runs;
    for _ in 0..MOST_RUNS {
        if let Some(run) = left.next() {
            case.put_filled(" #-#", &[run.first, run.last]);
        }
    }
}

/// Appends what an audit says of a hart: its tally, and which runs of numbers are lost.
fn put_hart(case: &Case, audit: &Audit<'_>, hart: usize) {
    if hart < audit.harts() {
        let tally = audit.tally(hart);
        let counts = [
            tally.sent,
            tally.came,
            tally.lost,
            tally.repeated,
            tally.late,
            tally.changed,
        ];
        case.put_filled("; #/#/#/#/#/#", &counts);
        case.put(if tally.whole { " whole" } else { "" });
        put_lost(case, audit.lost(hart));
    }
}

/// Appends the fate of each message that came; of each hart how many messages were sent, came, are lost, repeated, late and
/// changed, whether it is whole, and which runs of its numbers are lost; and how many strangers came.
pub(crate) fn put_fates(case: &Case, audit: &mut Audit<'_>) {
    for message in &messages_in(case, "came") {
        let fate = audit.take(message);
        case.put_word("");
        case.put_debug(fate);
    }
    for hart in 0..audit.harts() {
        put_hart(case, audit, hart);
    }
    case.put_filled("; #", &[audit.strangers() as u64]);
}

/// Appends a passage, which borrows the bytes that it is of.
fn put_passage(case: &Case, passage: BorrowedSpan<'_>) {
    match passage {
        BorrowedSpan::Message { offset, message } => put_message(
            case,
            offset,
            (message.hart, message.number),
            message.payload,
        ),
        BorrowedSpan::Bytes { offset, count } => put_bytes(case, offset, count),
    }
}

/// Appends the messages and the runs of other bytes of a damaged capture, read on by what was sent, as spans and as passages.
pub(crate) fn put_scans<S: Sent>(case: &Case, came: &[u8], sent: &S) {
    let mut spans = GuidedScan::new(came, 0);
    let mut passages = GuidedScan::new(came, 0);
    for _ in 0..came.len().saturating_add(1) {
        if let Some(span) = spans.next(sent) {
            put_span(case, &span);
        }
    }
    case.end_first_way();
    for _ in 0..came.len().saturating_add(1) {
        if let Some(passage) = passages.next_passage(sent) {
            put_passage(case, passage);
        }
    }
    case.end_way("as passages");
}

/// The messages and the runs of other bytes of a damaged capture, read on by the payloads that were sent.
pub(crate) fn known(case: &Case) {
    let came = bytes_in(case);
    let framed = is_framed(came.as_slice());
    let mut known = KnownPayloads::new(case.alloc, by_of(case), framed);
    for word in case.named("sent").split(',') {
        if let Some(message) = message_of(case, word) {
            let added = known.add(&message);
            case.note(added);
        }
    }
    put_scans(case, came.as_slice(), &known);
}
