//! What is found of each hart of SENT by payloads alone, and of the messages of RECEIVED.

ghost use Rattle.std.specs.Prelude.{◌≡◌, ◌++◌, ◌∷◌, [], IfOk, OnOk, map};
ghost use Rattle.ffi.specs.AuditedAll.{byte_runs};
ghost use Rattle.ffi.specs.AuditedUnnumbered.{aligned_reported, arrival_by, first_told, is_told, matched_at};
ghost use Rattle.ffi.specs.AuditedUnnumbered.{all_unmatched, matched_arrivals, moved_by, strangers_among};

use crate::path_harts::add_lost;
use crate::path_numbers::{
    Arrival, ByteRun, FATE_EXTRA, FATE_IN_ORDER, FATE_STRANGER, HartRowNumbers, HartTally, LostRun,
};
use auditing::{
    Alignment, Arrival as Matched, Cursor, LostRuns, counts_of, cursors, run_lengths, take,
};
use frames::Span;
use std::alloc::{AllocError, Global};

/// What is found of each hart, by their alignments.
pub(crate) fn aligned_rows(
    alloc: Global,
    all: &[Alignment],
) -> Result<Vec<HartRowNumbers>, AllocError>
    ensures { IfOk result (λ rows. rows.items ≡ map aligned_reported all.now) }
{
    let mut rows = Vec::with_capacity(alloc, all.len())?;
    for own in all {
        rows.push(aligned_reported(own))?;
    }
    Ok(rows)
}

/// What is found of a hart with this alignment, in numbers.
fn aligned_reported(own: &Alignment) -> HartRowNumbers
    ensures { result ≡ aligned_reported own.now }
{
    let counts = counts_of(own);
    let lengths = run_lengths(own.sent());
    HartRowNumbers {
        tally: HartTally {
            sent: counts.sent,
            came: counts.came,
            lost: counts.lost,
            repeated: 0,
            late: 0,
            changed: 0,
            whole: u32::from(counts.whole),
        },
        strange: 0,
        extra: counts.extra,
        runs: lengths.runs,
        longest: lengths.longest,
        latest: 0,
        exchanged: 0,
        exchanged_hart: 0,
    }
}

/// The longest runs of numbers of each hart that are matched with nothing, by their alignments.
pub(crate) fn unmatched_of(alloc: Global, all: &[Alignment]) -> Result<Vec<LostRun>, AllocError>
    ensures { IfOk result (λ lost. lost.items ≡ all_unmatched all.now) }
{
    let mut lost = Vec::new(alloc);
    for hart in 0..all.len() {
        add_lost(LostRuns::new(all[hart].sent()), hart, &mut lost)?;
    }
    Ok(lost)
}

/// What became of the messages of RECEIVED by the alignments of the harts, and the runs of bytes between them.
pub(crate) fn matched_spans(
    alloc: Global,
    all: &[Alignment],
    spans: &[Span],
) -> Result<(Vec<Arrival>, Vec<ByteRun>), AllocError>
    ensures { IfOk result (λ found. (found.0.items ≡ matched_arrivals all.now spans.now)
        × (found.1.items ≡ byte_runs spans.now)) }
{
    let mut states = cursors(alloc, all)?;
    let mut arrivals = Vec::new(alloc);
    let mut runs = Vec::new(alloc);
    for span in spans {
        add_arrival(&mut states, span, &mut arrivals)?;
        add_run(span, &mut runs)?;
    }
    Ok((arrivals, runs))
}

/// Adds what became of a span, if that is a message.
fn add_arrival(
    states: &mut Vec<Cursor<'_>>,
    span: &Span,
    arrivals: &mut Vec<Arrival>,
) -> Result<(), AllocError>
    ensures arrived { OnOk result (arrivals.new.items ≡ arrivals.old.items ++ arrival_by states.old.items span.now) }
    ensures moved { OnOk result (states.new.items ≡ moved_by states.old.items span.now) }
{
    match span {
        Span::Frame { offset, message } => {
            let found = take(states, message.hart);
            arrivals.push(matched_at(*offset as u64, message.hart, found))?;
            Ok(())
        }
        Span::Bytes { .. } => Ok(()),
    }
}

/// Adds the run of bytes of a span, if it is one.
fn add_run(span: &Span, runs: &mut Vec<ByteRun>) -> Result<(), AllocError>
    ensures { OnOk result (runs.new.items ≡ runs.old.items ++ byte_runs (span.now ∷ [])) }
{
    match span {
        Span::Frame { .. } => Ok(()),
        Span::Bytes { offset, count } => {
            let run = ByteRun {
                offset: *offset as u64,
                count: *count as u64,
            };
            runs.push(run)?;
            Ok(())
        }
    }
}

/// A message of a hart at this offset of RECEIVED, and what became of it.
fn matched_at(offset: u64, hart: u16, found: Matched) -> Arrival
    ensures { result ≡ matched_at offset hart found }
{
    let (number, by, fate) = match found {
        Matched::Stranger => (0, 0, FATE_STRANGER),
        Matched::Extra => (0, 0, FATE_EXTRA),
        Matched::Matched { number, skips } => (number, skips, FATE_IN_ORDER),
    };
    Arrival {
        number,
        by,
        offset,
        fate,
        hart,
    }
}

/// How many of these messages are strangers.
pub(crate) fn strangers_among(arrivals: &[Arrival]) -> u64
    ensures { result ≡ strangers_among arrivals.now }
{
    arrivals
        .iter()
        .filter(|arrival| arrival.fate == FATE_STRANGER)
        .count() as u64
}

/// Whether a message is not matched, or skips numbers.
fn is_told(arrival: &Arrival) -> bool
    ensures { result ≡ is_told arrival.now }
{
    arrival.fate != FATE_IN_ORDER || arrival.by != 0
}

/// The place of the first message that is not matched or skips numbers, if there is one.
pub(crate) fn first_told(arrivals: &[Arrival]) -> Option<u64>
    ensures { result ≡ first_told arrivals.now }
{
    for place in 0..arrivals.len() {
        if is_told(&arrivals[place]) {
            return Some(place as u64);
        }
    }
    None
}
