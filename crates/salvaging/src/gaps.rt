//! What is reported of the gaps of a hart's log, and of its far numbers.

ghost use Rattle.std.specs.Prelude.{◌≡◌, ◌<◌, ◌≤◌, ◌++◌, IfOk, OnOk, length};
ghost use Rattle.message.specs.Harts.{end_of_numbers};
ghost use Rattle.salvaging.specs.Entries.{entry_number};
ghost use Rattle.salvaging.specs.FarGaps.{believed_behind, far_among, far_if, gap_before, reported_gaps};
ghost use Rattle.salvaging.specs.steps.Arrivals.{arrivals_in};
ghost use Rattle.salvaging.specs.steps.Grouping.{AreSmall, entries_by, entry_of};
ghost use Rattle.salvaging.specs.steps.Marks.{far_verdict};

use crate::entry::Entry;
use crate::far_number::{FarNumber, FarTreatment};
use crate::grouping::first_entry;
use crate::mark::Verdict;
use crate::received::ReceivedMessage;
use crate::rows::number_of;
use std::alloc::{AllocError, Allocator};

/// What is reported of the gaps before a hart's numbers, and the far ones among those.
#[derive(Drop)]
pub(crate) struct GapReport<A: Allocator> {
    pub(crate) gaps: Vec<u64, A>,
    pub(crate) far: Vec<FarNumber, A>,
}

/// The number after the last one that is believed, after an entry.
fn believed_behind(far: bool, next: u64, entry: Entry<'_>) -> u64
    requires { entry_number (entry_of entry) < end_of_numbers }
    ensures { result ≡ believed_behind far next (entry_of entry.entry) }
{
    if far {
        return next;
    }
    match entry {
        Entry::Used { message, .. } => message.number + 1,
        Entry::Doubtful { number, .. } => number,
    }
}

/// Appends what is reported of the gap before an entry, where there is one. `next` is the number after the last one that
/// is believed.
fn push_gap<A: Allocator>(
    gaps: &mut Vec<u64, A>,
    far: bool,
    next: u64,
    entry: Entry<'_>,
) -> Result<(), AllocError>
    ensures { OnOk result (gaps.new.items ≡ gaps.old.items ++ gap_before far next (entry_of entry.entry)) }
{
    let missing = number_of(entry).saturating_sub(next);
    if far {
        gaps.push(0)?;
    } else if missing > 0 {
        gaps.push(missing)?;
    }
    Ok(())
}

/// What is done with the message of a far number, by the verdict on the number.
fn treatment_of(verdict: Verdict) -> FarTreatment
    ensures { result ≡ far_verdict verdict }
{
    match verdict {
        Verdict::Taken => FarTreatment::Taken,
        Verdict::Passed => FarTreatment::Passed,
        _ => FarTreatment::Bad,
    }
}

/// Appends the number of an entry, if it is far.
fn push_far<A: Allocator>(
    numbers: &mut Vec<FarNumber, A>,
    far: bool,
    entry: Entry<'_>,
    verdict: Verdict,
) -> Result<(), AllocError>
    ensures { OnOk result
        (numbers.new.items ≡ numbers.old.items ++ far_if far (entry_of entry.entry) (far_verdict verdict)) }
{
    if !far {
        return Ok(());
    }
    match entry {
        Entry::Used { place, message } => {
            let number = message.number;
            let treatment = treatment_of(verdict);
            numbers.push(FarNumber {
                number,
                place,
                treatment,
            })?;
            Ok(())
        }
        Entry::Doubtful { .. } => Ok(()),
    }
}

/// What is reported of the gaps before a hart's numbers up to its end, and the far ones among those, by the verdict on each
/// and by which of them are far. The messages are in the order of their numbers.
pub(crate) fn report_of<A: Allocator + Copy>(
    alloc: A,
    came: &[ReceivedMessage<'_>],
    verdicts: &[Verdict],
    far: &[bool],
) -> Result<GapReport<A>, AllocError>
    requires small { AreSmall (entries_by (arrivals_in came.now)) }
    requires verdicts { length (entries_by (arrivals_in came.now)) ≤ length verdicts.now }
    requires far { length (entries_by (arrivals_in came.now)) ≤ length far.now }
    ensures gaps { IfOk result (λ report. report.gaps.items
        ≡ reported_gaps 0 (entries_by (arrivals_in came.now)) far.now) }
    ensures far { IfOk result (λ report. report.far.items
        ≡ far_among far_verdict (entries_by (arrivals_in came.now)) verdicts.now far.now) }
{
    let gaps = Vec::new(alloc);
    let numbers = Vec::new(alloc);
    let mut report = GapReport { gaps, far: numbers };
    let mut next = 0;
    let mut rest = came;
    let mut at = 0;
    while let Some((entry, count)) = first_entry(rest) {
        push_gap(&mut report.gaps, far[at], next, entry)?;
        push_far(&mut report.far, far[at], entry, verdicts[at])?;
        next = believed_behind(far[at], next, entry);
        at += 1;
        rest = &rest[count..];
    }
    Ok(report)
}
