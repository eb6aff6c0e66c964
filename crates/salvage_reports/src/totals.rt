//! What is counted of all harts that a report is on.

ghost use Rattle.std.specs.Prelude.{◌≡◌, ◌+◌, sum_by};
ghost use Rattle.salvaging.specs.FarGaps.{far_passed, far_taken, is_far_passed, is_far_taken};
ghost use Rattle.salvaging.specs.PartsIn.{part_of, parts_in};
ghost use Rattle.frames.specs.Start.{spans_of};
ghost use Rattle.salvage_reports.specs.HartItems.{items_of};
ghost use Rattle.salvage_reports.specs.Totals.{capped, hart_count, loose_bytes, part_count, total_of};

use crate::found::Found;
use crate::salvaged_items::Total;
use frames::{Span, Spans, spans_of};
use salvaging::{FarNumber, FarTreatment, Part, SalvagedHart};

/// The sum of two counts, at most the greatest number.
fn sum_of(sum: u64, more: usize) -> u64
    ensures { result ≡ capped (sum + more) }
{
    let more = more as u64;
    if more > u64::MAX - sum {
        u64::MAX
    } else {
        sum + more
    }
}

/// How much of a part is counted.
fn part_count(what: Total, part: &Part) -> usize
    ensures { result ≡ part_count what (part_of part.now) }
{
    match what {
        Total::Rows => match part {
            Part::Stretch { events, .. } => events.len(),
            _ => 0,
        },
        Total::Bad => match part {
            Part::Bad { .. } => 1,
            _ => 0,
        },
        Total::Alone => match part {
            Part::Alone { .. } => 1,
            _ => 0,
        },
        _ => 0,
    }
}

/// A sum with what is counted of these parts.
fn with_parts(what: Total, sum: u64, parts: &[Part]) -> u64
    ensures { result ≡ capped (sum + sum_by (part_count what) (parts_in parts.now)) }
{
    let mut all = sum;
    for part in parts {
        all = sum_of(all, part_count(what, part));
    }
    all
}

/// Whether the message of a far number is decoded.
fn is_far_taken(treatment: FarTreatment) -> bool
    ensures { result ≡ is_far_taken treatment }
{
    matches!(treatment, FarTreatment::Taken)
}

/// Whether it is passed over.
fn is_far_passed(treatment: FarTreatment) -> bool
    ensures { result ≡ is_far_passed treatment }
{
    matches!(treatment, FarTreatment::Passed)
}

/// How many far numbers have a message that is decoded.
fn far_taken(far: &[FarNumber]) -> usize
    ensures { result ≡ far_taken far.now }
{
    far.iter().filter(|one| is_far_taken(one.treatment)).count()
}

/// How many have one that is passed over.
fn far_passed(far: &[FarNumber]) -> usize
    ensures { result ≡ far_passed far.now }
{
    far.iter()
        .filter(|one| is_far_passed(one.treatment))
        .count()
}

/// A sum with what is counted of a hart.
fn with_hart(what: Total, sum: u64, own: &SalvagedHart) -> u64
    ensures { result ≡ capped (sum + hart_count what own.now) }
{
    let far = own.far.as_slice();
    match what {
        Total::Rows | Total::Bad | Total::Alone => with_parts(what, sum, own.parts.as_slice()),
        Total::Decoded => sum_of(sum, own.decoded.saturating_sub(far_taken(far))),
        Total::Passed => sum_of(sum, own.passed.saturating_sub(far_passed(far))),
        Total::Far => sum_of(sum_of(sum, far_taken(far)), far_passed(far)),
        Total::Doubtful => sum_of(sum, own.doubtful),
        Total::Copies => sum_of(sum, own.copies),
        Total::Late => sum_of(sum, own.late),
        Total::Strangers | Total::Bytes => sum_of(sum, 0),
    }
}

/// What is counted of these harts together.
fn of_harts(what: Total, harts: &[SalvagedHart]) -> u64
    ensures { result ≡ capped (sum_by (hart_count what) harts.now) }
{
    let mut sum = 0;
    for own in harts {
        sum = with_hart(what, sum, own);
    }
    sum
}

/// How many bytes of a span belong to no frame.
fn loose_in(span: &Span) -> usize
    ensures { result ≡ loose_bytes span.now }
{
    match span {
        Span::Frame { .. } => 0,
        Span::Bytes { count, .. } => *count,
    }
}

/// How many bytes belong to no frame.
fn loose_bytes(spans: Spans<'_>) -> u64
    ensures { result ≡ capped (sum_by loose_bytes spans.entry) }
{
    let mut sum = 0;
    for span in spans {
        sum = sum_of(sum, loose_in(&span));
    }
    sum
}

/// What is counted of all harts that were found, and of the bytes of the capture.
pub(crate) fn total_of(what: Total, found: &Found, bytes: &[u8]) -> u64
    ensures { result ≡ total_of (items_of found.now.only found.now.salvaged.harts.items)
        (spans_of found.now.header bytes.now) found.now.salvaged.strangers what }
{
    match what {
        Total::Strangers => found.salvaged.strangers as u64,
        Total::Bytes => loose_bytes(spans_of(bytes, found.header)),
        other => of_harts(other, found.harts()),
    }
}
