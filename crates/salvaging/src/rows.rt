//! What is done with the messages of each number of a hart.

ghost use Rattle.std.specs.Prelude.{◌≡◌, Bool, IfOk, length, map};
ghost use Rattle.salvaging.specs.Entries.{Entry as AnyEntry, entry_number};
ghost use Rattle.salvaging.specs.Treatments.{is_far_entry, is_good_treatment, row_of, rows};
ghost use Rattle.salvaging.specs.steps.Arrivals.{arrivals_in};
ghost use Rattle.salvaging.specs.steps.Grouping.{entries_by, entry_of};
ghost use Rattle.salvaging.specs.steps.Rows.{AreRowsBack, row_by};

use crate::entry::Entry;
use crate::grouping::last_entry;
use crate::late::{earliest_with, is_believed, is_late_behind};
use crate::received::ReceivedMessage;
use crate::treatment::{Treated, Treatment};
use std::alloc::{AllocError, Allocator};

/// A number of a hart, and what is done with the first of its messages of each payload.
#[derive(Clone, Copy)]
pub(crate) struct NumberRow {
    pub(crate) number: u64,
    pub(crate) treated: Treated,
}

/// The number of an entry.
pub(crate) fn number_of(entry: Entry<'_>) -> u64
    ensures { result ≡ entry_number (entry_of entry.entry) }
{
    match entry {
        Entry::Used { message, .. } => message.number,
        Entry::Doubtful { number, .. } => number,
    }
}

/// Whether an entry is used and its message good, and its number is far.
fn is_far(entry: Entry<'_>, good: bool, far: bool) -> bool
    ensures { result ≡ is_far_entry (entry_of entry.entry) good far }
{
    match entry {
        Entry::Used { .. } => good && far,
        Entry::Doubtful { .. } => false,
    }
}

/// The row of an entry.
fn row_with(entry: Entry<'_>, treatment: Treatment, far: bool, late: bool) -> NumberRow
    ensures { row_by result ≡ row_of (entry_number (entry_of entry.entry)) treatment far late }
{
    NumberRow {
        number: number_of(entry),
        treated: Treated {
            treatment,
            far,
            late,
        },
    }
}

/// Whether a message is good of which this is done.
fn is_good(treatment: Treatment) -> bool
    ensures { result ≡ is_good_treatment treatment }
{
    matches!(treatment, Treatment::Passed | Treatment::Taken(_))
}

/// The rows of a hart's numbers, from the greatest on, by what its entries do and which of them are far. The messages are
/// in the order of their numbers.
pub(crate) fn rows_back<A: Allocator + Copy>(
    alloc: A,
    came: &[ReceivedMessage<'_>],
    treatments: &[Treatment],
    far: &[bool],
) -> Result<Vec<NumberRow, A>, AllocError>
    requires treatments { length treatments.now ≡ length (entries_by (arrivals_in came.now)) }
    requires far { length far.now ≡ length treatments.now }
    ensures { (among : AnyEntry → Bool) → far.now ≡ map among (entries_by (arrivals_in came.now))
        → IfOk result (λ found. AreRowsBack (rows among (entries_by (arrivals_in came.now)) treatments.now) found.items) }
{
    let mut found = Vec::new(alloc);
    let mut first = None;
    let mut rest = came;
    let mut at = treatments.len();
    while let Some((entry, front)) = last_entry(rest) {
        at -= 1;
        let treatment = treatments[at];
        let good = is_good(treatment);
        let believed = is_believed(good, far[at]);
        let late = is_late_behind(entry, believed, first);
        found.reserve(1)?;
        found.push_reserved(row_with(entry, treatment, is_far(entry, good, far[at]), late));
        first = earliest_with(entry, believed, first);
        rest = &rest[..front];
    }
    Ok(found)
}
