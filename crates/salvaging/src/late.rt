//! How many messages of a hart are late.

ghost use Rattle.std.specs.Prelude.{◌≡◌, ◌&&◌, length, map, not};
ghost use Rattle.salvaging.specs.Far.{believed};
ghost use Rattle.salvaging.specs.Late.{late};
ghost use Rattle.salvaging.specs.steps.Arrivals.{arrivals_in};
ghost use Rattle.salvaging.specs.steps.Grouping.{entries_by, entry_of};
ghost use Rattle.salvaging.specs.steps.Marks.{is_good};
ghost use Rattle.salvaging.specs.steps.Lateness.{comes_before, earliest_with, is_late_behind};

use crate::entry::Entry;
use crate::grouping::last_entry;
use crate::mark::Verdict;
use crate::received::ReceivedMessage;

/// Whether there is a place, and it comes before this one.
fn comes_before(first: Option<usize>, place: usize) -> bool
    ensures { result ≡ comes_before first place }
{
    match first {
        Some(first) => first < place,
        None => false,
    }
}

/// Whether an entry is believed, by whether it is good and whether it is far.
pub(crate) fn is_believed(good: bool, far: bool) -> bool
    ensures { result ≡ (good && not far) }
{
    good && !far
}

/// Whether an entry's message is late, where `believed` says whether it is believed, and `first` is the place of the
/// earliest believed message with a greater number.
pub(crate) fn is_late_behind(entry: Entry<'_>, believed: bool, first: Option<usize>) -> bool
    ensures { result ≡ is_late_behind (entry_of entry.entry) believed first }
{
    match entry {
        Entry::Used { place, .. } => believed && comes_before(first, place),
        Entry::Doubtful { .. } => false,
    }
}

/// The place of the earliest believed message, with that of an entry which is believed or not.
pub(crate) fn earliest_with(entry: Entry<'_>, believed: bool, first: Option<usize>) -> Option<usize>
    ensures { result ≡ earliest_with (entry_of entry.entry) believed first }
{
    match entry {
        Entry::Used { place, .. } => {
            if believed && !comes_before(first, place) {
                Some(place)
            } else {
                first
            }
        }
        Entry::Doubtful { .. } => first,
    }
}

/// Whether a message is good.
fn is_good(verdict: Verdict) -> bool
    ensures { result ≡ is_good verdict }
{
    matches!(verdict, Verdict::Passed | Verdict::Taken)
}

/// How many believed messages came after a believed one with a greater number, by the verdict on each number and which of
/// them are far. The messages are in the order of their numbers.
pub(crate) fn late(came: &[ReceivedMessage<'_>], verdicts: &[Verdict], far: &[bool]) -> usize
    requires verdicts { length verdicts.now ≡ length (entries_by (arrivals_in came.now)) }
    requires far { length far.now ≡ length verdicts.now }
    ensures { result ≡ late (entries_by (arrivals_in came.now)) (believed (map is_good verdicts.now) far.now) }
{
    let mut count = 0;
    let mut first = None;
    let mut rest = came;
    let mut at = verdicts.len();
    while let Some((entry, front)) = last_entry(rest) {
        at -= 1;
        let believed = is_believed(is_good(verdicts[at]), far[at]);
        if is_late_behind(entry, believed, first) {
            count += 1;
        }
        first = earliest_with(entry, believed, first);
        rest = &rest[..front];
    }
    count
}
