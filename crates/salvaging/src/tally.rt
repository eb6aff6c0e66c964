//! How many numbers of a hart are used, and how many of their messages are decoded and passed over.

ghost use Rattle.std.specs.Prelude.{◌≡◌, count_by};
ghost use Rattle.salvaging.specs.steps.Marks.{is_passed, is_taken, is_used};

use crate::mark::Verdict;

/// How many numbers of a hart are used, and how many of their messages are decoded and passed over.
#[derive(Clone, Copy)]
pub(crate) struct HartTally {
    pub(crate) used: usize,
    pub(crate) decoded: usize,
    pub(crate) passed: usize,
}

/// Whether a number is used.
fn is_used(verdict: Verdict) -> bool
    ensures { result ≡ is_used verdict }
{
    !matches!(verdict, Verdict::Doubtful)
}

/// Whether its message is decoded.
fn is_taken(verdict: Verdict) -> bool
    ensures { result ≡ is_taken verdict }
{
    matches!(verdict, Verdict::Taken)
}

/// Whether its message is passed over.
fn is_passed(verdict: Verdict) -> bool
    ensures { result ≡ is_passed verdict }
{
    matches!(verdict, Verdict::Passed)
}

/// The tally of a hart, by the verdict on each of its numbers.
pub(crate) fn tally(verdicts: &[Verdict]) -> HartTally
    ensures used { result.used ≡ count_by is_used verdicts.now }
    ensures decoded { result.decoded ≡ count_by is_taken verdicts.now }
    ensures passed { result.passed ≡ count_by is_passed verdicts.now }
{
    HartTally {
        used: verdicts.iter().filter(|one| is_used(**one)).count(),
        decoded: verdicts.iter().filter(|one| is_taken(**one)).count(),
        passed: verdicts.iter().filter(|one| is_passed(**one)).count(),
    }
}
