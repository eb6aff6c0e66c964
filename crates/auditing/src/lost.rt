//! The numbers of a hart that were lost.

ghost use Rattle.std.specs.Prelude.{◌≡◌, ◌++◌, ◌+◌, ◌<◌, ◌^◌, List, [], None, length, not};
ghost use Rattle.std.specs.List.{position_or_len};
ghost use Rattle.std.specs.Option.{option_to_list};
ghost use Rattle.auditing.specs.HartRows.{longest_of};
ghost use Rattle.auditing.specs.Losing.{runs_of};
ghost use Rattle.auditing.specs.Unset.{lost_in};
ghost use Rattle.auditing.specs.declared.lost.Lost.{Lost as AnyLost};

use crate::cursor::first_set;
use std::marker::Model;

/// A longest run of numbers of a hart that were lost.
#[derive(Clone, Copy, Debug)]
pub struct Lost {
    /// The first of the numbers.
    pub first: u64,
    /// The last of the numbers.
    pub last: u64,
}

/// The longest runs of numbers of a hart that were lost, one at a time. A clause sees those that are left.
#[derive(Drop)]
pub struct LostRuns<'a> {
    /// Whether a true message came, from the next number on.
    came: &'a [bool],
    /// The next number.
    number: u64,
}

impl<'a> Model for LostRuns<'a> {
    ghost Value = { List AnyLost };

    ghost view = { λ runs. runs_of (lost_in runs.number runs.came.now) };

    ghost invariant = { λ runs. runs.number + length runs.came.now < 2 ^ 64 };
}

impl<'a> LostRuns<'a> {
    /// The longest runs of numbers whose flags are not set. The flags are those of the numbers from 0 on: whether each
    /// came.
    pub fn new(came: &'a [bool]) -> LostRuns<'a>
        ensures { result ≡ runs_of (lost_in 0 came.now) }
    {
        LostRuns { came, number: 0 }
    }

    /// The next run; `None` after the last. Takes no memory.
    pub fn next(&mut self) -> Option<Lost>
        ensures next { self.old ≡ option_to_list result ++ self.new }
        ensures end { result ≡ None → self.old ≡ [] }
    {
        let came = self.came;
        let (_, left) = came.split_at(first_lost(came));
        let first = self.number + (came.len() - left.len()) as u64;
        let (run, behind) = left.split_at(first_set(left));
        self.came = behind;
        self.number = first + run.len() as u64;
        if run.is_empty() {
            return None;
        }
        Some(Lost {
            first,
            last: self.number - 1,
        })
    }
}

/// How many longest runs of numbers were lost, and how many numbers the longest of them has.
#[derive(Clone, Copy, Debug)]
pub struct RunLengths {
    /// How many runs there are.
    pub runs: u64,
    /// How many numbers the longest of them has, 0 where there is none.
    pub longest: u64,
}

/// How many longest runs of numbers have no flag that is set, and how many numbers the longest of them has. The flags are
/// those of the numbers from 0 on: whether each came. Takes no memory.
pub fn run_lengths(came: &[bool]) -> RunLengths
    ensures runs { result.runs ≡ length (runs_of (lost_in 0 came.now)) }
    ensures longest { result.longest ≡ longest_of (runs_of (lost_in 0 came.now)) }
{
    let mut left = LostRuns::new(came);
    let mut runs: u64 = 0;
    let mut longest: u64 = 0;
    while let Some(run) = left.next() {
        runs = runs.saturating_add(1);
        longest = longest.max(run.last.saturating_sub(run.first).saturating_add(1));
    }
    RunLengths { runs, longest }
}

/// The place of the first flag that is not set, or the count of flags where each is set.
fn first_lost(came: &[bool]) -> usize
    ensures { result ≡ position_or_len not came.now }
{
    for (place, came) in came.iter().enumerate() {
        if !*came {
            return place;
        }
    }
    came.len()
}
