//! Runs of lost numbers, as long as they go on.

ghost use Rattle.std.specs.Prelude.{◌≡◌, ◌+◌, ◌<◌, ◌^◌};
ghost use Rattle.live.specs.Runs.{is_written, run_left, run_with};
ghost use Rattle.live.specs.steps.Giving.{run_lost};

use auditing::Lost;

/// A run of lost numbers of a hart, as long as it goes on.
#[derive(Clone, Copy)]
pub(crate) struct Run {
    /// The first of its numbers.
    pub(crate) first: u64,
    /// The first of its numbers that lacks a line, or the number after the last where none does.
    pub(crate) unlined: u64,
    /// The number after the last, which is the first where no run goes on.
    pub(crate) next: u64,
}

impl Run {
    /// No run goes on.
    pub(crate) const NONE: Run = Run {
        first: 0,
        unlined: 0,
        next: 0,
    };

    /// The run after a number of its hart is given up, by whether it came.
    pub(crate) fn with(self, number: u64, came: bool) -> Run
        ensures { number + 1 < 2 ^ 64 → result ≡ run_with self number came }
    {
        if came {
            return self;
        }
        let next = number.saturating_add(1);
        if self.first == self.next {
            return Run {
                first: number,
                unlined: number,
                next,
            };
        }
        Run { next, ..self }
    }

    /// Whether the line of the run is written, by whether a number came.
    pub(crate) fn is_written(self, came: bool) -> bool
        ensures { result ≡ is_written self came }
    {
        came || self.next.saturating_sub(self.unlined) >= self.unlined.saturating_sub(self.first)
    }

    /// What goes on of the run after a number that came, or that was lost.
    pub(crate) fn left(self, came: bool) -> Run
        ensures { result ≡ run_left self came }
    {
        if came {
            Run::NONE
        } else if self.is_written(false) {
            Run {
                unlined: self.next,
                ..self
            }
        } else {
            self
        }
    }

    /// The numbers of the run that lack a line, if there are any.
    pub(crate) fn lost(self) -> Option<Lost>
        ensures { result ≡ run_lost self }
    {
        if self.unlined == self.next {
            return None;
        }
        Some(Lost {
            first: self.unlined,
            last: self.next.saturating_sub(1),
        })
    }
}
