//! A hart, whose events come one at a time.

ghost use Rattle.std.specs.Prelude.{◌≡◌, ◌%◌, ◌<◌, ◌≤◌, IfSome, List, []};
ghost use Rattle.retire.specs.Log.{most_long_rows};
ghost use Rattle.retire.specs.declared.event.Event.{Event as AnyEvent};
ghost use Rattle.rvclass.specs.Fetch.{words_of};
ghost use Rattle.rvclass.specs.Words.{Words};
ghost use Rattle.stimulus.specs.Walk.{extent_of, first_walk};
ghost use Rattle.stimulus.specs.Walked.{HasWalked, Walks};
ghost use Rattle.stimulus.specs.declared.walk.Walk.{Walk as AnyWalk};

use crate::mix::Mix;
use crate::walk::{Extent, Walk};
use retire::Event;
use rvclass::ProgramOver;

/// A hart that runs a program. What it draws is decided by the mix, the seed and its number, and by the program: its
/// events are those of `docs/FORMATS.md`, and are a legal log of the program.
///
/// The hart keeps its place and what it draws from, and no event.
#[derive(Drop)]
pub struct Hart {
    walk: Walk,
    /// How many events it has given.
    given: u32,
}

impl Hart {
    /// The hart of this number, before its first event.
    pub fn new(program: &ProgramOver, mix: Mix, seed: u64, number: u16) -> Hart
        ensures { (words : Words) → HasWalked words (first_walk (extent_of program.now) mix seed number) [] result }
    {
        Hart::within(Extent::of(program), mix, seed, number)
    }

    /// The same hart, of a program with this extent.
    pub(crate) fn within(extent: Extent, mix: Mix, seed: u64, number: u16) -> Hart
        requires { extent.base % 2 ≡ 0 }
        ensures { (words : Words) → HasWalked words (first_walk extent mix seed number) [] result }
    {
        Hart {
            walk: Walk::new(extent, mix, seed, number),
            given: 0,
        }
    }

    /// The hart's next event, by the program that the events before were of. There is none after 4,294,967,295 events.
    #[inline]
    pub fn next_event(&mut self, program: &ProgramOver) -> Option<Event>
        ensures walks { (start : AnyWalk) (seen : List AnyEvent) → HasWalked (words_of program.now) start seen self.old
            → Walks (words_of program.now) start seen result self.new }
        ensures fewer { IfSome result
            (λ event. (self.old.given < self.new.given) × (self.new.given ≤ most_long_rows)) }
    {
        if self.given == u32::MAX {
            return None;
        }
        self.given += 1;
        Some(self.walk.step(program))
    }
}
