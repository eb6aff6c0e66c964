//! The events that a packet adds to a log.

ghost use Rattle.std.specs.Prelude.{◌≡◌, vec_len, vec_capacity};
ghost use Rattle.rvclass.specs.Fetch.{words_of};
ghost use Rattle.rvclass.specs.Words.{IsProgram};
ghost use Rattle.decoder.specs.steps.Stretches.{left_of, stretch_count, stretch_last, stretch_place, stretch_progress};
ghost use Rattle.decoder.specs.steps.Stretches.{HasRoomFor, AddsStretch};
ghost use Rattle.decoder.specs.declared.added_events.AddedEvents.TheVariants.{Walk};

use crate::stepping::{Goal, Here};
use crate::walking::{Progress, Walked, write};
use payload::Outcomes;
use retire::Event;
use rvclass::ProgramOver;
use std::alloc::Allocator;

/// A walk that was found.
#[derive(Clone, Copy)]
pub struct FoundWalk {
    /// The retirement that it starts from.
    pub from: Here,
    /// The outcomes of its branches.
    pub outcomes: Outcomes,
    /// Where it ends.
    pub goal: Goal,
    /// What was found of it.
    pub walked: Walked,
}

/// Events that a packet adds to a log. What finds a stretch writes it in place, since it is large to return.
#[derive(Clone, Copy)]
pub enum AddedEvents {
    /// None.
    Nothing,
    /// One event.
    One(Event),
    /// A trap, and the first retirement of its handler.
    Two(Event, Event),
    /// The retirements of a walk.
    Walk(FoundWalk),
}

impl AddedEvents {
    /// The retirements of a walk that was found.
    #[inline(always)]
    pub fn walk(from: Here, outcomes: &Outcomes, goal: Goal, walked: Walked) -> AddedEvents
        ensures { result ≡ Walk (record { from = from; outcomes = outcomes.now; goal = goal; walked = walked }) }
    {
        AddedEvents::Walk(FoundWalk {
            from,
            outcomes: *outcomes,
            goal,
            walked,
        })
    }

    /// Whether they are in the list.
    #[inline]
    pub fn progress(&self) -> Progress
        ensures { result ≡ stretch_progress self.now }
    {
        match self {
            AddedEvents::Nothing => Progress::Written,
            AddedEvents::One(_) | AddedEvents::Two(_, _) => Progress::Pending,
            AddedEvents::Walk(walk) => walk.walked.progress,
        }
    }

    /// How many events are to be written.
    #[inline]
    pub fn left(&self) -> usize
        ensures { result ≡ stretch_count (left_of self.now) }
    {
        match self {
            AddedEvents::Nothing => 0,
            AddedEvents::One(_) => 1,
            AddedEvents::Two(_, _) => 2,
            AddedEvents::Walk(walk) => match walk.walked.progress {
                Progress::Written => 0,
                Progress::Pending => walk.walked.count,
            },
        }
    }

    /// The last of these events, or `before` where there are none.
    #[inline]
    pub fn last(&self, before: &Option<Event>) -> Option<Event>
        ensures { result ≡ stretch_last before.now self.now }
    {
        match self {
            AddedEvents::Nothing => *before,
            AddedEvents::One(event) | AddedEvents::Two(_, event) => Some(*event),
            AddedEvents::Walk(walk) => Some(walk.walked.last),
        }
    }

    /// The place of the last of these events, or `at` where there are none.
    #[inline]
    pub fn place(&self, at: u64) -> u64
        ensures { result ≡ stretch_place at self.now }
    {
        match self {
            AddedEvents::Nothing => at,
            AddedEvents::One(event) | AddedEvents::Two(_, event) => event.place(),
            AddedEvents::Walk(walk) => walk.walked.last.place(),
        }
    }

    /// Writes the events that are not in the list yet. The capacity for them was reserved.
    #[inline]
    pub fn write<A: Allocator>(&self, program: &ProgramOver, log: &mut Vec<Event, A>)
        requires program { IsProgram (words_of program.now) }
        requires room { HasRoomFor (words_of program.now) (left_of self.now) (vec_len log.old)
            (vec_capacity log.old) }
        ensures adds { AddsStretch (words_of program.now) (left_of self.now) log.old.items log.new.items }
        ensures room { vec_capacity log.new ≡ vec_capacity log.old }
    {
        match self {
            AddedEvents::Nothing => {}
            AddedEvents::One(event) => log.push_reserved(*event),
            AddedEvents::Two(trap, event) => {
                log.push_reserved(*trap);
                log.push_reserved(*event);
            }
            AddedEvents::Walk(walk) => match walk.walked.progress {
                Progress::Written => {}
                Progress::Pending => {
                    let count = walk.walked.count;
                    write(program, walk.from, &walk.outcomes, walk.goal, count, log);
                }
            },
        }
    }
}
