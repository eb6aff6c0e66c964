//! What of the events of a packet is still to be handed out.

ghost use Rattle.std.specs.Prelude.{◌≡◌, ◌-◌, [], ◌∷◌, ◌++◌, drop, length, take, vec_len, vec_capacity};
ghost use Rattle.rvclass.specs.Fetch.{words_of};
ghost use Rattle.rvclass.specs.Words.{Words};
ghost use Rattle.decoder.specs.steps.Rests.{HasCourse, IsRest, IsWalkRest, rest_events, rest_of, walk_events};

use crate::added_events::AddedEvents;
use crate::retracing::retrace;
use crate::stepping::{Course, Here};
use crate::walking::event;
use retire::Event;
use rvclass::ProgramOver;
use std::alloc::Allocator;

/// The rest of a walk that was measured.
#[derive(Clone, Copy)]
pub struct WalkRest {
    /// The retirement that was handed out last, or that the walk starts from.
    pub here: Here,
    /// What the packet reports of the walk.
    pub course: Course,
    /// How many outcomes are used up to there.
    pub used: usize,
    /// How many retirements are left.
    pub count: usize,
}

/// The events of a stretch that are still to be handed out.
#[derive(Clone, Copy)]
pub enum Rest {
    /// None.
    Nothing,
    /// One event.
    One(Event),
    /// A trap, and the first retirement of its handler.
    Two(Event, Event),
    /// The retirements of a walk.
    Walk(WalkRest),
}

impl Rest {
    /// All events of a stretch, also where they are in a list already.
    pub fn of(stretch: &AddedEvents) -> Rest
        ensures rest { result ≡ rest_of stretch.now }
        ensures course { HasCourse result }
    {
        match stretch {
            AddedEvents::Nothing => Rest::Nothing,
            AddedEvents::One(event) => Rest::One(*event),
            AddedEvents::Two(trap, event) => Rest::Two(*trap, *event),
            AddedEvents::Walk(walk) => Rest::Walk(WalkRest {
                here: walk.from,
                course: Course::new(&walk.outcomes, walk.goal),
                used: 0,
                count: walk.walked.count,
            }),
        }
    }

    /// How many events are left.
    pub fn len(&self, program: &ProgramOver) -> usize
        requires { IsRest (words_of program.now) self.now }
        ensures { result ≡ length (rest_events (words_of program.now) self.now) }
    {
        match self {
            Rest::Nothing => 0,
            Rest::One(_) => 1,
            Rest::Two(_, _) => 2,
            Rest::Walk(walk) => walk.count,
        }
    }

    /// Appends as many of the events as the piece has capacity for, and returns those that are left.
    pub fn after<A: Allocator>(self, program: &ProgramOver, piece: &mut Vec<Event, A>) -> Rest
        requires { IsRest (words_of program.now) self }
        ensures rest { IsRest (words_of program.now) result }
        ensures appended { piece.new.items ≡ piece.old.items
            ++ take (vec_capacity piece.old - vec_len piece.old) (rest_events (words_of program.now) self) }
        ensures left { rest_events (words_of program.now) result
            ≡ drop (vec_capacity piece.old - vec_len piece.old) (rest_events (words_of program.now) self) }
        ensures room { vec_capacity piece.new ≡ vec_capacity piece.old }
    {
        match self {
            Rest::Nothing => Rest::Nothing,
            Rest::One(event) => after_one(event, piece),
            Rest::Two(trap, event) => after_two(trap, event, piece),
            Rest::Walk(walk) => Rest::Walk(after_walk(walk, program, piece)),
        }
    }
}

/// Appends an event if the piece has capacity for it, and returns what is left.
fn after_one<A: Allocator>(event: Event, piece: &mut Vec<Event, A>) -> Rest
    ensures rest { (words : Words) → IsRest words result }
    ensures appended { piece.new.items ≡ piece.old.items
        ++ take (vec_capacity piece.old - vec_len piece.old) (event ∷ []) }
    ensures left { (words : Words) → rest_events words result
        ≡ drop (vec_capacity piece.old - vec_len piece.old) (event ∷ []) }
    ensures room { vec_capacity piece.new ≡ vec_capacity piece.old }
{
    if piece.len() == piece.capacity() {
        return Rest::One(event);
    }
    piece.push_reserved(event);
    Rest::Nothing
}

/// Appends a trap and the first retirement of its handler, as far as the piece has capacity for them, and returns what
/// is left.
fn after_two<A: Allocator>(trap: Event, event: Event, piece: &mut Vec<Event, A>) -> Rest
    ensures rest { (words : Words) → IsRest words result }
    ensures appended { piece.new.items ≡ piece.old.items
        ++ take (vec_capacity piece.old - vec_len piece.old) (trap ∷ event ∷ []) }
    ensures left { (words : Words) → rest_events words result
        ≡ drop (vec_capacity piece.old - vec_len piece.old) (trap ∷ event ∷ []) }
    ensures room { vec_capacity piece.new ≡ vec_capacity piece.old }
{
    if piece.len() == piece.capacity() {
        return Rest::Two(trap, event);
    }
    piece.push_reserved(trap);
    after_one(event, piece)
}

/// Appends as many retirements of a walk as the piece has capacity for, and returns the rest of the walk.
fn after_walk<A: Allocator>(
    walk: WalkRest,
    program: &ProgramOver,
    piece: &mut Vec<Event, A>,
) -> WalkRest
    requires { IsWalkRest (words_of program.now) walk }
    ensures rest { IsWalkRest (words_of program.now) result }
    ensures appended { piece.new.items ≡ piece.old.items
        ++ take (vec_capacity piece.old - vec_len piece.old) (walk_events (words_of program.now) walk) }
    ensures left { walk_events (words_of program.now) result
        ≡ drop (vec_capacity piece.old - vec_len piece.old) (walk_events (words_of program.now) walk) }
    ensures room { vec_capacity piece.new ≡ vec_capacity piece.old }
{
    let count = walk.count.min(piece.capacity() - piece.len());
    let mut near = 0;
    let mut here = walk.here;
    let mut used = walk.used;
    for _ in 0..count {
        if !retrace(program, &mut near, &mut here, &mut used, &walk.course) {
            return walk;
        }
        piece.push_reserved(event(here));
    }
    WalkRest {
        here,
        course: walk.course,
        used,
        count: walk.count - count,
    }
}
