//! Events that a packet settled, handed out a piece at a time.

ghost use Rattle.std.specs.Prelude.{◌≡◌, ◌-◌, ◌==◌, [], ◌++◌, drop, length, take, vec_len, vec_capacity};
ghost use Rattle.std.specs.Prelude.{ℕ, List, ◌+◌, ◌≤◌, ◌^◌};
ghost use Rattle.retire.specs.declared.event.Event.{Event as AnyEvent};
ghost use Rattle.rvclass.specs.Fetch.{words_of};
ghost use Rattle.rvclass.specs.Words.{IsProgram};
ghost use Rattle.decoder.specs.steps.Rests.{AreRests, rest_events};
ghost use Rattle.decoder.specs.steps.Stretches.{Gives, stretch_count};

use crate::added_events::AddedEvents;
use crate::rest::Rest;
use retire::Event;
use rvclass::ProgramOver;
use std::alloc::Allocator;
use std::marker::Model;

/// The events that a packet settled and that are in no list yet, in order. A clause sees the list of them.
///
/// [`next_piece`](Unwritten::next_piece) hands them out. A place in each of at most two walks is held, and no event of
/// a walk, so it is as large for 43 million events as for one. Takes no memory.
#[derive(Drop)]
pub struct Unwritten<'p> {
    program: &'p ProgramOver<'p>,
    /// What is left of the packet that waited.
    first: Rest,
    /// What is left of the packet itself.
    second: Rest,
}

impl<'p> Model for Unwritten<'p> {
    ghost Value = { List AnyEvent };

    ghost view = { λ u. rest_events (words_of u.program.now) u.first ++ rest_events (words_of u.program.now) u.second };

    ghost invariant = { λ u. AreRests (words_of u.program.now) u.first u.second };
}

impl<'p> Unwritten<'p> {
    /// No events.
    pub(crate) fn none(program: &'p ProgramOver<'p>) -> Unwritten<'p>
        ensures { result ≡ [] }
    {
        Unwritten {
            program,
            first: Rest::Nothing,
            second: Rest::Nothing,
        }
    }

    /// All events of two stretches, one after the other.
    pub(crate) fn of(
        program: &'p ProgramOver<'p>,
        first: &AddedEvents,
        second: &AddedEvents,
    ) -> Unwritten<'p>
        requires program { IsProgram (words_of program.now) }
        requires few { stretch_count first.now + stretch_count second.now ≤ 2 ^ 32 }
        requires events { (settled : List AnyEvent) × (of_packet : List AnyEvent)
            × Gives (words_of program.now) first.now settled × Gives (words_of program.now) second.now of_packet }
        ensures { (settled of_packet : List AnyEvent) → Gives (words_of program.now) first.now settled
            → Gives (words_of program.now) second.now of_packet → result ≡ settled ++ of_packet }
    {
        Unwritten {
            program,
            first: Rest::of(first),
            second: Rest::of(second),
        }
    }

    /// How many events are left.
    pub fn len(&self) -> usize
        ensures { result ≡ length self.now }
    {
        self.first.len(self.program) + self.second.len(self.program)
    }

    /// Whether no event is left.
    pub fn is_empty(&self) -> bool
        ensures { result ≡ (length self.now == 0) }
    {
        self.len() == 0
    }

    /// Appends as many of the events that are left as the piece has capacity for: at most its capacity minus its
    /// length. A piece that is full gets none. Those after them are left then. Takes no memory.
    pub fn next_piece<A: Allocator>(&mut self, piece: &mut Vec<Event, A>)
        ensures appended { piece.new.items
            ≡ piece.old.items ++ take (vec_capacity piece.old - vec_len piece.old) self.old }
        ensures left { self.new ≡ drop (vec_capacity piece.old - vec_len piece.old) self.old }
        ensures room { vec_capacity piece.new ≡ vec_capacity piece.old }
    {
        self.first = self.first.after(self.program, piece);
        self.second = self.second.after(self.program, piece);
    }
}
