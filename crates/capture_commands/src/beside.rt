//! What is decoded of a hart, beside its log.

ghost use Rattle.std.specs.Prelude.{◌≡◌, ◌≤◌, ◌<◌, ◌++◌, [], List, IfOk, false, length, take, true};
ghost use Rattle.comparing.specs.Compared.{HasCompared};
ghost use Rattle.parallel_decode.specs.Placed.{IsPlacedLog};
ghost use Rattle.capture_commands.specs.steps.Beside.{IsBeside, IsDecodedTo, IsRefilled};
ghost use Rattle.retire.specs.Log.{most_long_rows};
ghost use Rattle.retire.specs.declared.event.Event.{Event as AnyEvent};
ghost use Rattle.rvclass.specs.Fetch.{words_of};

use comparing::Comparing;
use parallel_decode::HartEvents;
use retire::Event;
use rvclass::ProgramOver;
use std::alloc::{AllocError, Global};

/// How many decoded events are held.
const PIECE: usize = 2_048;

/// The events that are decoded of a hart, compared with those of its log as far as these came. It holds a piece of
/// them, and its memory is taken at the start.
#[derive(Drop)]
pub(crate) struct Beside<'d> {
    /// The events after those of the piece.
    pub(crate) events: HartEvents<'d>,
    pub(crate) piece: Vec<Event>,
    /// How many events of the piece are compared.
    pub(crate) at: usize,
    pub(crate) comparing: Comparing,
}

impl<'d> Beside<'d> {
    /// Begins with the hart whose messages begin at these places of the bytes. The error says that an allocation
    /// failed.
    pub(crate) fn new(
        alloc: Global,
        program: &'d ProgramOver<'d>,
        bytes: &'d [u8],
        places: &'d [usize],
    ) -> Result<Beside<'d>, AllocError>
        ensures { IfOk result (λ beside. (log : List AnyEvent)
            → IsPlacedLog (words_of program.now) bytes.now places.now log → IsBeside log [] beside) }
    {
        let piece = Vec::with_capacity(alloc, PIECE)?;
        let events = HartEvents::new(program, bytes, places);
        let comparing = Comparing::new();
        Ok(Beside {
            events,
            piece,
            at: 0,
            comparing,
        })
    }

    /// Compares the next events of the log with those that are decoded next. A log has at most 4,294,967,295 events.
    pub(crate) fn add(&mut self, events: &[Event])
        ensures { (log seen : List AnyEvent) → IsBeside log seen self.old
            → length (seen ++ events.now) ≤ most_long_rows → IsBeside log (seen ++ events.now) self.new }
    {
        let mut done = 0;
        while done < events.len() {
            done += self.add_some(&events[done..]);
        }
    }

    /// Compares the first of these events of the log, and returns how many: one at least.
    fn add_some(&mut self, events: &[Event]) -> usize
        requires { 1 ≤ length events.now }
        ensures some { 1 ≤ result }
        ensures within { result ≤ length events.now }
        ensures added { (log seen : List AnyEvent) → IsBeside log seen self.old
            → length (seen ++ events.now) ≤ most_long_rows → IsBeside log (seen ++ take result events.now) self.new }
    {
        self.refill();
        if !self.has_held() {
            self.comparing.add(&[], events);
            return events.len();
        }
        let count = events.len().min(self.piece.len() - self.at);
        let end = self.at + count;
        self.comparing
            .add(&self.piece[self.at..end], &events[..count]);
        self.at = end;
        count
    }

    /// Whether an event is held that is not compared.
    fn has_held(&self) -> bool
        ensures held { result ≡ true → self.now.at < length self.now.piece.items }
        ensures none { result ≡ false → length self.now.piece.items ≤ self.now.at }
    {
        self.at < self.piece.len()
    }

    /// Decodes another piece, if all events of the last one are compared.
    fn refill(&mut self)
        ensures { (log seen : List AnyEvent) → (to : IsDecodedTo log seen self.old)
            → IsRefilled log seen to.before self.new }
    {
        if self.has_held() {
            return;
        }
        self.piece.clear();
        self.at = 0;
        self.events.next_piece(&mut self.piece);
    }

    /// Counts the decoded events that come after the end of the log, and returns how both compare.
    pub(crate) fn finish(&mut self) -> Result<Comparing, AllocError>
        ensures { (log seen : List AnyEvent) → IsBeside log seen self.old → length seen ≤ most_long_rows
            → IfOk result (HasCompared log seen) }
    {
        for _ in 0..u64::MAX {
            self.refill();
            if !self.has_held() {
                return Ok(self.comparing);
            }
            self.comparing.add(&self.piece[self.at..], &[]);
            self.at = self.piece.len();
        }
        Err(AllocError)
    }
}
