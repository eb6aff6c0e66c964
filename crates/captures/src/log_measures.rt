//! Counting a log whose events come piece by piece.

ghost use Rattle.std.specs.Prelude.{◌≡◌, ◌+◌, ◌-◌, ◌≤◌, ◌^◌, ◌++◌, ℕ, List, [], length};
ghost use Rattle.retire.specs.declared.event.Event.{Event as AnyEvent};
ghost use Rattle.rvclass.specs.Fetch.{words_of};
ghost use Rattle.rvclass.specs.Words.{Words};
ghost use Rattle.legalpath.specs.Legal.{Legal};
ghost use Rattle.legalpath.specs.ProgramLog.{program_log};
ghost use Rattle.payload.specs.declared.mode.Mode.{Mode as AnyMode};
ghost use Rattle.captures.specs.Bounds.{AreWithin, most_counted};
ghost use Rattle.captures.specs.HasCounted.{Counted, HasCounted};
ghost use Rattle.captures.specs.Measures.{measures_of};
ghost use Rattle.captures.specs.steps.Counting.{AreKept};

use crate::measure_counting::{count_all, count_events, count_packet, count_packets};
use crate::measures::Measures;
use encoder::Encoder;
use legalpath::LegalLog;
use payload::Mode;
use retire::Event;
use rvclass::ProgramOver;
use std::alloc::Allocator;
use std::marker::Model;

/// Counts the events and the packets of a log whose events come piece by piece, and returns of all of them what
/// [`measure`] returns of a legal log. It counts at most 2^32 - 1 events, as many as a long log can have. It keeps the
/// counts and what an encoder keeps, and no call allocates.
#[derive(Drop)]
pub struct LogMeasures {
    encoder: Encoder,
    measures: Measures,
}

impl Model for LogMeasures {
    ghost Value = { Counted };

    ghost view = { λ log. record { encoder = log.encoder; measures = log.measures; rows = log.measures.events } };

    ghost invariant = { λ log. AreKept log.measures };
}

impl LogMeasures {
    /// The counts of no event, and of the packet that opens the trace, at this period and in this mode.
    pub fn new(period: u16, mode: Mode) -> LogMeasures
        requires { 1 ≤ period }
        ensures none { (words : Words) → HasCounted words period mode [] result }
        ensures rows { result.rows ≡ 0 }
    {
        let mut encoder = Encoder::new(period, mode);
        let mut measures = Measures::none();
        let opening = encoder.open();
        count_packet(&mut measures, &opening);
        LogMeasures { encoder, measures }
    }

    /// How many events are counted.
    pub fn rows(&self) -> u64
        ensures { result ≡ self.now.rows }
    {
        self.measures.events
    }

    /// Counts the events that come next, and the packets that they make due. The program is the one that the events
    /// before were counted with. With the events before, these may be at most 2^32 - 1; [`rows`](LogMeasures::rows)
    /// returns how many were counted so far. If all events so far are no legal log of the program, each event is
    /// counted, but the counts of packets say nothing.
    pub fn add(&mut self, program: &ProgramOver, events: &[Event])
        requires few { self.old.rows + length events.now ≤ 2 ^ 32 - 1 }
        ensures counted { (period : ℕ) (mode : AnyMode) (seen : List AnyEvent) →
            HasCounted (words_of program.now) period mode seen self.old →
            Legal (words_of program.now) (seen ++ events.now) →
            HasCounted (words_of program.now) period mode (seen ++ events.now) self.new }
        ensures rows { self.new.rows ≡ self.old.rows + length events.now }
    {
        count_events(&mut self.measures, events);
        count_packets(&mut self.measures, &mut self.encoder, program, events);
    }

    /// The counts of the log that ends here: of its events, of all its packets and of their payloads.
    pub fn finish(self, program: &ProgramOver) -> Measures
        ensures value { (period : ℕ) (mode : AnyMode) (seen : List AnyEvent) →
            HasCounted (words_of program.now) period mode seen self →
            result ≡ measures_of period mode (program_log program.now seen) }
        // Of any events, the counts of 2^16 harts can be added up.
        ensures few { AreWithin most_counted result }
    {
        let mut measures = self.measures;
        count_all(&mut measures, self.encoder.finish(program).as_slice());
        measures
    }
}

/// Counts the events of a legal log, and its packets and their payload bytes at this period and in this mode.
///
/// Each packet counts by its shortest payload. The call allocates nothing.
pub fn measure<A: Allocator>(log: &LegalLog<'_, A>, period: u16, mode: Mode) -> Measures
    requires { 1 ≤ period }
    ensures { result ≡ measures_of period mode log.now }
{
    measure_log(log, period, mode)
}

/// Counts the events and packets of a log.
pub(crate) fn measure_log<A: Allocator>(log: &LegalLog<'_, A>, period: u16, mode: Mode) -> Measures
    requires { 1 ≤ period }
    ensures value { result ≡ measures_of period mode log.now }
    ensures few { AreWithin most_counted result }
{
    let mut counted = LogMeasures::new(period, mode);
    counted.add(log.program(), log.events());
    counted.finish(log.program())
}
