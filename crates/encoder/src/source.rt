//! The payloads of a log, one at a time.

ghost use Rattle.std.specs.Prelude.{◌≡◌, ◌≤◌, ℕ, All, IfSome, slice_get};
ghost use Rattle.std.specs.Option.{option_to_list};
ghost use Rattle.rvclass.specs.Fetch.{words_of};
ghost use Rattle.legalpath.specs.ProgramLog.{ProgramLog};
ghost use Rattle.payload.specs.Profile.{InProfile};
ghost use Rattle.payload.specs.declared.mode.Mode.{Mode};
ghost use Rattle.encoder.specs.Packets.{packets};
ghost use Rattle.encoder.specs.Payloads.{payloads};
ghost use Rattle.encoder.specs.SourceAt.{SourceAt, IsAt, number_behind};
ghost use Rattle.encoder.specs.steps.SourceFields.{packets_of_log, stands_at, IsSource};

use crate::encoder::Encoder;
use legalpath::LegalLog;
use payload::{Mode, Packet, Payload, pack};
use std::alloc::{Allocator, Global};
use std::marker::Model;

/// Which payloads of a log are still to come: the stage that a source has reached.
#[derive(Clone, Copy)]
pub(crate) enum Stage {
    /// All of them.
    Opening,
    /// Those of events, and the closing one.
    Running,
    /// The closing one.
    Closing,
    /// None.
    Ended,
}

/// Gives the payloads of a legal log, one at a time and in order: the shortest payload of each of its packets, or the
/// packet itself. No call takes memory.
#[derive(Drop)]
pub struct Source<'l, 'p, A: Allocator = Global> {
    log: &'l LegalLog<'p, A>,
    encoder: Encoder,
    /// Which payloads are still to come.
    stage: Stage,
    /// How many events the encoder was given.
    taken: usize,
}

impl<'l, 'p, A: Allocator> Model for Source<'l, 'p, A> {
    ghost Value = { SourceAt };

    ghost view = { λ s. stands_at s.log.now s.encoder s.stage s.taken };

    ghost invariant = { λ s. IsSource s.log.now s.encoder s.stage s.taken };
}

impl<'l, 'p, A: Allocator> Source<'l, 'p, A> {
    /// A source at the first payload of this log, with a sync at each retirement whose number, from 0, the period
    /// divides, and with addresses reported in this mode.
    pub fn new(log: &'l LegalLog<'p, A>, period: u16, mode: Mode) -> Source<'l, 'p, A>
        requires { 1 ≤ period }
        ensures { IsAt period mode log.now 0 result }
    {
        Source {
            log,
            encoder: Encoder::new(period, mode),
            stage: Stage::Opening,
            taken: 0,
        }
    }

    /// The payload that comes next; `None` after the closing one, and from then on.
    pub fn next(&mut self) -> Option<Payload>
        ensures given { (period number : ℕ) (mode : Mode) (log : ProgramLog) →
            IsAt period mode log number self.old →
            result ≡ slice_get (payloads period mode log) number }
        ensures goes_on { (period number : ℕ) (mode : Mode) (log : ProgramLog) →
            IsAt period mode log number self.old →
            IsAt period mode log (number_behind number result) self.new }
    {
        match self.packet() {
            Some(packet) => Some(pack(&packet)),
            None => None,
        }
    }

    /// The packet that comes next, in place of its payload; `None` after the closing one, and from then on.
    pub fn next_packet(&mut self) -> Option<Packet>
        ensures given { (period number : ℕ) (mode : Mode) (log : ProgramLog) →
            IsAt period mode log number self.old →
            result ≡ slice_get (packets (words_of log.program) period mode log.events) number }
        ensures goes_on { (period number : ℕ) (mode : Mode) (log : ProgramLog) →
            IsAt period mode log number self.old →
            IsAt period mode log (number_behind number result) self.new }
        ensures profile { IfSome result InProfile }
    {
        self.packet()
    }

    /// The packet that comes next.
    fn packet(&mut self) -> Option<Packet>
        ensures given { result ≡ slice_get (packets_of_log self.old.period self.old.mode self.old.log) self.old.number }
        ensures goes_on { self.new ≡ record self.old { number = number_behind self.old.number result } }
        ensures profile { All InProfile (option_to_list result) }
    {
        match self.stage {
            Stage::Opening => {
                self.stage = Stage::Running;
                Some(Packet::Support(self.encoder.opening()))
            }
            Stage::Running => {
                let log = self.log;
                let rest = &log.events()[self.taken..];
                let (count, next) = self.encoder.push_until_packet(log.program(), rest);
                self.taken += count;
                if let Some(packet) = next {
                    return Some(packet);
                }
                if let Some(packet) = self.encoder.last() {
                    self.stage = Stage::Closing;
                    return Some(packet);
                }
                self.stage = Stage::Ended;
                Some(Packet::Support(self.encoder.closing()))
            }
            Stage::Closing => {
                self.stage = Stage::Ended;
                Some(Packet::Support(self.encoder.closing()))
            }
            Stage::Ended => None,
        }
    }
}
