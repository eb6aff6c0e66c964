//! The decoder.

ghost use Rattle.std.specs.Prelude.{◌≡◌, ◌↔◌, ◌⊎◌, ◌+◌, ◌*◌, ◌/◌, ◌^◌, ◌≤◌, ◌<◌, List, [], ◌∷◌, ◌++◌, true, false};
ghost use Rattle.std.specs.Prelude.{Some, Ok, Err, length, vec_len, vec_capacity, IfErr, OnOk, IsTrue, Option, None};
ghost use Rattle.std.specs.Option.{unwrap_or};
ghost use Rattle.rvclass.specs.Memory.{byte_count};
ghost use Rattle.retire.specs.declared.event.Event.{Event};
ghost use Rattle.rvclass.specs.Fetch.{words_of};
ghost use Rattle.rvclass.specs.Words.{Words};
ghost use Rattle.payload.specs.Closing.{is_closing_packet};
ghost use Rattle.payload.specs.ClosedTrace.{last_is_closing};
ghost use Rattle.payload.specs.declared.mode.Mode.{Mode as AnyMode};
ghost use Rattle.payload.specs.declared.packet.Packet.{Packet};
ghost use Rattle.decoder.specs.Describes.{Describes};
ghost use Rattle.decoder.specs.Order.{IsOpen, open_packet};
ghost use Rattle.decoder.specs.Resuming.{IsSync, PassesOver, IsClosed, HasMode};
ghost use Rattle.decoder.specs.DecoderStands.{DecoderStands};
ghost use Rattle.decoder.specs.StateStands.{StateStands, decoder_of};
ghost use Rattle.decoder.specs.declared.state.DecoderState.{DecoderState as AnyState};
ghost use Rattle.decoder.specs.declared.fault.DecodeFault.TheVariants.{NotOpened, AfterClose, Memory};

use crate::fault::DecodeFault;
use crate::paths::{Paths, longest};
use crate::settling::Waiting;
use crate::state::{DecoderState, Phase};
use payload::{Mode, Packet};
use retire::Event;
use rvclass::ProgramOver;
use std::alloc::Allocator;

/// A decoder of one hart's trace: it takes the packets in their order, and adds to a log the events that they describe.
///
/// An address packet with plain bits is not settled before the next packet, so its events come with the packet that
/// follows it. The events of all other packets come at once. The packet that opens the trace announces the mode, and so
/// what address fields hold.
///
/// Where packets were lost, [`Decoder::resume`] lets the decoder begin a new stretch. It passes over packets until a
/// synchronisation comes. From there on it decodes as if the trace began with this synchronisation.
#[derive(Clone, Copy)]
pub struct Decoder {
    pub(crate) phase: Phase,
    pub(crate) waiting: Option<Waiting>,
    pub(crate) last: Option<Event>,
    /// The mode in which address fields are read.
    pub(crate) mode: Mode,
    /// The mode that the packet announced which opened the trace, where that packet came.
    pub(crate) announced: Option<Mode>,
    pub(crate) reported: u64,
}

impl Decoder {
    /// A decoder before the first packet.
    pub fn new() -> Decoder
        ensures stands { (words : Words) → DecoderStands words [] [] result }
        ensures unannounced { HasMode None result }
    {
        Decoder {
            phase: Phase::Unopened,
            waiting: None,
            last: None,
            mode: Mode::Differential,
            announced: None,
            reported: 0,
        }
    }

    /// All that the decoder remembers, from which [`Decoder::from_state`] makes it again.
    pub fn state(&self) -> DecoderState
        ensures stands { (words : Words) (packets : List Packet) (log : List Event)
            → DecoderStands words packets log self.now → StateStands words packets log result }
        ensures whole { decoder_of result ≡ self.now }
    {
        DecoderState {
            phase: self.phase,
            waiting: self.waiting,
            last: self.last,
            mode: self.mode,
            announced: self.announced,
            reported: self.reported,
        }
    }

    /// The decoder that remembers this. Each state has one, also a state that no packets lead to: of that one
    /// [`Decoder::feed`] promises only what it promises of every decoder.
    pub fn from_state(state: DecoderState) -> Decoder
        ensures stands { (words : Words) (packets : List Packet) (log : List Event)
            → StateStands words packets log state → DecoderStands words packets log result }
        ensures whole { result ≡ decoder_of state }
        ensures only { (other : AnyState) → result ≡ decoder_of other → other ≡ state }
    {
        Decoder {
            phase: state.phase,
            waiting: state.waiting,
            last: state.last,
            mode: state.mode,
            announced: state.announced,
            reported: state.reported,
        }
    }

    /// Whether the packet that closes the trace came.
    pub fn is_closed(&self) -> bool
        ensures last_closes { (words : Words) (packets : List Packet) (log : List Event)
            → DecoderStands words packets log self.now → result ≡ last_is_closing packets }
        ensures closed { IsTrue result ↔ IsClosed self.now }
    {
        self.phase == Phase::Closed
    }

    /// Goes on after packets that were lost. A packet that waits is dropped, and the last event is forgotten. Until the
    /// next synchronisation each packet is Ok and adds nothing, but a packet that closes the trace closes the decoder.
    ///
    /// The synchronisation begins a stretch as if it came right after the packet that opens a trace. Hand in an empty
    /// list for each stretch, since events that a list has already belong to none of its packets.
    ///
    /// The stretch is read in the mode that the packet announced which opened the trace. Where that packet did not
    /// come, it is read in the mode handed in. A decoder that is closed stays as it is. Takes no memory.
    pub fn resume(&mut self, mode: Mode)
        ensures passes_over { (announced : Option AnyMode) → HasMode announced self.old → ¬ IsClosed self.old
            → PassesOver (unwrap_or announced mode) self.new }
        ensures mode_kept { (announced : Option AnyMode) → HasMode announced self.old → HasMode announced self.new }
        ensures stays_closed { IsClosed self.old → self.new ≡ self.old }
    {
        if self.phase != Phase::Closed {
            *self = Decoder {
                phase: Phase::PassingOver,
                waiting: None,
                last: None,
                mode: self.announced.unwrap_or(mode),
                announced: self.announced,
                reported: 0,
            };
        }
    }

    /// Takes the next packet, and adds the events that it settles to the log. Hand in the same program at each call,
    /// and the log with the events of the packets before, or any other list: it grows by the same events.
    ///
    /// A fault leaves the decoder and the log as they were: the packet may be fed again where an allocation failed.
    /// Events that were written before the fault are removed again. The log's capacity grows only where it is too
    /// small.
    pub fn feed<A: Allocator>(
        &mut self,
        program: &ProgramOver,
        packet: &Packet,
        log: &mut Vec<Event, A>,
    ) -> Result<(), DecodeFault>
        ensures stands { (packets : List Packet) → DecoderStands (words_of program.now) packets log.old.items self.old
            → OnOk result (DecoderStands (words_of program.now) (packets ++ packet.now ∷ []) log.new.items self.new) }
        ensures goes_on { (rest : List Event) × (log.new.items ≡ log.old.items ++ rest) }
        ensures only { (packets : List Packet) → DecoderStands (words_of program.now) packets log.old.items self.old
            → OnOk result ((other : List Event) → Describes (words_of program.now) (packets ++ packet.now ∷ []) other
            → other ≡ log.new.items) }
        ensures none { (packets : List Packet) → DecoderStands (words_of program.now) packets log.old.items self.old
            → IfErr result (λ fault. (fault ≡ Memory)
            ⊎ ((other : List Event) → ¬ Describes (words_of program.now) (packets ++ packet.now ∷ []) other)) }
        ensures kept { IfErr result (λ fault. self.new ≡ self.old) }
        ensures list_kept { IfErr result (λ fault. log.new.items ≡ log.old.items) }
        ensures closed { (packets : List Packet) → DecoderStands (words_of program.now) packets log.old.items self.old
            → (result ≡ Err AfterClose) ↔ (last_is_closing packets ≡ true) }
        ensures not_opened { (packets : List Packet)
            → DecoderStands (words_of program.now) packets log.old.items self.old
            → (result ≡ Err NotOpened) ↔ ((packets ≡ []) × ¬ IsOpen packet.now) }
        ensures memory { (packets : List Packet) → DecoderStands (words_of program.now) packets log.old.items self.old
            → result ≡ Err Memory
            → (other : List Event) × Describes (words_of program.now) (packets ++ packet.now ∷ []) other
            × (vec_capacity log.old < length other) }
        ensures short { vec_len log.new ≤ vec_len log.old + 2 * (32 * (byte_count program.now / 2)) + 2 }

        // A closed decoder, and the mode that the packet announces which opens the trace.
        ensures after_close { (result ≡ Err AfterClose) ↔ IsClosed self.old }
        ensures announced { (mode : AnyMode) → packet.now ≡ open_packet mode
            → DecoderStands (words_of program.now) [] [] self.old → OnOk result (HasMode (Some mode) self.new) }
        ensures mode_kept { (mode : Option AnyMode) → HasMode mode self.old → ¬ IsOpen packet.now
            → HasMode mode self.new }

        // Any list: the events are appended to those that it has.
        ensures adds { (packets : List Packet) (before added : List Event)
            → DecoderStands (words_of program.now) packets before self.old → log.new.items ≡ log.old.items ++ added
            → OnOk result (DecoderStands (words_of program.now) (packets ++ packet.now ∷ []) (before ++ added)
            self.new) }
        ensures adds_none { (packets : List Packet) (before : List Event)
            → DecoderStands (words_of program.now) packets before self.old
            → IfErr result (λ fault. (fault ≡ Memory)
            ⊎ ((other : List Event) → ¬ Describes (words_of program.now) (packets ++ packet.now ∷ []) other)) }
        ensures adds_closed { (packets : List Packet) (before : List Event)
            → DecoderStands (words_of program.now) packets before self.old
            → (result ≡ Err AfterClose) ↔ (last_is_closing packets ≡ true) }
        ensures adds_first { (packets : List Packet) (before : List Event)
            → DecoderStands (words_of program.now) packets before self.old
            → (result ≡ Err NotOpened) ↔ ((packets ≡ []) × ¬ IsOpen packet.now) }

        // A decoder that passes over packets. The events of the synchronisation are appended to those that the list
        // has.
        ensures passed_over { (mode : AnyMode) → PassesOver mode self.old → ¬ IsSync packet.now
            → is_closing_packet packet.now ≡ false
            → (result ≡ Ok tt) × (self.new ≡ self.old) × (log.new.items ≡ log.old.items) }
        ensures closes { (mode : AnyMode) → PassesOver mode self.old → is_closing_packet packet.now ≡ true
            → (result ≡ Ok tt) × IsClosed self.new × (log.new.items ≡ log.old.items) }
        ensures begins { (mode : AnyMode) → PassesOver mode self.old → IsSync packet.now
            → (stretch : List Event) → log.new.items ≡ log.old.items ++ stretch
            → OnOk result (DecoderStands (words_of program.now) (open_packet mode ∷ packet.now ∷ []) stretch
            self.new) }
        ensures begins_none { (mode : AnyMode) → PassesOver mode self.old → IsSync packet.now
            → IfErr result (λ fault. (fault ≡ Memory) ⊎ ((other : List Event)
            → ¬ Describes (words_of program.now) (open_packet mode ∷ packet.now ∷ []) other)) }
        ensures begins_memory { (mode : AnyMode) → PassesOver mode self.old → IsSync packet.now
            → result ≡ Err Memory → (other : List Event)
            × Describes (words_of program.now) (open_packet mode ∷ packet.now ∷ []) other
            × (vec_capacity log.old < vec_len log.old + length other) }
        ensures never_unopened { (mode : AnyMode) → PassesOver mode self.old → ¬ (result ≡ Err NotOpened) }
    {
        let paths = Paths {
            program,
            longest: longest(program),
            segments: &[],
            skips: &[],
        };
        self.feed_by(paths, packet, log)
    }
}

impl Default for Decoder {
    /// A decoder before the first packet.
    fn default() -> Decoder
        ensures stands { (words : Words) → DecoderStands words [] [] result }
        ensures unannounced { HasMode None result }
    {
        Decoder::new()
    }
}
