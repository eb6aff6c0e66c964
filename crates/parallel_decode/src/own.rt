//! The receiving end of one hart: it keeps no events.

ghost use Rattle.std.specs.Prelude.{◌≡◌, ◌++◌, ◌-◌, ◌^◌, List, [], ◌∷◌, Err, IfErr, IfOk, IsTrue, OnErr, length, min};
ghost use Rattle.retire.specs.declared.event.Event.{Event as AnyEvent};
ghost use Rattle.rvclass.specs.Fetch.{words_of};
ghost use Rattle.rvclass.specs.Words.{Words};
ghost use Rattle.payload.specs.declared.mode.Mode.{Mode as AnyMode};
ghost use Rattle.payload.specs.ClosedTrace.{last_is_closing};
ghost use Rattle.payload.specs.declared.packet.Packet.{Packet as AnyPacket};
ghost use Rattle.decoder.specs.DecoderStands.{DecoderStands};
ghost use Rattle.decoder.specs.declared.fault.DecodeFault.TheVariants.{Memory};
ghost use Rattle.message.specs.declared.message.Message.{Message as AnyMessage};
ghost use Rattle.receiver.specs.NotReceived.{IsNotDecoded};
ghost use Rattle.parallel_decode.specs.steps.OwnMessages.{IsOwn, IsOwnRefused};
ghost use Rattle.std.specs.Prelude.{Option};

use crate::feed_packet;
use crate::same::is_state;
use decoder::{DecodeFault, Decoder};
use message::{Hart, Message};
use payload::{Mode, Packet};
use receiver::{ReceiveFault, opens_another};
use rvclass::ProgramOver;
use std::alloc::Allocator;

/// What is expected of a hart, and its decoder.
#[derive(Clone, Copy)]
pub(crate) struct Own {
    pub(crate) expected: Hart,
    pub(crate) decoder: Decoder,
    /// Whether the hart's closing packet was decoded.
    pub(crate) closed: bool,
}

impl Own {
    /// Nothing was received.
    pub(crate) fn new() -> Own
        ensures { (words : Words) (announced : Option AnyMode) → IsOwn words announced [] [] result }
    {
        Own {
            expected: Hart::FIRST,
            decoder: Decoder::new(),
            closed: false,
        }
    }

    /// Whether this is the other one, where both are behind a retirement and no packet waits. Else the answer is no.
    pub(crate) fn is(&self, other: &Own) -> bool
        ensures { IsTrue result → self.now ≡ other.now }
    {
        if self.expected.expected != other.expected.expected {
            return false;
        }
        if self.expected.closed || other.expected.closed || self.closed || other.closed {
            return false;
        }
        is_state(&self.decoder.state(), &other.decoder.state())
    }

    /// Receives the hart's next message; the events are thrown away. Returns how many they are, or 2^64 - 1 if there
    /// are more. Where a mode was announced before, a packet that opens a trace in another mode is a fault.
    pub(crate) fn receive<A: Allocator>(
        &mut self,
        alloc: A,
        program: &ProgramOver,
        announced: Option<Mode>,
        message: &Message,
    ) -> Result<u64, ReceiveFault>
        ensures received { (messages : List AnyMessage) (log : List AnyEvent)
            → IsOwn (words_of program.now) announced messages log self.old
            → IfOk result (λ events. (added : List AnyEvent) × (events ≡ min (2 ^ 64 - 1) (length added))
            × IsOwn (words_of program.now) announced (messages ++ message.now ∷ []) (log ++ added) self.new) }
        ensures refused { (messages : List AnyMessage) (log : List AnyEvent)
            → IsOwn (words_of program.now) announced messages log self.old
            → IfErr result (IsOwnRefused (words_of program.now) announced messages message.now) }
        ensures never_memory { ¬ (result ≡ Err (ReceiveFault.Decode Memory)) }
        ensures flag { OnErr result (self.new.closed ≡ self.old.closed) }
    {
        let packet = match self.expected.accept(message) {
            Ok(packet) => packet,
            Err(fault) => return Err(ReceiveFault::Demux(fault)),
        };
        if opens_another(announced, &packet) {
            return Err(ReceiveFault::Mode);
        }
        match self.decode(alloc, program, &packet) {
            Ok(events) => Ok(events),
            Err(fault) => Err(ReceiveFault::Decode(fault)),
        }
    }

    /// Decodes the hart's next packet; the events are thrown away.
    fn decode<A: Allocator>(
        &mut self,
        alloc: A,
        program: &ProgramOver,
        packet: &Packet,
    ) -> Result<u64, DecodeFault>
        ensures decoded { (packets : List AnyPacket) (log : List AnyEvent)
            → DecoderStands (words_of program.now) packets log self.old.decoder
            → IfOk result (λ events. (added : List AnyEvent) × (events ≡ min (2 ^ 64 - 1) (length added))
            × DecoderStands (words_of program.now) (packets ++ packet.now ∷ []) (log ++ added) self.new.decoder) }
        ensures not_decoded { (packets : List AnyPacket) (log : List AnyEvent)
            → DecoderStands (words_of program.now) packets log self.old.decoder
            → IfErr result (IsNotDecoded (words_of program.now) packets packet.now) }
        ensures closed { (packets : List AnyPacket)
            → IfOk result (λ events. self.new.closed ≡ last_is_closing (packets ++ packet.now ∷ [])) }
        ensures never_memory { ¬ (result ≡ Err Memory) }
        ensures kept { (self.new.expected ≡ self.old.expected) × OnErr result (self.new.closed ≡ self.old.closed) }
    {
        let mut piece = Vec::new(alloc);
        match feed_packet(&mut self.decoder, program, packet, &mut piece) {
            Ok(left) => {
                self.closed = packet.is_closing();
                let written = piece.len() as u64;
                Ok(written.saturating_add(left.len() as u64))
            }
            Err(fault) => Err(fault),
        }
    }
}
