//! The demultiplexer.
ghost use Rattle.std.specs.Prelude.{◌≡◌, ◌↔◌, ◌≤◌, ◌<◌, ◌+◌, ℕ, length, replicate, slice_set, Some, OnErr, IfOk};
ghost use Rattle.std.specs.Prelude.{Err, Ok};
ghost use Rattle.message.specs.Harts.{Harts, newcomer, end_of_numbers, Expects, IsOver, has_closed};
ghost use Rattle.message.specs.Accepting.{accepting, harts_after, next_of};
ghost use Rattle.message.specs.Lossy.{accepting_lossy, harts_after_lossy};
ghost use Rattle.payload.specs.Reading.{reading};
ghost use Rattle.payload.specs.declared.fault.PackFault.{PackFault as AnyFault};
ghost use Rattle.payload.specs.declared.packet.Packet.{Packet as AnyPacket};

use crate::hart::Hart;
use crate::{DemuxFault, Message};
use payload::Packet;
use std::alloc::{AllocError, Allocator, Global};
use std::marker::Model;

/// Splits the messages of several harts by hart, and accepts only those that come in each hart's order.
#[derive(Drop)]
pub struct Demux<A: Allocator = Global> {
    harts: Vec<Hart, A>,
}

impl<A: Allocator> Model for Demux<A> {
    ghost Value = { Harts };

    ghost view = { λ demux. demux.harts.items };
}

impl<A: Allocator> Demux<A> {
    /// A demultiplexer that knows the harts below `harts`, and has accepted no message of theirs.
    pub fn new(alloc: A, harts: u16) -> Result<Demux<A>, AllocError>
        ensures { IfOk result (λ demux. demux ≡ replicate harts newcomer) }
    {
        Ok(Demux {
            harts: vec![in alloc; Hart::FIRST; usize::from(harts)]?,
        })
    }

    /// Returns the packet of the message, where its hart is known and still open, and its number is the expected one. A
    /// fault changes nothing.
    pub fn accept(&mut self, message: &Message) -> Result<Packet, DemuxFault>
        ensures accepted { (packet : AnyPacket) → (result ≡ Ok packet)
            ↔ (Expects self.old message.now.hart (λ expected. expected ≡ message.now.number)
            × (reading message.now.payload ≡ Ok packet)) }
        ensures stranger { (result ≡ Err DemuxFault.Stranger) ↔ (length self.old ≤ message.now.hart) }
        ensures after_close { (result ≡ Err DemuxFault.AfterClose) ↔ IsOver self.old message.now.hart }
        ensures repeat { (result ≡ Err DemuxFault.Repeat)
            ↔ Expects self.old message.now.hart (λ expected. message.now.number < expected) }
        ensures gap { (k : ℕ) → (result ≡ Err (DemuxFault.Gap k))
            ↔ Expects self.old message.now.hart (λ expected. (expected ≡ k) × (k < message.now.number)) }
        ensures bad_packet { (why : AnyFault) → (result ≡ Err (DemuxFault.Packet why))
            ↔ (Expects self.old message.now.hart (λ expected. expected ≡ message.now.number)
            × (reading message.now.payload ≡ Err why)) }

        ensures moves { IfOk result
            (λ packet. self.new ≡ slice_set self.old message.now.hart (next_of message.now.number packet)) }
        ensures refused { OnErr result (self.new ≡ self.old) }

        // What is answered and what is expected then are functions of the message and of what was expected.
        ensures value { result ≡ accepting self.old message.now }
        ensures state { self.new ≡ harts_after self.old message.now }
    {
        self.accept_by_hart(message)
    }

    /// As [`Demux::accept`], by the state of the message's hart.
    fn accept_by_hart(&mut self, message: &Message) -> Result<Packet, DemuxFault>
        ensures value { result ≡ accepting self.old message.now }
        ensures state { self.new ≡ harts_after self.old message.now }
    {
        match self.harts.get_mut(usize::from(message.hart)) {
            Some(hart) => hart.accept(message),
            None => Err(DemuxFault::Stranger),
        }
    }

    /// As [`Demux::accept`] where messages may be lost: the message may be the next of its hart, or a later one.
    /// Returns its packet, and how many numbers of the hart are missing before it. Then the number after its own is
    /// expected.
    ///
    /// [`DemuxFault::Gap`] comes only for a number of 2^63 or more. A fault changes nothing. Takes no memory.
    pub fn accept_lossy(&mut self, message: &Message) -> Result<(Packet, u64), DemuxFault>
        ensures accepted { (packet : AnyPacket) (missing : ℕ) → (result ≡ Ok (packet, missing))
            ↔ (Expects self.old message.now.hart (λ expected. (expected + missing ≡ message.now.number)
            × (message.now.number < end_of_numbers)) × (reading message.now.payload ≡ Ok packet)) }
        ensures stranger { (result ≡ Err DemuxFault.Stranger) ↔ (length self.old ≤ message.now.hart) }
        ensures after_close { (result ≡ Err DemuxFault.AfterClose) ↔ IsOver self.old message.now.hart }
        ensures repeat { (result ≡ Err DemuxFault.Repeat)
            ↔ Expects self.old message.now.hart (λ expected. message.now.number < expected) }
        ensures gap { (k : ℕ) → (result ≡ Err (DemuxFault.Gap k))
            ↔ Expects self.old message.now.hart (λ expected. (expected ≡ k) × (end_of_numbers ≤ message.now.number)) }
        ensures bad_packet { (why : AnyFault) → (result ≡ Err (DemuxFault.Packet why))
            ↔ (Expects self.old message.now.hart (λ expected. (expected ≤ message.now.number)
            × (message.now.number < end_of_numbers)) × (reading message.now.payload ≡ Err why)) }

        ensures moves { IfOk result
            (λ taken. self.new ≡ slice_set self.old message.now.hart (next_of message.now.number taken.0)) }
        ensures refused { OnErr result (self.new ≡ self.old) }

        // What is answered and what is expected then are functions of the message and of what was expected.
        ensures value { result ≡ accepting_lossy self.old message.now }
        ensures state { self.new ≡ harts_after_lossy self.old message.now }
    {
        self.accept_lossy_by_hart(message)
    }

    /// As [`Demux::accept_lossy`], by the state of the message's hart.
    fn accept_lossy_by_hart(&mut self, message: &Message) -> Result<(Packet, u64), DemuxFault>
        ensures value { result ≡ accepting_lossy self.old message.now }
        ensures state { self.new ≡ harts_after_lossy self.old message.now }
    {
        match self.harts.get_mut(usize::from(message.hart)) {
            Some(hart) => hart.accept_lossy(message),
            None => Err(DemuxFault::Stranger),
        }
    }

    /// Whether the hart's closing packet was accepted: false for a hart that the demultiplexer does not know.
    pub fn is_closed(&self, hart: u16) -> bool
        ensures { result ≡ has_closed self.now hart }
    {
        match self.harts.get(usize::from(hart)) {
            Some(state) => state.closed,
            None => false,
        }
    }
}
