//! The receiver.

ghost use Rattle.std.specs.Prelude.{ℕ, ◌≡◌, ◌≢◌, ◌<◌, ◌⊎◌, ◌↔◌, ◌++◌, true, List, [], ◌∷◌, Some, Ok, Err, IfErr, IfOk};
ghost use Rattle.std.specs.Prelude.{OnErr, OnOk, length, replicate, slice_get};
ghost use Rattle.retire.specs.declared.event.Event.{Event as AnyEvent};
ghost use Rattle.rvclass.specs.Fetch.{words_of};
ghost use Rattle.rvclass.specs.Words.{Words};
ghost use Rattle.payload.specs.ClosedTrace.{last_is_closing};
ghost use Rattle.payload.specs.Reading.{reading};
ghost use Rattle.payload.specs.declared.packet.Packet.{Packet as AnyPacket};
ghost use Rattle.decoder.specs.Describes.{Describes};
ghost use Rattle.decoder.specs.Order.{IsOpen};
ghost use Rattle.decoder.specs.declared.fault.DecodeFault.{DecodeFault as AnyDecodeFault};
ghost use Rattle.decoder.specs.declared.fault.DecodeFault.TheVariants.{NotOpened, AfterClose, Memory};
ghost use Rattle.message.specs.Accepting.{accepting, harts_after};
ghost use Rattle.message.specs.OfHart.{packets_of};
ghost use Rattle.message.specs.declared.fault.DemuxFault.{DemuxFault as AnyDemuxFault};
ghost use Rattle.message.specs.declared.message.Message.{Message as AnyMessage};
ghost use Rattle.receiver.specs.Agreeing.{Agrees, opens_another};
ghost use Rattle.receiver.specs.Holds.{AreDecoded, HasAccepted, HasReceived, Holds, HoldsHart};
ghost use Rattle.receiver.specs.Received.{Received, IsReceived, IsSameHart, events_in};
ghost use Rattle.receiver.specs.NotReceived.{IsNotDecoded, IsNotReceived};

use crate::fault::ReceiveFault;
use decoder::{DecodeFault, Decoder};
use message::{Demux, DemuxFault, Message};
use payload::{Mode, Packet, Support};
use retire::Event;
use rvclass::ProgramOver;
use std::alloc::{AllocError, Allocator, Global};
use std::marker::Model;

/// The receiving end of several harts: a demultiplexer, and of each hart a decoder and a list of events.
#[derive(Drop)]
pub struct Receiver<A: Allocator = Global> {
    demux: Demux<A>,
    /// The decoder of each hart.
    decoders: Vec<Decoder, A>,
    /// The events of each hart.
    lists: Vec<Vec<Event, A>, A>,
    /// Whether each hart's closing packet was decoded.
    closed: Vec<bool, A>,
}

impl<A: Allocator> Model for Receiver<A> {
    ghost Value = { Received };

    ghost view = { λ r. record {
      expected = r.demux;
      decoders = r.decoders.items;
      lists = events_in r.lists.items;
      closed = r.closed.items;
    } };

    ghost invariant = { λ r. IsReceived (record {
      expected = r.demux;
      decoders = r.decoders.items;
      lists = events_in r.lists.items;
      closed = r.closed.items;
    }) };
}

impl<A: Allocator + Copy> Receiver<A> {
    /// A receiver that knows the harts below `harts`, and accepted no message yet.
    pub fn new(alloc: A, harts: u16) -> Result<Receiver<A>, AllocError>
        ensures { (programs : ℕ → Words) → IfOk result (λ receiver. HasReceived programs harts [] receiver) }
    {
        let count = usize::from(harts);
        Ok(Receiver {
            demux: Demux::new(alloc, harts)?,
            decoders: vec![in alloc; Decoder::new(); count]?,
            lists: empty_lists(alloc, count)?,
            closed: vec![in alloc; false; count]?,
        })
    }

    /// Returns the packet of the message, where a demultiplexer accepts it: its hart is known and still open, and the
    /// message is the hart's next. The packet's events are not in the hart's list yet: [`Receiver::decode`] adds them.
    /// A refusal changes nothing. No memory is taken.
    pub fn accept(&mut self, message: &Message) -> Result<Packet, DemuxFault>
        ensures value { result ≡ accepting self.old.expected message.now }
        ensures state { self.new ≡ record self.old { expected = harts_after self.old.expected message.now } }
        ensures accepted { (harts : ℕ) (messages : List AnyMessage) → HasAccepted harts messages self.old
            → OnOk result (HasAccepted harts (messages ++ message.now ∷ []) self.new) }
        ensures refused { OnErr result (self.new ≡ self.old) }
        ensures packet { IfOk result (λ packet. reading message.now.payload ≡ Ok packet) }
        ensures known { IfOk result (λ packet. message.now.hart < length self.new.lists) }
        ensures others { (other : ℕ) → other ≢ message.now.hart → IsSameHart other self.old self.new }
    {
        self.demux.accept(message)
    }

    /// Decodes the hart's next packet, and adds the events that it settles to the hart's list. The program is that of
    /// the hart. A fault leaves the receiver as it was; where an allocation failed, the packet may be decoded again.
    pub fn decode(
        &mut self,
        program: &ProgramOver,
        hart: u16,
        packet: &Packet,
    ) -> Result<(), DecodeFault>
        requires known { hart < length self.old.lists }

        // The receiver then holds for the hart what this packet describes too. What it holds for the others stays.
        ensures hart { (packets : List AnyPacket) → HoldsHart (words_of program.now) hart packets self.old
            → OnOk result (HoldsHart (words_of program.now) hart (packets ++ packet.now ∷ []) self.new) }
        ensures others { (other : ℕ) → other ≢ hart → IsSameHart other self.old self.new }

        // Where the packet is that of one more message of the hart, the receiver holds what that message describes too.
        ensures decoded { (programs : ℕ → Words) (harts : ℕ) (messages : List AnyMessage) (message : AnyMessage)
            → programs hart ≡ words_of program.now → message.hart ≡ hart → reading message.payload ≡ Ok packet.now
            → Holds programs harts messages self.old
            → OnOk result (Holds programs harts (messages ++ message ∷ []) self.new) }
        ensures none { (packets : List AnyPacket) → HoldsHart (words_of program.now) hart packets self.old
            → IfErr result (λ fault. (fault ≡ Memory)
            ⊎ ((log : List AnyEvent) → ¬ Describes (words_of program.now) (packets ++ packet.now ∷ []) log)) }
        ensures memory { (packets : List AnyPacket) (list : List AnyEvent)
            → HoldsHart (words_of program.now) hart packets self.old
            → slice_get self.old.lists hart ≡ Some list → result ≡ Err Memory
            → (log : List AnyEvent) × Describes (words_of program.now) (packets ++ packet.now ∷ []) log
            × (length list < length log) }
        ensures not_opened { (packets : List AnyPacket) → HoldsHart (words_of program.now) hart packets self.old
            → (result ≡ Err NotOpened) ↔ ((packets ≡ []) × ¬ IsOpen packet.now) }
        ensures after_close { (packets : List AnyPacket) → HoldsHart (words_of program.now) hart packets self.old
            → (result ≡ Err AfterClose) ↔ (last_is_closing packets ≡ true) }
        ensures expected { self.new.expected ≡ self.old.expected }
        ensures complete { IsReceived self.new }
        ensures refused { OnErr result (self.new ≡ self.old) }
    {
        let hart = usize::from(hart);
        self.decoders[hart].feed(program, packet, &mut self.lists[hart])?;
        self.closed[hart] = packet.is_closing();
        Ok(())
    }

    /// Reserves capacity in the hart's list for `total` events in all. The events in it stay, also where an allocation
    /// fails.
    pub fn reserve(&mut self, hart: u16, total: usize) -> Result<(), AllocError>
        requires known { hart < length self.old.lists }
        ensures { self.new ≡ self.old }
    {
        let list = &mut self.lists[usize::from(hart)];
        list.reserve(total.saturating_sub(list.len()))
    }

    /// Gives the hart the memory of this list for its events, where the hart holds no event yet. The content of the
    /// list is dropped.
    pub fn take_room(&mut self, hart: u16, room: Vec<Event, A>)
        requires known { hart < length self.old.lists }
        ensures { self.new ≡ self.old }
    {
        let list = &mut self.lists[usize::from(hart)];
        if !list.is_empty() {
            return;
        }
        let mut room = room;
        room.clear();
        *list = room;
    }

    /// Accepts the message and decodes its packet. The program is that of the message's hart. Where a mode was
    /// announced before, by the header of a capture, a packet that opens a trace in another mode is a fault. A fault
    /// leaves the lists and the flags as they were. Where the message was accepted and the fault came after that, the
    /// hart's next message is expected.
    pub fn receive(
        &mut self,
        program: &ProgramOver,
        announced: Option<Mode>,
        message: &Message,
    ) -> Result<(), ReceiveFault>
        ensures received { (programs : ℕ → Words) (harts : ℕ) (messages : List AnyMessage)
            → programs message.now.hart ≡ words_of program.now → HasReceived programs harts messages self.old
            → OnOk result (HasReceived programs harts (messages ++ message.now ∷ []) self.new) }
        ensures held { (programs : ℕ → Words) (harts : ℕ) (messages : List AnyMessage)
            → HasReceived programs harts messages self.old → OnErr result (Holds programs harts messages self.new) }
        ensures received_held { (programs : ℕ → Words) (harts : ℕ) (messages : List AnyMessage)
            → programs message.now.hart ≡ words_of program.now → Holds programs harts messages self.old
            → OnOk result (Holds programs harts (messages ++ message.now ∷ []) self.new) }
        // The fault is Demux if and only if the demultiplexer refuses the message, and has its reason.
        ensures demux { (why : AnyDemuxFault) → (result ≡ Err (ReceiveFault.Demux why))
            ↔ (accepting self.old.expected message.now ≡ Err why) }
        ensures not_accepted { (why : AnyDemuxFault) → result ≡ Err (ReceiveFault.Demux why) → self.new ≡ self.old }
        ensures not_received { (programs : ℕ → Words) (harts : ℕ) (messages : List AnyMessage)
            → programs message.now.hart ≡ words_of program.now → HasReceived programs harts messages self.old
            → IfErr result (λ fault. IsNotReceived (words_of program.now) harts announced messages message.now fault) }
        // The fault is Mode if and only if the message is accepted and its packet opens a trace in another mode than
        // the one that was announced.
        ensures mode { (result ≡ Err ReceiveFault.Mode)
            ↔ ((packet : AnyPacket) × (accepting self.old.expected message.now ≡ Ok packet)
            × (opens_another announced packet ≡ true)) }
        ensures agrees { OnOk result (Agrees announced message.now) }
        ensures undecoded { (programs : ℕ → Words) (harts : ℕ) (messages : List AnyMessage) (packet : AnyPacket)
            (why : AnyDecodeFault) → programs message.now.hart ≡ words_of program.now
            → Holds programs harts messages self.old → accepting self.old.expected message.now ≡ Ok packet
            → result ≡ Err (ReceiveFault.Decode why)
            → IsNotDecoded (words_of program.now) (packets_of message.now.hart messages) packet why }
        // Whatever was received before: what is expected afterwards, that a fault leaves all else as it was, and that
        // what is held of the other harts stays.
        ensures expected { self.new.expected ≡ harts_after self.old.expected message.now }
        ensures kept { OnErr result
            (self.new ≡ record self.old { expected = harts_after self.old.expected message.now }) }
        ensures others { (other : ℕ) → other ≢ message.now.hart → IsSameHart other self.old self.new }
    {
        let packet = match self.accept(message) {
            Ok(packet) => packet,
            Err(fault) => return Err(ReceiveFault::Demux(fault)),
        };
        if opens_another(announced, &packet) {
            return Err(ReceiveFault::Mode);
        }
        match self.decode(program, message.hart, &packet) {
            Ok(()) => Ok(()),
            Err(fault) => Err(ReceiveFault::Decode(fault)),
        }
    }

    /// The events of each hart, as far as its messages settle them.
    pub fn lists(&self) -> &[Vec<Event, A>]
        ensures { events_in result.now ≡ self.now.lists }
    {
        &self.lists
    }

    /// Whether each hart's closing packet was decoded.
    pub fn closed(&self) -> &[bool]
        ensures { result.now ≡ self.now.closed }
    {
        &self.closed
    }

    /// The events of each hart, and whether each hart's closing packet was decoded.
    pub fn into_parts(self) -> (Vec<Vec<Event, A>, A>, Vec<bool, A>)
        ensures lists { events_in result.0.items ≡ self.lists }
        ensures closed { result.1.items ≡ self.closed }
        ensures decoded { (programs : ℕ → Words) (harts : ℕ) (messages : List AnyMessage)
            → Holds programs harts messages self
            → AreDecoded programs harts messages (events_in result.0.items) result.1.items }
    {
        (self.lists, self.closed)
    }
}

/// Whether a packet opens a trace in another mode than the one that was announced, if one was.
pub fn opens_another(announced: Option<Mode>, packet: &Packet) -> bool
    ensures { result ≡ opens_another announced packet.now }
{
    match (announced, packet) {
        (Some(announced), Packet::Support(Support::Open(mode))) => announced != *mode,
        _ => false,
    }
}

/// So many lists without an event.
fn empty_lists<A: Allocator + Copy>(
    alloc: A,
    count: usize,
) -> Result<Vec<Vec<Event, A>, A>, AllocError>
    ensures { IfOk result (λ lists. events_in lists.items ≡ replicate count []) }
{
    let mut lists = Vec::with_capacity(alloc, count)?;
    for _ in 0..count {
        lists.push_reserved(Vec::new(alloc));
    }
    Ok(lists)
}
