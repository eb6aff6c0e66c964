//! What is collected of messages that were taken.

ghost use Rattle.std.specs.Prelude.{ℕ, ◌+◌, ◌≡◌, ◌≢◌, ◌<◌, ◌≤◌, All, Bool, true, false};
ghost use Rattle.std.specs.Prelude.{None, Some, Ok, Err, IfOk, IsSomeAnd, IsTrue, get_or, length};
ghost use Rattle.std.specs.Prelude.{replicate, slice_get, vec_capacity};
ghost use Rattle.legalpath.specs.ProgramLog.{IsLegalLog, ProgramLog};
ghost use Rattle.payload.specs.declared.mode.Mode.{Mode};
ghost use Rattle.decoder.specs.declared.fault.DecodeFault.{DecodeFault as AnyDecodeFault};
ghost use Rattle.receiver.specs.Received.{events_in};
ghost use Rattle.bench.specs.Collected.{one_packet_more};
ghost use Rattle.bench.specs.Collected.{Collected, HasCollected, HasOutcome};
ghost use Rattle.bench.specs.Collected.{IsSameOf};
ghost use Rattle.bench.specs.Got.{Got, got_of};
ghost use Rattle.bench.specs.steps.Collecting.{IsCollected, IsLeftBy, closed_in, decoded_in, nothing, taken_in};
ghost use Rattle.bench.specs.steps.Collecting.{taken_of_outcome};
ghost use Rattle.bench.specs.TakesMessage.{TakesMessage};
ghost use Rattle.bench.specs.steps.TakesPacket.{TakesPacket};

use crate::outcome::{HartOutcome, Outcome};
use decoder::DecodeFault;
use legalpath::LegalLog;
use message::{DemuxFault, Message};
use payload::Packet;
use receiver::Receiver;
use retire::Event;
use rvclass::Program;
use std::alloc::{AllocError, Allocator, Global};
use std::marker::Model;
use thiserror::Error;

/// Why a message is not taken in.
#[derive(Clone, Copy, Debug, PartialEq, Eq, Error)]
pub enum CollectFault {
    /// The demultiplexer refuses the message.
    #[error("{0}")]
    Demux(DemuxFault),
    /// The packet of the message is not decoded.
    #[error("{0}")]
    Decode(DecodeFault),
    /// Memory for the message's hart was refused.
    #[error("out of memory")]
    Memory,
}

/// What was decoded of harts so far, from the messages that were taken in.
#[derive(Drop)]
pub struct Collector<'l, 'p, A: Allocator = Global, B: Allocator = Global> {
    logs: &'l [LegalLog<'p, B>],
    /// Whether packets are kept.
    keep: bool,
    receiver: Receiver<A>,
    /// The outcome of each hart, without its events and whether it is closed, which the receiver has.
    harts: Vec<HartOutcome<A>, A>,
}

impl<'l, 'p, A: Allocator, B: Allocator> Model for Collector<'l, 'p, A, B> {
    ghost Value = { Collected };

    ghost view = { λ c. record {
      logs = c.logs.now;
      keep = c.keep;
      received = c.receiver;
      harts = taken_in c.harts.items;
    } };

    ghost invariant = { λ c. IsCollected (record {
      logs = c.logs.now;
      keep = c.keep;
      received = c.receiver;
      harts = taken_in c.harts.items;
    }) };
}

impl<'l, 'p, A: Allocator + Copy, B: Allocator> Collector<'l, 'p, A, B> {
    /// A collector for the harts of these logs, before the first message. It decodes each hart by its log's program.
    pub fn new(
        alloc: A,
        logs: &'l [LegalLog<'p, B>],
        keep: bool,
    ) -> Result<Collector<'l, 'p, A, B>, AllocError>
        requires few { length logs.now ≤ 65_535 }
        ensures made { IfOk result (λ collector. (collector.logs ≡ logs.now) × (collector.keep ≡ keep)) }
        ensures begun { (period : ℕ) (mode : Mode) (hart : ℕ) (log : ProgramLog) → slice_get logs.now hart ≡ Some log
            → IfOk result (λ collector. HasCollected period mode log 0 hart collector) }
        ensures legal { IfOk result (λ collector. All IsLegalLog logs.now) }
    {
        let harts = outcomes_of(alloc, logs)?;
        let receiver = Receiver::new(alloc, logs.len() as u16)?;
        Ok(Collector {
            logs,
            keep,
            receiver,
            harts,
        })
    }

    /// Takes lists for the events of harts: the first for those of hart 0, and so on, as far as there are harts.
    pub(crate) fn take_rooms(&mut self, rooms: Vec<Vec<Event, A>, A>)
        requires few { length self.old.logs ≤ 65_535 }
        ensures { self.new ≡ self.old }
    {
        give_rooms(&mut self.receiver, self.logs.len() as u16, rooms);
    }

    /// Takes the next message of a hart in: demultiplexes it and decodes its packet.
    ///
    /// A fault leaves what was decoded of all harts as it was. After [`CollectFault::Memory`] the collector notes that
    /// an allocation failed for the hart. From then on messages of that hart change nothing.
    pub fn take_in(&mut self, message: Message) -> Result<(), CollectFault>
        ensures { TakesMessage message result self.old self.new }
    {
        let hart = usize::from(message.hart);
        if is_refused(&self.harts, hart) {
            return Ok(());
        }
        let packet = match self.receiver.accept(&message) {
            Ok(packet) => packet,
            Err(fault) => return Err(CollectFault::Demux(fault)),
        };
        let log = log_at(self.logs, hart);
        take_packet(
            &mut self.receiver,
            &mut self.harts[hart],
            log,
            self.keep,
            &message,
            packet,
        )
    }

    /// Notes that memory or its thread was refused for the hart.
    pub fn refuse(&mut self, hart: u16)
        requires known { hart < length self.old.logs }
        ensures refused { (got : Got) (refused : Bool) → HasOutcome hart got refused self.old
            → HasOutcome hart got true self.new }
        ensures others { (other : ℕ) → other ≢ hart → IsSameOf other self.old self.new }
        ensures same { self.new ≡ record self.old { harts = self.new.harts } }
    {
        self.harts[usize::from(hart)].refused = true;
    }

    /// The outcome of all harts, with no stop. No memory is taken.
    pub fn finish(self) -> Outcome<A>
        ensures stop { result.stop ≡ None }
        ensures count { length result.harts.items ≡ length self.entry.logs }
        ensures came { (hart : ℕ) (got : Got) (refused : Bool) → HasOutcome hart got refused self.entry
            → IsSomeAnd (slice_get result.harts.items hart) (λ came. (got_of came ≡ got) × (came.refused ≡ refused)) }
    {
        let mut harts = self.harts;
        let (lists, closed) = self.receiver.into_parts();
        fill(&mut harts, lists, &closed);
        Outcome { harts, stop: None }
    }
}

/// Gives each hart below `harts` the list at its place, as far as there are lists.
fn give_rooms<A: Allocator + Copy>(
    receiver: &mut Receiver<A>,
    harts: u16,
    rooms: Vec<Vec<Event, A>, A>,
)
    requires { harts ≤ length receiver.old.lists }
    ensures { receiver.new ≡ receiver.old }
{
    let mut rooms = rooms;
    rooms.truncate(usize::from(harts));
    while let Some(room) = rooms.pop() {
        receiver.take_room(rooms.len() as u16, room);
    }
}

/// An outcome for the hart of each log, before its first message.
fn outcomes_of<A: Allocator + Copy, B: Allocator>(
    alloc: A,
    logs: &[LegalLog<'_, B>],
) -> Result<Vec<HartOutcome<A>, A>, AllocError>
    ensures harts { IfOk result (λ harts. taken_in harts.items ≡ replicate (length logs.now) nothing) }
    ensures legal { IfOk result (λ harts. All IsLegalLog logs.now) }
{
    let mut harts = Vec::with_capacity(alloc, logs.len())?;
    for hart in 0..logs.len() {
        // By the contract of this call the log is legal.
        let _ = logs[hart].events();
        harts.push_reserved(HartOutcome {
            packets: Vec::new(alloc),
            taken: 0,
            bytes: 0,
            decoded: Vec::new(alloc),
            closed: false,
            refused: false,
        });
    }
    Ok(harts)
}

/// The log at this place.
fn log_at<'l, 'p, B: Allocator>(logs: &'l [LegalLog<'p, B>], hart: usize) -> &'l LegalLog<'p, B>
    requires { hart < length logs.now }
    ensures { result.now ≡ get_or logs.now hart result.now }
{
    &logs[hart]
}

/// Whether there is such a hart, and memory or its thread was refused for it.
fn is_refused<A: Allocator>(harts: &Vec<HartOutcome<A>, A>, hart: usize) -> bool
    ensures refused { result ≡ true
        → IsSomeAnd (slice_get (taken_in harts.now.items) hart) (λ taken. IsTrue taken.refused) }
    ensures going { result ≡ false
        → ¬ IsSomeAnd (slice_get (taken_in harts.now.items) hart) (λ taken. IsTrue taken.refused) }
{
    hart < harts.len() && harts[hart].refused
}

/// Decodes the next packet of a hart, by the program of its log, and counts it in the hart's outcome.
///
/// Capacity is reserved first: for the packet, where packets are kept, and, from the second packet on, for all events
/// of the log. The second packet is the first that settles an event. So a fault leaves the receiver and the outcome as
/// they were, but that the outcome notes an allocation that failed.
fn take_packet<A: Allocator + Copy, B: Allocator>(
    receiver: &mut Receiver<A>,
    outcome: &mut HartOutcome<A>,
    log: &LegalLog<'_, B>,
    keep: bool,
    message: &Message,
    packet: Packet,
) -> Result<(), CollectFault>
    requires known { message.now.hart < length receiver.old.lists }
    ensures { TakesPacket log.now.program keep message.now packet (taken_of_outcome outcome.old) (taken_of_outcome outcome.new)
        receiver.old receiver.new result }
{
    if !has_room(receiver, outcome, log.events().len(), keep, message.hart) {
        outcome.refused = true;
        return Err(CollectFault::Memory);
    }
    match receiver.decode(log.program(), message.hart, &packet) {
        Ok(()) => {}
        Err(fault) => return Err(undecoded(fault, outcome)),
    }
    count_packet(outcome, keep, message, packet);
    Ok(())
}

/// Counts the packet of a message that was decoded, and keeps it where packets are kept.
fn count_packet<A: Allocator>(
    outcome: &mut HartOutcome<A>,
    keep: bool,
    message: &Message,
    packet: Packet,
)
    requires room { keep ≡ true → length outcome.old.packets.items < vec_capacity outcome.old.packets }
    ensures { taken_of_outcome outcome.new
        ≡ one_packet_more keep packet (length message.now.payload) (taken_of_outcome outcome.old) }
{
    let bytes = message.payload.bytes().len() as u64;
    outcome.taken = outcome.taken.saturating_add(1);
    outcome.bytes = outcome.bytes.saturating_add(bytes);
    if keep {
        outcome.packets.push_reserved(packet);
    }
}

/// Reserves capacity for the next packet of a hart, where packets are kept, and, from the second packet on, for
/// `events` events. Returns whether there is capacity.
fn has_room<A: Allocator + Copy>(
    receiver: &mut Receiver<A>,
    outcome: &mut HartOutcome<A>,
    events: usize,
    keep: bool,
    hart: u16,
) -> bool
    requires { hart < length receiver.old.lists }
    ensures receiver { receiver.new ≡ receiver.old }
    ensures outcome { taken_of_outcome outcome.new ≡ taken_of_outcome outcome.old }
    ensures room { result ≡ true → keep ≡ true
        → length outcome.new.packets.items < vec_capacity outcome.new.packets }
{
    if keep && outcome.packets.reserve(1).is_err() {
        return false;
    }
    outcome.taken == 0 || receiver.reserve(hart, events).is_ok()
}

/// Why a packet is not decoded. The outcome notes an allocation that failed.
fn undecoded<A: Allocator>(fault: DecodeFault, outcome: &mut HartOutcome<A>) -> CollectFault
    ensures left { IsLeftBy result (taken_of_outcome outcome.old) (taken_of_outcome outcome.new) }
    ensures memory { fault ≡ DecodeFault.Memory → result ≡ CollectFault.Memory }
    ensures why { (why : AnyDecodeFault) → result ≡ CollectFault.Decode why → fault ≡ why }
    ensures one_memory { result ≢ CollectFault.Decode DecodeFault.Memory }
{
    if matches!(fault, DecodeFault::Memory) {
        outcome.refused = true;
        return CollectFault::Memory;
    }
    CollectFault::Decode(fault)
}

/// Gives the outcome of each hart its events, and whether it is closed.
fn fill<A: Allocator>(
    harts: &mut Vec<HartOutcome<A>, A>,
    lists: Vec<Vec<Event, A>, A>,
    closed: &[bool],
)
    requires lists { length lists.items ≡ length harts.old.items }
    requires closed { length closed.now ≡ length harts.old.items }
    ensures taken { taken_in harts.new.items ≡ taken_in harts.old.items }
    ensures decoded { decoded_in harts.new.items ≡ events_in lists.items }
    ensures closed { closed_in harts.new.items ≡ closed.now }
{
    let mut lists = lists;
    while let Some(list) = lists.pop() {
        let hart = lists.len();
        let outcome = &mut harts[hart];
        outcome.decoded = list;
        outcome.closed = closed[hart];
    }
}
