//! How a packet is taken.

ghost use Rattle.std.specs.Prelude.{◌≡◌, ◌↔◌, ◌⊎◌, ◌+◌, ◌*◌, ◌/◌, ◌^◌, ◌≤◌, ◌<◌, List, [], ◌∷◌, ◌++◌, true, false};
ghost use Rattle.std.specs.Prelude.{Some, Ok, Err, length, vec_len, vec_capacity, IfErr, OnOk, IsTrue, Option, None};
ghost use Rattle.rvclass.specs.Memory.{byte_count};
ghost use Rattle.retire.specs.declared.event.Event.{Event};
ghost use Rattle.rvclass.specs.Fetch.{words_of};
ghost use Rattle.rvclass.specs.Words.{IsProgram};
ghost use Rattle.payload.specs.Closing.{is_closing_packet};
ghost use Rattle.payload.specs.ClosedTrace.{last_is_closing};
ghost use Rattle.payload.specs.declared.mode.Mode.{Mode as AnyMode};
ghost use Rattle.payload.specs.declared.packet.Packet.{Packet};
ghost use Rattle.decoder.specs.Describes.{Describes};
ghost use Rattle.decoder.specs.Order.{IsOpen, open_packet};
ghost use Rattle.decoder.specs.Resuming.{IsSync, PassesOver, IsClosed, HasMode};
ghost use Rattle.decoder.specs.steps.Stretches.{stretch_count, IsGrown, Suits, SuitsNone, AddsSoFar, AddsBoth};
ghost use Rattle.decoder.specs.steps.Planning.{MayCome, FitsWaiting, Plans, PlansNone, admitted, decoder_after};
ghost use Rattle.decoder.specs.steps.Planning.{passed_over};
ghost use Rattle.decoder.specs.DecoderStands.{DecoderStands};
ghost use Rattle.decoder.specs.declared.fault.DecodeFault.TheVariants.{NotOpened, AfterClose, Memory};

use crate::added_events::AddedEvents;
use crate::decoding::Decoder;
use crate::fault::DecodeFault;
use crate::kinds::{is_open, is_sync};
use crate::paths::Paths;
use crate::remembering::{announced_past, mode_past, phase_after, reported_past, waiting_after};
use crate::settling::{events_of_packet, settle};
use crate::state::Phase;
use crate::walking::Progress;
use payload::{Packet, Support};
use retire::Event;
use std::alloc::Allocator;

impl Decoder {
    /// Takes the next packet as [`feed`](Decoder::feed) does, in the program of these walks. Where skips were found, a
    /// walk of which nothing comes takes few steps.
    pub fn feed_by<A: Allocator>(
        &mut self,
        paths: Paths,
        packet: &Packet,
        log: &mut Vec<Event, A>,
    ) -> Result<(), DecodeFault>
        ensures stands { (packets : List Packet) → DecoderStands
            (words_of paths.entry.program.now) packets log.old.items self.old
            → OnOk result (DecoderStands (words_of paths.entry.program.now)
            (packets ++ packet.now ∷ []) log.new.items self.new) }
        ensures goes_on { (rest : List Event) × (log.new.items ≡ log.old.items ++ rest) }
        ensures only { (packets : List Packet) → DecoderStands
            (words_of paths.entry.program.now) packets log.old.items self.old
            → OnOk result ((other : List Event) → Describes (words_of paths.entry.program.now)
            (packets ++ packet.now ∷ []) other
            → other ≡ log.new.items) }
        ensures none { (packets : List Packet) → DecoderStands
            (words_of paths.entry.program.now) packets log.old.items self.old
            → IfErr result (λ fault. (fault ≡ Memory)
            ⊎ ((other : List Event) → ¬ Describes (words_of paths.entry.program.now)
            (packets ++ packet.now ∷ []) other)) }
        ensures kept { IfErr result (λ fault. self.new ≡ self.old) }
        ensures list_kept { IfErr result (λ fault. log.new.items ≡ log.old.items) }
        ensures closed { (packets : List Packet) → DecoderStands
            (words_of paths.entry.program.now) packets log.old.items self.old
            → (result ≡ Err AfterClose) ↔ (last_is_closing packets ≡ true) }
        ensures not_opened { (packets : List Packet)
            → DecoderStands (words_of paths.entry.program.now) packets log.old.items self.old
            → (result ≡ Err NotOpened) ↔ ((packets ≡ []) × ¬ IsOpen packet.now) }
        ensures memory { (packets : List Packet) → DecoderStands
            (words_of paths.entry.program.now) packets log.old.items self.old
            → result ≡ Err Memory
            → (other : List Event) × Describes (words_of paths.entry.program.now) (packets ++ packet.now ∷ []) other
            × (vec_capacity log.old < length other) }
        ensures short { vec_len log.new ≤ vec_len log.old + 2 * (32 * (byte_count paths.entry.program.now / 2)) + 2 }

        // A closed decoder, and the mode that the packet announces which opens the trace.
        ensures after_close { (result ≡ Err AfterClose) ↔ IsClosed self.old }
        ensures announced { (mode : AnyMode) → packet.now ≡ open_packet mode
            → DecoderStands (words_of paths.entry.program.now) [] [] self.old → OnOk result (HasMode
            (Some mode) self.new) }
        ensures mode_kept { (mode : Option AnyMode) → HasMode mode self.old → ¬ IsOpen packet.now
            → HasMode mode self.new }

        // Any list: the events are appended to those that it has.
        ensures adds { (packets : List Packet) (before added : List Event)
            → DecoderStands (words_of paths.entry.program.now) packets before self.old
            → log.new.items ≡ log.old.items ++ added
            → OnOk result (DecoderStands (words_of paths.entry.program.now) (packets ++ packet.now ∷ [])
            (before ++ added)
            self.new) }
        ensures adds_none { (packets : List Packet) (before : List Event)
            → DecoderStands (words_of paths.entry.program.now) packets before self.old
            → IfErr result (λ fault. (fault ≡ Memory)
            ⊎ ((other : List Event) → ¬ Describes (words_of paths.entry.program.now)
            (packets ++ packet.now ∷ []) other)) }
        ensures adds_closed { (packets : List Packet) (before : List Event)
            → DecoderStands (words_of paths.entry.program.now) packets before self.old
            → (result ≡ Err AfterClose) ↔ (last_is_closing packets ≡ true) }
        ensures adds_first { (packets : List Packet) (before : List Event)
            → DecoderStands (words_of paths.entry.program.now) packets before self.old
            → (result ≡ Err NotOpened) ↔ ((packets ≡ []) × ¬ IsOpen packet.now) }

        // A decoder that passes over packets. The events of the synchronisation are appended to those that the list
        // has.
        ensures passed_over { (mode : AnyMode) → PassesOver mode self.old → ¬ IsSync packet.now
            → is_closing_packet packet.now ≡ false
            → (result ≡ Ok tt) × (self.new ≡ self.old) × (log.new.items ≡ log.old.items) }
        ensures closes { (mode : AnyMode) → PassesOver mode self.old → is_closing_packet packet.now ≡ true
            → (result ≡ Ok tt) × IsClosed self.new × (log.new.items ≡ log.old.items) }
        ensures begins { (mode : AnyMode) → PassesOver mode self.old → IsSync packet.now
            → (stretch : List Event) → log.new.items ≡ log.old.items ++ stretch
            → OnOk result (DecoderStands (words_of paths.entry.program.now) (open_packet mode ∷ packet.now ∷ []) stretch
            self.new) }
        ensures begins_none { (mode : AnyMode) → PassesOver mode self.old → IsSync packet.now
            → IfErr result (λ fault. (fault ≡ Memory) ⊎ ((other : List Event)
            → ¬ Describes (words_of paths.entry.program.now) (open_packet mode ∷ packet.now ∷ []) other)) }
        ensures begins_memory { (mode : AnyMode) → PassesOver mode self.old → IsSync packet.now
            → result ≡ Err Memory → (other : List Event)
            × Describes (words_of paths.entry.program.now) (open_packet mode ∷ packet.now ∷ []) other
            × (vec_capacity log.old < vec_len log.old + length other) }
        ensures never_unopened { (mode : AnyMode) → PassesOver mode self.old → ¬ (result ≡ Err NotOpened) }
    {
        if self.phase == Phase::PassingOver && !is_sync(packet) {
            self.pass_over(packet);
            return Ok(());
        }
        let count = log.len();
        let mut settled = AddedEvents::Nothing;
        let mut of_packet = AddedEvents::Nothing;
        if let Err(fault) = self.plan(paths, packet, &mut settled, &mut of_packet, log) {
            log.truncate(count);
            return Err(fault);
        }
        if log.reserve(settled.left() + of_packet.left()).is_err() {
            log.truncate(count);
            return Err(DecodeFault::Memory);
        }
        settled.write(paths.program, log);
        of_packet.write(paths.program, log);
        *self = self.after(packet, &settled, &of_packet);
        Ok(())
    }

    /// Passes over a packet that is no synchronisation: one that closes the trace closes the decoder.
    pub(crate) fn pass_over(&mut self, packet: &Packet)
        ensures { self.new ≡ passed_over self.old packet.now }
    {
        if packet.is_closing() {
            self.phase = Phase::Closed;
        }
    }

    /// Finds what the next packet adds to a log: first the events of the packet that waits, if one does, then those of
    /// the packet itself. Walks are written as they are found, as far as the list's capacity goes, and are not taken
    /// back at a fault.
    #[inline]
    pub(crate) fn plan<A: Allocator>(
        &self,
        paths: Paths,
        packet: &Packet,
        first: &mut AddedEvents,
        second: &mut AddedEvents,
        log: &mut Vec<Event, A>,
    ) -> Result<(), DecodeFault>
        ensures found { OnOk result (Plans
            (words_of paths.entry.program.now) self.now packet.now first.new second.new) }
        ensures none { IfErr result (λ fault. PlansNone (words_of paths.entry.program.now) self.now packet.now fault) }
        ensures admitted { OnOk result (admitted self.now.phase packet.now ≡ Ok tt) }
        ensures short { OnOk result (stretch_count first.new + stretch_count second.new
            ≤ 2 * (32 * (byte_count paths.entry.program.now / 2)) + 2) }
        ensures written { OnOk result
            (AddsBoth (words_of paths.entry.program.now) first.new second.new log.old.items log.new.items) }
        ensures grown { IsGrown log.old log.new }
        ensures words { IsProgram (words_of paths.entry.program.now) }
        ensures small { byte_count paths.entry.program.now ≤ 2 ^ 26 }
    {
        self.admit(packet)?;
        self.settled(paths, packet, first, log)?;
        if !self.may_come(packet) {
            return Err(DecodeFault::WrongPlace);
        }
        let last = first.last(&self.last);
        let reported = first.place(self.reported);
        events_of_packet(
            paths,
            self.mode,
            &last,
            reported,
            packet,
            first.progress(),
            second,
            log,
        )
    }

    /// Tests that the packet comes neither before the one that opens the trace nor after the one that closes it.
    #[inline]
    fn admit(&self, packet: &Packet) -> Result<(), DecodeFault>
        ensures { result ≡ admitted self.now.phase packet.now }
    {
        match self.phase {
            Phase::Unopened => {
                if is_open(packet) {
                    Ok(())
                } else {
                    Err(DecodeFault::NotOpened)
                }
            }
            Phase::Running | Phase::PassingOver => Ok(()),
            Phase::Closed => Err(DecodeFault::AfterClose),
        }
    }

    /// Whether the packet may come next by its kind. The packet that opens the trace comes only first. The packet
    /// `EndedRep`, which says that the last instruction was reported, follows only an address packet that waits.
    #[inline]
    fn may_come(&self, packet: &Packet) -> bool
        ensures { IsTrue result ↔ MayCome self.now.phase self.now.waiting packet.now }
    {
        match packet {
            Packet::Support(Support::Open(_)) => self.phase == Phase::Unopened,
            Packet::Support(Support::EndedRep) => self.waiting.is_some(),
            _ => true,
        }
    }

    /// The events of the packet that waits, if one does, where this packet follows it.
    #[inline]
    fn settled<A: Allocator>(
        &self,
        paths: Paths,
        packet: &Packet,
        stretch: &mut AddedEvents,
        log: &mut Vec<Event, A>,
    ) -> Result<(), DecodeFault>
        ensures found { OnOk result (Suits (words_of paths.entry.program.now) self.now.last
            (FitsWaiting (words_of paths.entry.program.now) self.now.mode self.now.last self.now.reported
            self.now.waiting packet.now)
            stretch.new) }
        ensures none { IfErr result (λ fault. SuitsNone (words_of paths.entry.program.now) self.now.last
            (FitsWaiting (words_of paths.entry.program.now) self.now.mode self.now.last self.now.reported
            self.now.waiting packet.now)
            fault) }
        ensures short { OnOk result (stretch_count stretch.new ≤ 32 * (byte_count paths.entry.program.now / 2)) }
        ensures written { OnOk result (AddsSoFar (words_of paths.entry.program.now) Progress.Written stretch.new
            log.old.items log.new.items) }
        ensures grown { IsGrown log.old log.new }
    {
        match &self.waiting {
            Some(waiting) => {
                let addr = self.mode.aim(self.reported, waiting.delta);
                settle(
                    paths,
                    &self.last,
                    &waiting.outcomes,
                    addr,
                    packet,
                    stretch,
                    log,
                )
            }
            None => {
                *stretch = AddedEvents::Nothing;
                Ok(())
            }
        }
    }

    /// The decoder after the packet, where it adds these events.
    #[inline]
    pub(crate) fn after(
        &self,
        packet: &Packet,
        settled: &AddedEvents,
        of_packet: &AddedEvents,
    ) -> Decoder
        ensures { result ≡ decoder_after self.now packet.now settled.now of_packet.now }
    {
        let reported = settled.place(self.reported);
        Decoder {
            phase: phase_after(packet),
            waiting: waiting_after(packet),
            last: of_packet.last(&settled.last(&self.last)),
            mode: mode_past(packet, self.mode),
            announced: announced_past(packet, self.announced),
            reported: reported_past(packet, reported, of_packet.place(reported)),
        }
    }
}
