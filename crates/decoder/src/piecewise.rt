//! How a packet is taken whose events are handed out a piece at a time.

ghost use Rattle.std.specs.Prelude.{◌≡◌, ◌↔◌, ◌⊎◌, ◌+◌, ◌*◌, ◌/◌, ◌^◌, ◌≤◌, ◌<◌, List, [], ◌∷◌, ◌++◌, true, false};
ghost use Rattle.std.specs.Prelude.{Some, Ok, Err, length, vec_len, vec_capacity, IfOk, IfErr, Option};
ghost use Rattle.rvclass.specs.Memory.{byte_count};
ghost use Rattle.retire.specs.declared.event.Event.{Event};
ghost use Rattle.rvclass.specs.Fetch.{words_of};
ghost use Rattle.payload.specs.Closing.{is_closing_packet};
ghost use Rattle.payload.specs.ClosedTrace.{last_is_closing};
ghost use Rattle.payload.specs.declared.mode.Mode.{Mode as AnyMode};
ghost use Rattle.payload.specs.declared.packet.Packet.{Packet};
ghost use Rattle.decoder.specs.Describes.{Describes};
ghost use Rattle.decoder.specs.Order.{IsOpen, open_packet};
ghost use Rattle.decoder.specs.Resuming.{IsSync, PassesOver, IsClosed, HasMode};
ghost use Rattle.decoder.specs.DecoderStands.{DecoderStands};
ghost use Rattle.decoder.specs.declared.fault.DecodeFault.TheVariants.{NotOpened, AfterClose, Memory};

use crate::added_events::AddedEvents;
use crate::decoding::Decoder;
use crate::fault::DecodeFault;
use crate::kinds::is_sync;
use crate::paths::Paths;
use crate::state::Phase;
use crate::unwritten::Unwritten;
use payload::Packet;
use retire::Event;
use std::alloc::Allocator;

impl Decoder {
    /// Takes the next packet as [`feed_by`](Decoder::feed_by) does, for a caller that holds a piece of the events at a
    /// time. The events that the packet settles are appended to the piece if its capacity is enough for all of them.
    /// Else none is, and the result has them.
    ///
    /// A packet of a few bytes may settle 32 events for each halfword of the image, and one that waited as many before
    /// it. No memory is taken, so the fault `Memory` never comes. A fault leaves the decoder and the piece as they
    /// were.
    pub fn feed_in_pieces<'p, A: Allocator>(
        &mut self,
        paths: Paths<'p>,
        packet: &Packet,
        piece: &mut Vec<Event, A>,
    ) -> Result<Unwritten<'p>, DecodeFault>
        // The events that are added: those behind the old ones of the piece, and then those that are left.
        ensures goes_on { (rest : List Event) × (piece.new.items ≡ piece.old.items ++ rest) }
        ensures all_or_none { IfOk result (λ left. (left ≡ []) ⊎ ((piece.new.items ≡ piece.old.items)
            × (vec_capacity piece.old < vec_len piece.old + length left))) }
        ensures room { vec_capacity piece.new ≡ vec_capacity piece.old }
        ensures short { IfOk result (λ left. vec_len piece.new + length left
            ≤ vec_len piece.old + 2 * (32 * (byte_count paths.entry.program.now / 2)) + 2) }
        ensures adds { (packets : List Packet) (before added : List Event)
            → DecoderStands (words_of paths.entry.program.now) packets before self.old
            → IfOk result (λ left. piece.new.items ++ left ≡ piece.old.items ++ added
            → DecoderStands (words_of paths.entry.program.now) (packets ++ packet.now ∷ [])
            (before ++ added) self.new) }
        ensures only { (packets : List Packet) (before added : List Event)
            → DecoderStands (words_of paths.entry.program.now) packets before self.old
            → IfOk result (λ left. piece.new.items ++ left ≡ piece.old.items ++ added
            → (other : List Event) → Describes (words_of paths.entry.program.now) (packets ++ packet.now ∷ []) other
            → other ≡ before ++ added) }

        // A fault.
        ensures adds_none { (packets : List Packet) (before : List Event)
            → DecoderStands (words_of paths.entry.program.now) packets before self.old
            → IfErr result (λ fault. (other : List Event)
            → ¬ Describes (words_of paths.entry.program.now) (packets ++ packet.now ∷ []) other) }
        ensures kept { IfErr result (λ fault. self.new ≡ self.old) }
        ensures list_kept { IfErr result (λ fault. piece.new.items ≡ piece.old.items) }
        ensures never_memory { ¬ (result ≡ Err Memory) }
        ensures adds_closed { (packets : List Packet) (before : List Event)
            → DecoderStands (words_of paths.entry.program.now) packets before self.old
            → (result ≡ Err AfterClose) ↔ (last_is_closing packets ≡ true) }
        ensures adds_first { (packets : List Packet) (before : List Event)
            → DecoderStands (words_of paths.entry.program.now) packets before self.old
            → (result ≡ Err NotOpened) ↔ ((packets ≡ []) × ¬ IsOpen packet.now) }

        // A closed decoder, and the mode that the packet announces which opens the trace.
        ensures after_close { (result ≡ Err AfterClose) ↔ IsClosed self.old }
        ensures announced { (mode : AnyMode) → packet.now ≡ open_packet mode
            → DecoderStands (words_of paths.entry.program.now) [] [] self.old
            → IfOk result (λ left. HasMode (Some mode) self.new) }
        ensures mode_kept { (mode : Option AnyMode) → HasMode mode self.old → ¬ IsOpen packet.now
            → HasMode mode self.new }

        // A decoder that passes over packets.
        ensures passed_over { (mode : AnyMode) → PassesOver mode self.old → ¬ IsSync packet.now
            → is_closing_packet packet.now ≡ false
            → (result ≡ Ok []) × (self.new ≡ self.old) × (piece.new.items ≡ piece.old.items) }
        ensures closes { (mode : AnyMode) → PassesOver mode self.old → is_closing_packet packet.now ≡ true
            → (result ≡ Ok []) × IsClosed self.new × (piece.new.items ≡ piece.old.items) }
        ensures begins { (mode : AnyMode) → PassesOver mode self.old → IsSync packet.now → (stretch : List Event)
            → IfOk result (λ left. piece.new.items ++ left ≡ piece.old.items ++ stretch
            → DecoderStands (words_of paths.entry.program.now) (open_packet mode ∷ packet.now ∷ []) stretch self.new) }
        ensures begins_none { (mode : AnyMode) → PassesOver mode self.old → IsSync packet.now
            → IfErr result (λ fault. (other : List Event)
            → ¬ Describes (words_of paths.entry.program.now) (open_packet mode ∷ packet.now ∷ []) other) }
        ensures never_unopened { (mode : AnyMode) → PassesOver mode self.old → ¬ (result ≡ Err NotOpened) }
    {
        if self.phase == Phase::PassingOver && !is_sync(packet) {
            self.pass_over(packet);
            return Ok(Unwritten::none(paths.program));
        }
        let count = piece.len();
        let mut settled = AddedEvents::Nothing;
        let mut of_packet = AddedEvents::Nothing;
        if let Err(fault) = self.plan(paths, packet, &mut settled, &mut of_packet, piece) {
            piece.truncate(count);
            return Err(fault);
        }
        *self = self.after(packet, &settled, &of_packet);
        if settled.left() + of_packet.left() > piece.capacity() - piece.len() {
            piece.truncate(count);
            return Ok(Unwritten::of(paths.program, &settled, &of_packet));
        }
        settled.write(paths.program, piece);
        of_packet.write(paths.program, piece);
        Ok(Unwritten::none(paths.program))
    }
}
