//! Packets whose events come a piece at a time.

ghost use Rattle.std.specs.Prelude.{◌≡◌, ◌⊎◌, ◌↔◌, ◌+◌, ◌<◌, ◌++◌, true, List, [], ◌∷◌, Err, IfErr, IfOk};
ghost use Rattle.std.specs.Prelude.{length, vec_capacity, vec_len};
ghost use Rattle.retire.specs.declared.event.Event.{Event as AnyEvent};
ghost use Rattle.rvclass.specs.Fetch.{words_of};
ghost use Rattle.payload.specs.ClosedTrace.{last_is_closing};
ghost use Rattle.payload.specs.declared.packet.Packet.{Packet as AnyPacket};
ghost use Rattle.decoder.specs.Describes.{Describes};
ghost use Rattle.decoder.specs.DecoderStands.{DecoderStands};
ghost use Rattle.decoder.specs.Order.{IsOpen};
ghost use Rattle.decoder.specs.declared.fault.DecodeFault.TheVariants.{NotOpened, AfterClose, Memory};

use decoder::{DecodeFault, Decoder, Paths, Unwritten};
use payload::Packet;
use retire::Event;
use rvclass::ProgramOver;
use std::alloc::Allocator;

/// Takes a hart's next packet, in this program. Its events are appended to the piece, if that has capacity for all of
/// them. Else all of them are left.
pub fn feed_packet<'p, A: Allocator>(
    decoder: &mut Decoder,
    program: &'p ProgramOver<'p>,
    packet: &Packet,
    piece: &mut Vec<Event, A>,
) -> Result<Unwritten<'p>, DecodeFault>
    ensures goes_on { (rest : List AnyEvent) × (piece.new.items ≡ piece.old.items ++ rest) }
    ensures all_or_none { IfOk result (λ left. (left ≡ [])
        ⊎ ((piece.new.items ≡ piece.old.items) × (vec_capacity piece.old < vec_len piece.old + length left))) }
    ensures room { vec_capacity piece.new ≡ vec_capacity piece.old }
    ensures adds { (packets : List AnyPacket) (before added : List AnyEvent)
        → DecoderStands (words_of program.now) packets before decoder.old
        → IfOk result (λ left. piece.new.items ++ left ≡ piece.old.items ++ added
        → DecoderStands (words_of program.now) (packets ++ packet.now ∷ []) (before ++ added) decoder.new) }
    ensures only { (packets : List AnyPacket) (before added : List AnyEvent)
        → DecoderStands (words_of program.now) packets before decoder.old
        → IfOk result (λ left. piece.new.items ++ left ≡ piece.old.items ++ added
        → (other : List AnyEvent) → Describes (words_of program.now) (packets ++ packet.now ∷ []) other
        → other ≡ before ++ added) }
    ensures adds_none { (packets : List AnyPacket) (before : List AnyEvent)
        → DecoderStands (words_of program.now) packets before decoder.old
        → IfErr result (λ fault. (other : List AnyEvent)
        → ¬ Describes (words_of program.now) (packets ++ packet.now ∷ []) other) }
    ensures kept { IfErr result (λ fault. decoder.new ≡ decoder.old) }
    ensures list_kept { IfErr result (λ fault. piece.new.items ≡ piece.old.items) }
    ensures never_memory { ¬ (result ≡ Err Memory) }
    ensures adds_closed { (packets : List AnyPacket) (before : List AnyEvent)
        → DecoderStands (words_of program.now) packets before decoder.old
        → (result ≡ Err AfterClose) ↔ (last_is_closing packets ≡ true) }
    ensures adds_first { (packets : List AnyPacket) (before : List AnyEvent)
        → DecoderStands (words_of program.now) packets before decoder.old
        → (result ≡ Err NotOpened) ↔ ((packets ≡ []) × ¬ IsOpen packet.now) }
{
    decoder.feed_in_pieces(Paths::of(program), packet, piece)
}
