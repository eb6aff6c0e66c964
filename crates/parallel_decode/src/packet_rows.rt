//! The rows of a packet's events.

ghost use Rattle.std.specs.Prelude.{◌≡◌, ◌≤◌, ◌++◌, List, IfErr, OnOk, vec_capacity};
ghost use Rattle.std.specs.List.{flat_map};
ghost use Rattle.output.specs.Begun.{AppendsBeginning};
ghost use Rattle.retire.specs.LogText.{event_line};
ghost use Rattle.retire.specs.declared.event.Event.{Event as AnyEvent};
ghost use Rattle.rvclass.specs.Fetch.{words_of};
ghost use Rattle.payload.specs.declared.packet.Packet.{Packet as AnyPacket};
ghost use Rattle.decoder.specs.DecoderStands.{DecoderStands};
ghost use Rattle.retire.specs.Split.{Split};
ghost use Rattle.parallel_decode.specs.steps.Rows.{AddsRows, IsNextPacket};

use crate::feed_packet;
use decoder::{Decoder, Unwritten};
use payload::Packet;
use retire::{Event, LOG_ROOM, WriteFault, write_rows_in};
use rvclass::ProgramOver;
use std::alloc::Allocator;
use std::io::Write;

/// Decodes a hart's next packet, which is one that can be decoded, and goes on with the rows of its events. They come
/// after what the buffer `room` holds.
pub(crate) fn write_packet<A: Allocator, O: Write>(
    decoder: &mut Decoder,
    program: &ProgramOver,
    packet: &Packet,
    room: &mut Vec<u8, A>,
    piece: &mut Vec<Event, A>,
    out: &mut O,
) -> Result<(), WriteFault>
    requires next { IsNextPacket (words_of program.now) packet.now decoder.old }
    requires piece { 1 ≤ vec_capacity piece.old }
    requires room { LOG_ROOM ≤ vec_capacity room.old }
    ensures rows { (packets : List AnyPacket) (before : List AnyEvent)
        → DecoderStands (words_of program.now) packets before decoder.old
        → AddsRows (words_of program.now) packets before packet.now decoder.new result room.old.items room.new.items
        (O.contents out.old) (O.contents out.new) }
    ensures fault { IfErr result (λ fault. fault ≡ WriteFault.Write) }
    ensures piece { vec_capacity piece.new ≡ vec_capacity piece.old }
    ensures room { vec_capacity room.old ≤ vec_capacity room.new }
{
    piece.clear();
    match feed_packet(decoder, program, packet, piece) {
        Ok(mut left) => write_events(room, piece, &mut left, out),
        Err(_) => unreachable!(),
    }
}

/// Goes on with the rows of the events that the piece has, and then of those that are left, a piece at a time.
fn write_events<A: Allocator, O: Write>(
    room: &mut Vec<u8, A>,
    piece: &mut Vec<Event, A>,
    left: &mut Unwritten<'_>,
    out: &mut O,
) -> Result<(), WriteFault>
    requires piece { 1 ≤ vec_capacity piece.old }
    requires room { LOG_ROOM ≤ vec_capacity room.old }
    ensures rows { OnOk result (Split (O.contents out.old) (O.contents out.new) room.new.items
        (room.old.items ++ flat_map event_line (piece.old.items ++ left.old))) }
    ensures begun { AppendsBeginning (room.old.items ++ flat_map event_line (piece.old.items ++ left.old))
        (O.contents out.old) (O.contents out.new) }
    ensures fault { IfErr result (λ fault. fault ≡ WriteFault.Write) }
    ensures piece { vec_capacity piece.new ≡ vec_capacity piece.old }
    ensures room { vec_capacity room.old ≤ vec_capacity room.new }
{
    loop {
        write_rows_in(room, out, piece.as_slice())?;
        if left.is_empty() {
            return Ok(());
        }
        piece.clear();
        left.next_piece(piece);
    }
}
