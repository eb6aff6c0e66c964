//! The rows of a part of a hart's log.

ghost use Rattle.std.specs.Prelude.{List};
ghost use Rattle.std.specs.List.{flat_map};
ghost use Rattle.retire.specs.LogText.{event_line};
ghost use Rattle.retire.specs.declared.event.Event.{Event as AnyEvent};
ghost use Rattle.rvclass.specs.Fetch.{words_of};
ghost use Rattle.parallel_decode.specs.Parts.{HavePart, IsPart};
ghost use Rattle.parallel_decode.specs.Put.{IsPut};

use crate::buffers::RowBuffers;
use crate::packet_at;
use crate::packet_rows::write_packet;
use decoder::Decoder;
use retire::{WriteFault, end_log_in};
use rvclass::ProgramOver;
use std::io::Write;

/// Writes the rows of a part of a hart's log: decodes the packets of the messages at these places, one after the other,
/// from a decoder on that has the packets before them.
///
/// The events of a packet are decoded a piece at a time. The writer is not flushed.
pub fn write_part<O: Write>(
    mut decoder: Decoder,
    program: &ProgramOver,
    bytes: &[u8],
    places: &[usize],
    rows: &mut RowBuffers,
    out: &mut O,
) -> Result<(), WriteFault>
    requires part { HavePart (words_of program.now) bytes.now places.now decoder }
    ensures { (part : List AnyEvent) → IsPart (words_of program.now) bytes.now places.now decoder part
        → IsPut result (O.contents out.old) (O.contents out.new) (flat_map event_line part) }
{
    rows.room.clear();
    for place in places {
        match packet_at(bytes, *place) {
            Some(packet) => write_packet(
                &mut decoder,
                program,
                &packet,
                &mut rows.room,
                &mut rows.piece,
                out,
            )?,
            None => unreachable!(),
        }
    }
    end_log_in(&mut rows.room, out)
}
