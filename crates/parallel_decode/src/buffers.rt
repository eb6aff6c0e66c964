//! What rows pass through on their way to a writer.

ghost use Rattle.std.specs.Prelude.{◌≤◌, vec_capacity};
ghost use Rattle.retire.specs.declared.write.TheConstants.{LOG_ROOM as MOST_HELD};
ghost use Rattle.parallel_decode.specs.HartsText.{head_of};
ghost use Rattle.parallel_decode.specs.Put.{IsPut};

use output::write_text;
use retire::{Event, LOG_ROOM, WriteFault, begin_log_in, end_log_in};
use std::alloc::{AllocError, Global};
use std::io::Write;

/// How many events are held before their rows are made.
const PIECE: usize = 2_048;

/// What rows pass through on their way to a writer: a piece of events, and text. With them no row needs an allocation.
#[derive(Drop)]
pub struct RowBuffers {
    pub(crate) room: Vec<u8>,
    pub(crate) piece: Vec<Event>,
    pub(crate) ghost sized: { (MOST_HELD ≤ vec_capacity room) × (1 ≤ vec_capacity piece) },
}

impl RowBuffers {
    /// Buffers that are empty, of about 130 KB. The error says that an allocation failed.
    pub fn new(alloc: Global) -> Result<RowBuffers, AllocError> {
        Ok(RowBuffers {
            room: Vec::with_capacity(alloc, LOG_ROOM)?,
            piece: Vec::with_capacity(alloc, PIECE)?,
        })
    }
}

/// Writes the line of a hart and the line of its log's header.
pub(crate) fn write_head<O: Write>(
    hart: usize,
    rows: &mut RowBuffers,
    out: &mut O,
) -> Result<(), WriteFault>
    ensures { IsPut result (O.contents out.old) (O.contents out.new) (head_of hart) }
{
    write_text(out, format_args!("hart {hart}\n"))?;
    begin_log_in(&mut rows.room)?;
    end_log_in(&mut rows.room, out)
}
