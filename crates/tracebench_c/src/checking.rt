//! Logs and events that are checked.

ghost use Rattle.ffi.specs.Checked.{ReportsCheck};
ghost use Rattle.ffi.specs.EventsChecked.{EndsCheckEvents};
ghost use Rattle.ffi.specs.Images.{OfPieces};

use ffi::{EventNumbers, ImagePiece};
use std::alloc::Global;

/// Checks that the text of a log is that of a legal log of the program of these pieces. See [`ffi::tracebench_check`].
#[unsafe(no_mangle)]
pub extern "C" fn tracebench_check(
    alloc: Global,
    pieces: &[ImagePiece<'_>],
    log: &[u8],
    row: &mut u64,
) -> u32
    ensures { OfPieces pieces.now (λ image. ReportsCheck image log.now result row.new) }
{
    ffi::tracebench_check(alloc, pieces, log, row)
}

/// Checks that events are a legal log of the program of these pieces. See [`ffi::tracebench_check_events`].
#[unsafe(no_mangle)]
pub extern "C" fn tracebench_check_events(
    alloc: Global,
    pieces: &[ImagePiece<'_>],
    events: &[EventNumbers],
    row: &mut u64,
) -> u32
    ensures { OfPieces pieces.now (λ image. EndsCheckEvents image events.now result row.new) }
{
    ffi::tracebench_check_events(alloc, pieces, events, row)
}
