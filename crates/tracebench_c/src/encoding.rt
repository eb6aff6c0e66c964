//! Logs that become captures and packets, at once or step by step.

ghost use Rattle.std.specs.Prelude.{[], ◌∷◌, ◌≡◌, ◌≢◌, Some, map};
ghost use Rattle.encoder.specs.PacketsSoFar.{packets_so_far};
ghost use Rattle.ffi.specs.Encoded.{ReportsEncode, mode_of};
ghost use Rattle.ffi.specs.EncoderKept.{NumbersStand};
ghost use Rattle.ffi.specs.Images.{OfPieces};
ghost use Rattle.ffi.specs.Numbers.{numbers_of};
ghost use Rattle.ffi.specs.Pushed.{ReportsFinish, new_status};
ghost use Rattle.ffi.specs.PushedAll.{ReportsPushAll};
ghost use Rattle.ffi.specs.declared.status.TheConstants.{DONE};
ghost use Rattle.payload.specs.declared.mode.Mode.{Mode};
ghost use Rattle.rvclass.specs.Words.{Words};

use ffi::{EncoderNumbers, EventNumbers, ImagePiece, LogPlace, PacketNumbers};
use std::alloc::Global;

/// Writes the capture of harts' logs to a buffer, hart 0 first. See [`ffi::tracebench_encode`].
#[unsafe(no_mangle)]
pub extern "C" fn tracebench_encode(
    alloc: Global,
    pieces: &[ImagePiece<'_>],
    logs: &[u8],
    ends: &[u64],
    period: u16,
    mode: u32,
    version: u32,
    buffer: &mut [u8],
    wanted: &mut u64,
    place: &mut LogPlace,
) -> u32
    ensures { OfPieces pieces.now (λ image. ReportsEncode image logs.now ends.now period mode version result wanted.old
        wanted.new place.old place.new buffer.old buffer.new) }
{
    ffi::tracebench_encode(
        alloc, pieces, logs, ends, period, mode, version, buffer, wanted, place,
    )
}

/// Writes the state of an encoder before the first event of a log, and the packet that opens the trace. See
/// [`ffi::tracebench_encoder`].
#[unsafe(no_mangle)]
pub extern "C" fn tracebench_encoder(
    period: u16,
    mode: u32,
    state: &mut EncoderNumbers,
    opening: &mut PacketNumbers,
) -> u32
    ensures status { result ≡ new_status period mode }
    ensures stands { (words : Words) (named : Mode) → result ≡ DONE → mode_of mode ≡ Some named →
        NumbersStand words period named [] state.new }
    ensures opens { (words : Words) (named : Mode) → result ≡ DONE → mode_of mode ≡ Some named →
        map numbers_of (packets_so_far words period named []) ≡ opening.new ∷ [] }
    ensures refused { result ≢ DONE → (state.new ≡ state.old) × (opening.new ≡ opening.old) }
{
    ffi::tracebench_encoder(period, mode, state, opening)
}

/// Takes the next events of a log. See [`ffi::tracebench_push_all`].
#[unsafe(no_mangle)]
pub extern "C" fn tracebench_push_all(
    alloc: Global,
    pieces: &[ImagePiece<'_>],
    state: &mut EncoderNumbers,
    events: &[EventNumbers],
    packets: &mut [PacketNumbers],
    taken: &mut u64,
    count: &mut u64,
) -> u32
    ensures { OfPieces pieces.now (λ image. ReportsPushAll image events.now result state.old state.new taken.new
        count.new packets.old packets.new) }
{
    ffi::tracebench_push_all(alloc, pieces, state, events, packets, taken, count)
}

/// Takes the end of a log, and writes the packets that are left, 1 or 2. See [`ffi::tracebench_finish`].
#[unsafe(no_mangle)]
pub extern "C" fn tracebench_finish(
    alloc: Global,
    pieces: &[ImagePiece<'_>],
    state: &EncoderNumbers,
    packets: &mut [PacketNumbers],
    count: &mut u64,
) -> u32
    ensures { OfPieces pieces.now (λ image. ReportsFinish image state.now result count.old count.new packets.old
        packets.new) }
{
    ffi::tracebench_finish(alloc, pieces, state, packets, count)
}
