//! Images and events that are generated.

ghost use Rattle.ffi.specs.Generated.{ReportsGenerateEvents, ReportsGenerateImage, mix_of};
ghost use Rattle.ffi.specs.Images.{OfPieces};

use ffi::{EventNumbers, ImagePiece, WalkNumbers};
use std::alloc::Global;

/// Writes the image of the program that a mix and a seed give to a buffer. See [`ffi::tracebench_generate_image`].
#[unsafe(no_mangle)]
pub extern "C" fn tracebench_generate_image(
    alloc: Global,
    mix: u32,
    seed: u64,
    buffer: &mut [u8],
    wanted: &mut u64,
) -> u32
    ensures { ReportsGenerateImage (mix_of mix) seed result wanted.old wanted.new buffer.old buffer.new }
{
    ffi::tracebench_generate_image(alloc, mix, seed, buffer, wanted)
}

/// Fills a buffer with the next events of a hart. See [`ffi::tracebench_generate_events`].
#[unsafe(no_mangle)]
pub extern "C" fn tracebench_generate_events(
    alloc: Global,
    pieces: &[ImagePiece<'_>],
    state: &mut WalkNumbers,
    events: &mut [EventNumbers],
) -> u32
    ensures { OfPieces pieces.now (λ image. ReportsGenerateEvents image result state.old state.new events.old
        events.new) }
{
    ffi::tracebench_generate_events(alloc, pieces, state, events)
}
