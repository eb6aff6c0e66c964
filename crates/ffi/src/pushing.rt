//! The packets that open a trace, and those that close it.

ghost use Rattle.std.specs.Prelude.{◌≡◌, ◌≢◌, ◌<◌, ◌∷◌, [], Some, map};
ghost use Rattle.encoder.specs.PacketsSoFar.{packets_so_far};
ghost use Rattle.payload.specs.declared.mode.Mode.{Mode};
ghost use Rattle.rvclass.specs.Words.{Words};
ghost use Rattle.ffi.specs.Encoded.{mode_of};
ghost use Rattle.ffi.specs.EncoderKept.{NumbersStand};
ghost use Rattle.ffi.specs.Images.{OfPieces};
ghost use Rattle.ffi.specs.Numbers.{numbers_of};
ghost use Rattle.ffi.specs.Pushed.{ReportsFinish, new_status};
ghost use Rattle.ffi.specs.declared.status.TheConstants.{DONE, TOO_SMALL};

use crate::encoder_state::{EncoderNumbers, numbers_of_state, state_of};
use crate::encoding::mode_of;
use crate::handing::hand_out_packets;
use crate::images::{ImagePiece, Judged, judge_pieces};
use crate::numbers::{PacketNumbers, numbers_of};
use crate::status::{BAD_STATE, DONE, OUT_OF_RANGE};
use encoder::Encoder;
use std::alloc::Global;

/// Writes the state of an encoder before the first event of a log, and the packet that opens the trace. There is a
/// periodic sync at each retirement whose number, from 0, the period divides. The period is 1 or more, and the mode
/// [`DIFFERENTIAL`](crate::DIFFERENTIAL) or [`FULL`](crate::FULL).
///
/// The status is [`DONE`], or [`OUT_OF_RANGE`] where the period or the mode is out of its range; then nothing is
/// written. No memory is taken.
pub fn tracebench_encoder(
    period: u16,
    mode: u32,
    state: &mut EncoderNumbers,
    opening: &mut PacketNumbers,
) -> u32
    ensures status { result ≡ new_status period mode }
    ensures stands { (words : Words) (named : Mode) → result ≡ DONE → mode_of mode ≡ Some named →
        NumbersStand words period named [] state.new }
    ensures opens { (words : Words) (named : Mode) → result ≡ DONE → mode_of mode ≡ Some named →
        map numbers_of (packets_so_far words period named []) ≡ opening.new ∷ [] }
    ensures refused { result ≢ DONE → (state.new ≡ state.old) × (opening.new ≡ opening.old) }
{
    if period == 0 {
        return OUT_OF_RANGE;
    }
    let Some(mode) = mode_of(mode) else {
        return OUT_OF_RANGE;
    };
    let mut encoder = Encoder::new(period, mode);
    *opening = numbers_of(&encoder.open());
    *state = numbers_of_state(&encoder.state());
    DONE
}

/// Takes the end of a log, and writes the packets that are left, 1 or 2, and how many they are. The last of them closes
/// the trace. `state` is that after all events of the log, and does not change.
///
/// The status is [`DONE`]; or [`TOO_SMALL`](crate::status::TOO_SMALL) where the buffer is too small for the packets; or
/// [`BAD_STATE`] where no encoder has this state, or what is wrong with the pieces; these write nothing. No memory is
/// taken but for the list of the pieces, and the time does not grow with their bytes.
pub fn tracebench_finish(
    alloc: Global,
    pieces: &[ImagePiece<'_>],
    state: &EncoderNumbers,
    packets: &mut [PacketNumbers],
    count: &mut u64,
) -> u32
    ensures { OfPieces pieces.now (λ image. ReportsFinish image state.now result count.old count.new packets.old
        packets.new) }
{
    let judged = judge_pieces(alloc, pieces);
    finish_over(&judged, state, packets, count)
}

/// Takes the end of a log, where the state is read and there is a program.
#[inline(always)]
fn finish_over(
    image: &Judged<'_>,
    state: &EncoderNumbers,
    packets: &mut [PacketNumbers],
    count: &mut u64,
) -> u32
    ensures { ReportsFinish image.now state.now result count.old count.new packets.old packets.new }
{
    let kept = match state_of(state) {
        Some(kept) => kept,
        None => return BAD_STATE,
    };
    let program = match image {
        Ok(program) => program,
        Err(fault) => return fault.status(),
    };
    let burst = Encoder::from_state(kept).finish(program);
    hand_out_packets(burst.as_slice(), packets, count)
}
