//! The messages of a hart, where some of them may be lost.

ghost use Rattle.std.specs.Prelude.{◌≡◌, ◌<◌, ◌≤◌};
ghost use Rattle.message.specs.Harts.{end_of_numbers};
ghost use Rattle.ffi.specs.DecoderKept.{AreClosed};
ghost use Rattle.ffi.specs.Images.{OfPieces};
ghost use Rattle.ffi.specs.Received.{ReportsReceive, ReportsResume, number_status};
ghost use Rattle.ffi.specs.declared.status.TheConstants.{DONE};

use crate::decoder_state::{CLOSED, DecoderNumbers, numbers_of_state, state_of};
use crate::encoding::mode_of;
use crate::events::EventNumbers;
use crate::feeding::report_feed;
use crate::images::{ImagePiece, judge_pieces};
use crate::packing::pack_status;
use crate::status::{AFTER_CLOSE, BAD_STATE, DONE, GAP, OUT_OF_RANGE, REPEAT};
use decoder::Decoder;
use payload::unpack;
use std::alloc::Global;

/// The number from which on no message of a hart is taken.
const END_OF_NUMBERS: u64 = 1 << 63;

/// What is kept of a hart from one message to the next.
#[repr(C)]
#[derive(Clone, Copy)]
pub struct HartNumbers {
    /// What the hart's decoder remembers.
    pub decoder: DecoderNumbers,
    /// The number of the message that is expected, counted from 0.
    pub expected: u64,
}

/// Takes the next message of a hart, where messages before it may be lost, and writes the events that it settles and
/// how many they are. `hart` is what is kept of the messages before, and then of this one too. Before the first message
/// it has the numbers that [`tracebench_decoder`](crate::tracebench_decoder) writes, and expects number 0.
///
/// The status is [`DONE`]; or [`GAP`], where numbers are missing before this one: `missing` is how many. Then the
/// message is not taken. End the stretch of events that is under way, let [`tracebench_resume`] go on at this number,
/// and hand the message in again. Or the status is one of these, tested in this order, after which nothing has changed:
///
/// - [`AFTER_CLOSE`]: the hart's trace was closed, or the number that is expected is 2^63.
/// - [`REPEAT`]: the number is below the one that is expected.
/// - [`OUT_OF_RANGE`]: the number is 2^63 or more.
/// - [`EMPTY`](crate::status::EMPTY) to [`BAD_REPORT`](crate::status::BAD_REPORT): the payload is that of no packet.
///   This comes before [`GAP`].
/// - [`BAD_STATE`]: no decoder has the hart's numbers.
/// - [`ODD_BASE`](crate::status::ODD_BASE) to [`NOT_SORTED`](crate::status::NOT_SORTED): the pieces make no program.
/// - [`NOT_OPENED`](crate::status::NOT_OPENED) to [`AFTER_CLOSING_PACKET`](crate::status::AFTER_CLOSING_PACKET): the
///   packet does not follow those before.
/// - [`MEMORY`](crate::status::MEMORY): an allocation failed.
/// - [`TOO_SMALL`](crate::status::TOO_SMALL): the buffer is too small for the events. Then `count` is how many there are.
pub fn tracebench_receive(
    alloc: Global,
    pieces: &[ImagePiece<'_>],
    hart: &mut HartNumbers,
    number: u64,
    payload: &[u8],
    events: &mut [EventNumbers],
    count: &mut u64,
    missing: &mut u64,
) -> u32
    ensures { OfPieces pieces.now (λ image. ReportsReceive image number payload.now result hart.old hart.new count.old
        count.new missing.old missing.new events.old events.new) }
{
    let judged = judge_pieces(alloc, pieces);
    let said = number_status(hart, number);
    if said != DONE {
        return said;
    }
    match unpack(payload) {
        Ok(_) => {}
        Err(why) => return pack_status(why),
    }
    if number > hart.expected {
        *missing = number - hart.expected;
        return GAP;
    }
    let mut decoder = hart.decoder;
    let status = report_feed(alloc, &judged, &mut decoder, payload, events, count);
    if status != DONE {
        return status;
    }
    *hart = HartNumbers {
        decoder,
        expected: number + 1,
    };
    status
}

/// Lets a hart go on at a message before which others are lost. The number of that message is expected then. The
/// decoder drops what waits, and passes over packets until a synchronisation comes, which begins a stretch: hand in the
/// events from there on as a list of their own. Addresses are read in the mode that the packet announced which opened
/// the trace. Where that packet did not come, they are read in this mode, [`DIFFERENTIAL`](crate::DIFFERENTIAL) or
/// [`FULL`](crate::FULL). No memory is taken.
///
/// The status is [`DONE`], or one of these, tested in this order, after which nothing has changed:
///
/// - [`BAD_STATE`]: no decoder has these numbers.
/// - [`OUT_OF_RANGE`]: the mode has another number.
/// - [`AFTER_CLOSE`]: the hart's trace was closed, or the number that is expected is 2^63.
/// - [`REPEAT`]: the number is below the one that is expected.
/// - [`OUT_OF_RANGE`]: the number is 2^63 or more.
pub fn tracebench_resume(hart: &mut HartNumbers, number: u64, mode: u32) -> u32
    ensures { ReportsResume number mode result hart.old hart.new }
{
    let state = match state_of(&hart.decoder) {
        Some(state) => state,
        None => return BAD_STATE,
    };
    let mode = match mode_of(mode) {
        Some(mode) => mode,
        None => return OUT_OF_RANGE,
    };
    let said = number_status(hart, number);
    if said != DONE {
        return said;
    }
    let mut decoder = Decoder::from_state(state);
    decoder.resume(mode);
    *hart = HartNumbers {
        decoder: numbers_of_state(&decoder.state()),
        expected: number,
    };
    DONE
}

/// Whether a hart's message may have this number.
fn number_status(hart: &HartNumbers, number: u64) -> u32
    ensures value { result ≡ number_status hart.now number }
    ensures not_closed { result ≡ DONE → ¬ AreClosed hart.now.decoder }
    ensures within { result ≡ DONE → (hart.now.expected ≤ number) × (number < end_of_numbers) }
{
    if hart.decoder.phase == CLOSED || hart.expected >= END_OF_NUMBERS {
        return AFTER_CLOSE;
    }
    if number < hart.expected {
        return REPEAT;
    }
    if number >= END_OF_NUMBERS {
        return OUT_OF_RANGE;
    }
    DONE
}
