//! Decoding, many steps at a call: payloads in, their events out.

ghost use Rattle.std.specs.Prelude.{◌≡◌, ◌≤◌, IfOk, Ok, length, option_map};
ghost use Rattle.ffi.specs.DecoderKept.{IsOfState};
ghost use Rattle.ffi.specs.FedAll.{ReportsFeedAll};
ghost use Rattle.ffi.specs.Images.{OfPieces, Judged as AnyJudged};
ghost use Rattle.ffi.specs.steps.FeedingAll.{IsNextFed};

use crate::decoder_state::{DecoderNumbers, state_of};
use crate::decoding::decode_status;
use crate::events::EventNumbers;
use crate::feeding::feed_packet;
use crate::handing::hand_out_events;
use crate::images::{ImagePiece, Judged, judge_pieces};
use crate::legal_texts::text_at;
use crate::packing::pack_status;
use crate::status::{BAD_STATE, DONE, OUT_OF_RANGE};
use decoder::DecoderState;
use payload::unpack;
use retire::Event;
use rvclass::ProgramOver;
use std::alloc::Global;

/// Feeds payloads to the decoder with these numbers, one after the other, and writes the events that they settle, oldest
/// first. `payloads` holds the payloads one after the other, and `ends` where each ends. `taken` is how many of them were
/// taken, `count` how many events there are at the start of the buffer, and `state` has the decoder's numbers after those.
///
/// An address packet with plain bits is not settled before the next packet, so its events come with that packet's. Hand
/// in the same pieces at each call; they are not copied, and the time does not grow with their bytes.
///
/// A decoder that passes over packets, after [`tracebench_resume`](crate::tracebench_resume), takes each packet up to
/// the next synchronisation, settles nothing, and keeps its numbers; only a packet that closes the trace closes it. The
/// synchronisation begins a stretch, as if it came right after the packet that opens a trace.
///
/// The status is [`DONE`] where all payloads were taken. Else it says why the payload after those was not:
///
/// - [`TOO_SMALL`](crate::status::TOO_SMALL): the rest of the buffer is too small for its events. Hand in the payloads
///   from there on again. Where none was taken, [`tracebench_receive`](crate::tracebench_receive) says how many events
///   a payload has: at most 64 for each two bytes of the pieces, and two.
/// - [`OUT_OF_RANGE`]: its end is before its start, or past the payloads.
/// - [`EMPTY`](crate::status::EMPTY) to [`BAD_REPORT`](crate::status::BAD_REPORT): it is the payload of no packet.
/// - [`NOT_OPENED`](crate::status::NOT_OPENED) to [`AFTER_CLOSING_PACKET`](crate::status::AFTER_CLOSING_PACKET): its
///   packet does not follow those before.
/// - [`MEMORY`](crate::status::MEMORY): an allocation failed.
///
/// Or no payload was taken, and the state stays: [`BAD_STATE`] where no decoder has these numbers, or what is wrong with
/// the pieces.
pub fn tracebench_feed_all(
    alloc: Global,
    pieces: &[ImagePiece<'_>],
    state: &mut DecoderNumbers,
    payloads: &[u8],
    ends: &[u64],
    events: &mut [EventNumbers],
    taken: &mut u64,
    count: &mut u64,
) -> u32
    ensures { OfPieces pieces.now (λ image. ReportsFeedAll image payloads.now ends.now result state.old state.new
        taken.new count.new events.old events.new) }
{
    let judged = judge_pieces(alloc, pieces);
    let fed = feed_while_room(alloc, &judged, state, payloads, ends, events);
    *taken = fed.taken;
    *count = fed.count;
    fed.status
}

/// How far payloads were fed to a decoder.
#[derive(Clone, Copy)]
struct FedPayloads {
    /// How many were taken.
    taken: u64,
    /// How many events were written.
    count: u64,
    /// Why the next one was not taken, if any is left.
    status: u32,
}

/// No payload was taken, for this reason.
fn none_fed(status: u32) -> FedPayloads
    ensures status { result.status ≡ status }
    ensures taken { result.taken ≡ 0 }
    ensures count { result.count ≡ 0 }
{
    FedPayloads {
        taken: 0,
        count: 0,
        status,
    }
}

/// Feeds payloads to the decoder with these numbers, as long as their events have room.
fn feed_while_room(
    alloc: Global,
    image: &Judged<'_>,
    numbers: &mut DecoderNumbers,
    payloads: &[u8],
    ends: &[u64],
    events: &mut [EventNumbers],
) -> FedPayloads
    ensures { ReportsFeedAll image.now payloads.now ends.now result.status numbers.old numbers.new result.taken
        result.count events.old events.new }
{
    let first = match state_of(numbers) {
        Some(first) => first,
        None => return none_fed(BAD_STATE),
    };
    let program = match image {
        Ok(program) => program,
        Err(fault) => return none_fed(fault.status()),
    };
    let mut list = Vec::new(alloc);
    let mut kept = first;
    let mut written = 0;
    for place in 0..ends.len() {
        let payload = text_at(payloads, ends, place);
        match feed_next(
            program,
            &mut kept,
            numbers,
            payload,
            &mut list,
            &mut events[written..],
        ) {
            Ok(more) => written += more,
            Err(status) => {
                return FedPayloads {
                    taken: place as u64,
                    count: written as u64,
                    status,
                };
            }
        }
    }
    FedPayloads {
        taken: ends.len() as u64,
        count: written as u64,
        status: DONE,
    }
}

/// Feeds the next payload to the decoder with this state and these numbers, and writes its events, for which it uses
/// the list. Returns how many they are, or why the payload is not taken. Then nothing changes but the list.
fn feed_next(
    program: &ProgramOver,
    kept: &mut DecoderState,
    numbers: &mut DecoderNumbers,
    payload: Option<&[u8]>,
    list: &mut Vec<Event>,
    events: &mut [EventNumbers],
) -> Result<usize, u32>
    ensures fed { (image : AnyJudged) → image ≡ Ok program.now → IsOfState numbers.old kept.old →
        IsNextFed image (option_map (λ own. own.now) payload.entry) result numbers.old numbers.new kept.old
        kept.new events.old events.new }
    ensures fits { IfOk result (λ count. count ≤ length events.old) }
{
    let payload = match payload {
        Some(payload) => payload,
        None => return Err(OUT_OF_RANGE),
    };
    let packet = match unpack(payload) {
        Ok(packet) => packet,
        Err(why) => return Err(pack_status(why)),
    };
    list.clear();
    let mut next = *kept;
    let after = match feed_packet(program, &mut next, &packet, list) {
        Ok(after) => after,
        Err(why) => return Err(decode_status(why)),
    };
    let mut count = 0;
    let status = hand_out_events(list.as_slice(), events, &mut count);
    if status != DONE {
        return Err(status);
    }
    *kept = next;
    *numbers = after;
    Ok(count as usize)
}
