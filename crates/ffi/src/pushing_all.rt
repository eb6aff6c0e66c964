//! The packets of a log, many steps at a call: events in, their packets out.

ghost use Rattle.std.specs.Prelude.{◌+◌, ◌<◌};
ghost use Rattle.rvclass.specs.Fetch.{words_of};
ghost use Rattle.ffi.specs.Images.{OfPieces};
ghost use Rattle.ffi.specs.PushedAll.{ReportsPushAll};
ghost use Rattle.ffi.specs.declared.status.TheConstants.{TOO_SMALL};
ghost use Rattle.ffi.specs.steps.PushingAll.{ArePushed, EndsPushes, IsPushed};

use crate::encoder_state::{EncoderNumbers, numbers_of_state, state_of};
use crate::events::{EventNumbers, event_of};
use crate::handing::hand_out_packets;
use crate::images::{ImagePiece, Judged, judge_pieces};
use crate::numbers::PacketNumbers;
use crate::pushing_blocks::push_blocks;
use crate::status::{BAD_STATE, DONE, NO_EVENT};
use encoder::Encoder;
use retire::Event;
use rvclass::ProgramOver;
use std::alloc::Global;

/// Takes the next events of a log, one after the other, and writes the packets that they make due. `taken` is how many
/// events were taken, and `count` how many packets there are at the start of the buffer, at most 2 for each event.
/// `state` holds what the encoder keeps of the events before, and then of those that were taken too. If the log is legal,
/// the packets are those of the log. This call does not check whether it is, and is [`DONE`] for illegal events too:
/// [`tracebench_check_events`](crate::tracebench_check_events) checks events. No memory is taken but for the list of the
/// pieces; the time grows with the events, not with the bytes of the pieces.
///
/// The status is [`DONE`] where all events were taken. Else it says why the event after those was not:
///
/// - [`TOO_SMALL`](crate::status::TOO_SMALL): the rest of the buffer is too small for its packets, so it has room for
///   at most one. Hand in the events from there on again.
/// - [`NO_EVENT`]: no event has its numbers.
///
/// Or no event was taken, and the state stays: [`BAD_STATE`] where no encoder has this state, or what is wrong with the
/// pieces.
pub fn tracebench_push_all(
    alloc: Global,
    pieces: &[ImagePiece<'_>],
    state: &mut EncoderNumbers,
    events: &[EventNumbers],
    packets: &mut [PacketNumbers],
    taken: &mut u64,
    count: &mut u64,
) -> u32
    ensures { OfPieces pieces.now (λ image. ReportsPushAll image events.now result state.old state.new taken.new
        count.new packets.old packets.new) }
{
    let judged = judge_pieces(alloc, pieces);
    push_all_over(&judged, state, events, packets, taken, count)
}

/// Pushes events as long as their packets have room, where the state is read and there is a program.
#[inline(always)]
fn push_all_over(
    image: &Judged<'_>,
    state: &mut EncoderNumbers,
    events: &[EventNumbers],
    packets: &mut [PacketNumbers],
    taken: &mut u64,
    count: &mut u64,
) -> u32
    ensures { ReportsPushAll image.now events.now result state.old state.new taken.new count.new packets.old
        packets.new }
{
    *taken = 0;
    *count = 0;
    let before = match state_of(state) {
        Some(before) => before,
        None => return BAD_STATE,
    };
    let program = match image {
        Ok(program) => program,
        Err(fault) => return fault.status(),
    };
    let mut encoder = Encoder::from_state(before);
    let status = push_while_room(program, &mut encoder, events, packets, taken, count);
    *state = numbers_of_state(&encoder.state());
    status
}

/// Pushes events as long as their packets have room.
fn push_while_room(
    program: &ProgramOver,
    encoder: &mut Encoder,
    events: &[EventNumbers],
    packets: &mut [PacketNumbers],
    taken: &mut u64,
    count: &mut u64,
) -> u32
    ensures pushed { ArePushed (words_of program.now) encoder.old events.now taken.new encoder.new count.new packets.old
        packets.new }
    ensures ends { EndsPushes (words_of program.now) events.now taken.new encoder.new count.new packets.old result }
{
    let (first, mut written) = push_blocks(program, encoder, events, packets);
    for place in first..events.len() {
        *taken = place as u64;
        *count = written as u64;
        let event = match event_of(&events[place]) {
            Some(event) => event,
            None => return NO_EVENT,
        };
        let mut more = 0;
        let status = push_next(program, encoder, event, &mut packets[written..], &mut more);
        if status != DONE {
            return status;
        }
        written += more as usize;
    }
    *taken = events.len() as u64;
    *count = written as u64;
    DONE
}

/// Pushes the next event, and writes its packets. Where they have no room, the encoder stays as it was.
fn push_next(
    program: &ProgramOver,
    encoder: &mut Encoder,
    event: Event,
    packets: &mut [PacketNumbers],
    count: &mut u64,
) -> u32
    ensures { IsPushed (words_of program.now) encoder.old event result encoder.new count.new packets.old packets.new }
{
    let kept = encoder.state();
    let burst = encoder.push(program, event);
    let status = hand_out_packets(burst.as_slice(), packets, count);
    if status != DONE {
        *encoder = Encoder::from_state(kept);
    }
    status
}
