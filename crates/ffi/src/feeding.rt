//! A payload that a decoder is fed.

ghost use Rattle.std.specs.Prelude.{◌≡◌, [], None, ℕ, List};
ghost use Rattle.rvclass.specs.Words.{Words};
ghost use Rattle.ffi.specs.DecoderKept.{HaveMode, NumbersStand};
ghost use Rattle.ffi.specs.Fed.{GoesOnIfDone, IsFed, ReportsFeed};
ghost use Rattle.ffi.specs.Images.{Judged as AnyJudged};
ghost use Rattle.ffi.specs.declared.decoder_state.DecoderNumbers.{DecoderNumbers as AnyNumbers};
ghost use Rattle.ffi.specs.steps.FeedingAll.{IsPacketFed, IsToFeed};

use crate::decoder_state::{DecoderNumbers, numbers_of_state, state_of};
use crate::events::EventNumbers;
use crate::fault::Fault;
use crate::handing::hand_out_events;
use crate::images::Judged;
use crate::status::DONE;
use decoder::{DecodeFault, Decoder, DecoderState};
use payload::{Packet, unpack};
use retire::Event;
use rvclass::ProgramOver;
use std::alloc::Global;

/// What a payload gives that a decoder takes.
#[derive(Drop)]
pub struct FedPayload {
    /// What the decoder remembers then.
    pub numbers: DecoderNumbers,
    /// The events that are added.
    pub events: Vec<Event>,
}

/// Writes the numbers of a decoder before the first packet. No memory is taken.
pub fn tracebench_decoder(state: &mut DecoderNumbers)
    ensures stands { (words : Words) → NumbersStand words [] [] state.new }
    ensures unannounced { HaveMode None state.new }
{
    *state = numbers_of_state(&Decoder::new().state());
}

/// Feeds a payload to the decoder with these numbers, and reports what came of it.
#[inline(always)]
pub(crate) fn report_feed(
    alloc: Global,
    image: &Judged<'_>,
    state: &mut DecoderNumbers,
    payload: &[u8],
    events: &mut [EventNumbers],
    count: &mut u64,
) -> u32
    ensures { ReportsFeed image.now payload.now result state.old state.new count.old count.new events.old events.new }
{
    match feed_payload(alloc, image, state, payload) {
        Ok(fed) => {
            let status = hand_out_events(fed.events.as_slice(), events, count);
            go_on_if_done(status, state, fed.numbers);
            status
        }
        Err(fault) => fault.status(),
    }
}

/// Goes on with these numbers where all is done.
fn go_on_if_done(status: u32, state: &mut DecoderNumbers, next: DecoderNumbers)
    ensures { GoesOnIfDone status state.old next state.new }
{
    if status == DONE {
        *state = next;
    }
}

/// The numbers of the decoder after a payload, and the events that are added.
fn feed_payload(
    alloc: Global,
    image: &Judged<'_>,
    numbers: &DecoderNumbers,
    payload: &[u8],
) -> Result<FedPayload, Fault>
    ensures { IsFed image.now payload.now numbers.now result }
{
    let Some(state) = state_of(numbers) else {
        return Err(Fault::State);
    };
    let packet = match unpack(payload) {
        Ok(packet) => packet,
        Err(why) => return Err(Fault::Payload(why)),
    };
    let program = match image {
        Ok(program) => program,
        Err(why) => return Err(Fault::NoProgram(*why)),
    };
    let mut events = Vec::new(alloc);
    let mut next = state;
    match feed_packet(program, &mut next, &packet, &mut events) {
        Ok(numbers) => Ok(FedPayload { numbers, events }),
        Err(why) => Err(Fault::Decode(why)),
    }
}

/// Feeds a packet to the decoder with this state, and adds the events that it settles to a list, which has none. The
/// state is the decoder's then, of which these are the numbers.
pub(crate) fn feed_packet(
    program: &ProgramOver,
    state: &mut DecoderState,
    packet: &Packet,
    events: &mut Vec<Event>,
) -> Result<DecoderNumbers, DecodeFault>
    ensures { (image : AnyJudged) (payload : List ℕ) (numbers : AnyNumbers) →
        IsToFeed image payload numbers program.now packet.now state.old → events.old.items ≡ [] →
        IsPacketFed image payload numbers events.new.items state.new result }
{
    let mut decoder = Decoder::from_state(*state);
    match decoder.feed(program, packet, events) {
        Ok(()) => {
            *state = decoder.state();
            Ok(numbers_of_state(state))
        }
        Err(why) => Err(why),
    }
}
