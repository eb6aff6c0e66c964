//! Captures that become logs, and payloads that become events.

ghost use Rattle.std.specs.Prelude.{[], None};
ghost use Rattle.ffi.specs.Decoded.{ReportsDecodeAll};
ghost use Rattle.ffi.specs.DecoderKept.{HaveMode, NumbersStand};
ghost use Rattle.ffi.specs.FedAll.{ReportsFeedAll};
ghost use Rattle.ffi.specs.Images.{OfPieces};
ghost use Rattle.ffi.specs.Received.{ReportsReceive, ReportsResume};
ghost use Rattle.rvclass.specs.Words.{Words};

use ffi::{DecodeAllEnd, DecoderNumbers, EventNumbers, HartEnd, HartNumbers, ImagePiece};
use std::alloc::Global;

/// Decodes a capture once, and writes the logs of all its harts as text. See [`ffi::tracebench_decode_all`].
#[unsafe(no_mangle)]
pub extern "C" fn tracebench_decode_all(
    alloc: Global,
    pieces: &[ImagePiece<'_>],
    harts: u16,
    capture: &[u8],
    buffer: &mut [u8],
    wanted: &mut u64,
    ends: &mut [HartEnd],
    ended: &mut DecodeAllEnd,
) -> u32
    ensures { OfPieces pieces.now (λ image. ReportsDecodeAll image harts capture.now result wanted.old wanted.new
        ended.old ended.new buffer.old buffer.new ends.old ends.new) }
{
    ffi::tracebench_decode_all(alloc, pieces, harts, capture, buffer, wanted, ends, ended)
}

/// Writes the numbers of a decoder before the first packet. See [`ffi::tracebench_decoder`].
#[unsafe(no_mangle)]
pub extern "C" fn tracebench_decoder(state: &mut DecoderNumbers)
    ensures stands { (words : Words) → NumbersStand words [] [] state.new }
    ensures unannounced { HaveMode None state.new }
{
    ffi::tracebench_decoder(state)
}

/// Feeds payloads to the decoder with these numbers. See [`ffi::tracebench_feed_all`].
#[unsafe(no_mangle)]
pub extern "C" fn tracebench_feed_all(
    alloc: Global,
    pieces: &[ImagePiece<'_>],
    state: &mut DecoderNumbers,
    payloads: &[u8],
    ends: &[u64],
    events: &mut [EventNumbers],
    taken: &mut u64,
    count: &mut u64,
) -> u32
    ensures { OfPieces pieces.now (λ image. ReportsFeedAll image payloads.now ends.now result state.old state.new
        taken.new count.new events.old events.new) }
{
    ffi::tracebench_feed_all(alloc, pieces, state, payloads, ends, events, taken, count)
}

/// Takes the next message of a hart. See [`ffi::tracebench_receive`].
#[unsafe(no_mangle)]
pub extern "C" fn tracebench_receive(
    alloc: Global,
    pieces: &[ImagePiece<'_>],
    hart: &mut HartNumbers,
    number: u64,
    payload: &[u8],
    events: &mut [EventNumbers],
    count: &mut u64,
    missing: &mut u64,
) -> u32
    ensures { OfPieces pieces.now (λ image. ReportsReceive image number payload.now result hart.old hart.new count.old
        count.new missing.old missing.new events.old events.new) }
{
    ffi::tracebench_receive(alloc, pieces, hart, number, payload, events, count, missing)
}

/// Lets a hart go on at a message before which others are lost. See [`ffi::tracebench_resume`].
#[unsafe(no_mangle)]
pub extern "C" fn tracebench_resume(hart: &mut HartNumbers, number: u64, mode: u32) -> u32
    ensures { ReportsResume number mode result hart.old hart.new }
{
    ffi::tracebench_resume(hart, number, mode)
}
