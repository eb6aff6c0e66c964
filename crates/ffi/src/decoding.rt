//! The logs of all harts, from a capture.

ghost use Rattle.std.specs.Prelude.{◌≡◌, ◌≤◌, ◌++◌, [], ◌∷◌, IfOk, length, vec_capacity};
ghost use Rattle.receiver.specs.Received.{events_in};
ghost use Rattle.retire.specs.LogText.{log_text};
ghost use Rattle.ffi.specs.Decoded.{AreDecoded, AreHandedOut, ReportsDecodeAll, closed_at, hart_ends};
ghost use Rattle.ffi.specs.Decoded.{stop_fault, stop_place, texts_of};
ghost use Rattle.ffi.specs.Images.{OfPieces};
ghost use Rattle.ffi.specs.Statuses.{capture_status, decode_status, demux_status};

use crate::dumping::message_status;
use crate::fault::Fault;
use crate::images::{ImagePiece, Judged, judge_pieces};
use crate::packing::pack_status;
use crate::status::*;
use captures::{CaptureFault, decode_capture};
use decoder::DecodeFault;
use message::DemuxFault;
use retire::{Event, LOG_ROOM, WriteFault, write_log_in};
use std::alloc::Global;

/// Where the text of a hart ends, and whether the hart is closed.
#[repr(C)]
#[derive(Clone, Copy)]
pub struct HartEnd {
    /// Where the hart's text ends in the buffer. It starts where that of the hart before ends, and for hart 0 at 0.
    pub end: u64,
    /// 1 where the closing packet of the hart was decoded, and else 0.
    pub closed: u32,
}

/// How decoding a capture ends for all its harts.
#[repr(C)]
#[derive(Clone, Copy)]
pub struct DecodeAllEnd {
    /// How many harts the capture has.
    pub harts: u64,
    /// The message, counted from 0 over all harts, at which decoding stops before the end. It is 0 where `fault` is 0,
    /// and at a header that is cut short or bad.
    pub place: u64,
    /// Why it stops there, as a status; 0 where it comes to the end.
    pub fault: u32,
}

/// The texts of harts' logs, one after the other, and how decoding ended.
#[derive(Drop)]
pub struct DecodedTexts {
    /// The logs, as text.
    pub text: Vec<u8>,
    /// Where the text of each hart ends.
    pub ends: Vec<HartEnd>,
    /// How decoding the capture ended.
    pub end: DecodeAllEnd,
}

/// Decodes a capture once, and writes the logs of all its harts as text to a buffer, one after the other, as far as the
/// harts' messages settle them. `ends` says of each hart where its text ends. The harts are those that the header
/// counts, or without a header those below `harts`.
///
/// The status is [`DONE`], [`TOO_SMALL`] where one of the two buffers is, [`MEMORY`], or says
/// what is wrong with the pieces. The last two write nothing; with the first two `ended` says how many ends there are.
pub fn tracebench_decode_all(
    alloc: Global,
    pieces: &[ImagePiece<'_>],
    harts: u16,
    capture: &[u8],
    buffer: &mut [u8],
    wanted: &mut u64,
    ends: &mut [HartEnd],
    ended: &mut DecodeAllEnd,
) -> u32
    ensures { OfPieces pieces.now (λ image. ReportsDecodeAll image harts capture.now result wanted.old wanted.new
        ended.old ended.new buffer.old buffer.new ends.old ends.new) }
{
    let judged = judge_pieces(alloc, pieces);
    let decoded = match decode_harts(alloc, &judged, harts, capture) {
        Ok(decoded) => decoded,
        Err(fault) => return fault.status(),
    };
    *ended = decoded.end;
    let (text, places) = (decoded.text.as_slice(), decoded.ends.as_slice());
    hand_out_texts(text, places, buffer, wanted, ends)
}

/// Writes texts to the start of a buffer, and where each ends to that of another. Where one of them is too small, none is
/// written to either.
fn hand_out_texts(
    text: &[u8],
    places: &[HartEnd],
    buffer: &mut [u8],
    wanted: &mut u64,
    ends: &mut [HartEnd],
) -> u32
    ensures { AreHandedOut text.now places.now result wanted.new buffer.old buffer.new ends.old ends.new }
{
    *wanted = text.len() as u64;
    if buffer.len() < text.len() || ends.len() < places.len() {
        return TOO_SMALL;
    }
    buffer[..text.len()].copy_from_slice(text);
    ends[..places.len()].copy_from_slice(places);
    DONE
}

/// The logs of the harts of a capture, as text.
fn decode_harts(
    alloc: Global,
    image: &Judged<'_>,
    harts: u16,
    capture: &[u8],
) -> Result<DecodedTexts, Fault>
    ensures { AreDecoded image.now harts capture.now result }
{
    let program = match image {
        Ok(program) => program,
        Err(why) => return Err(Fault::NoProgram(*why)),
    };
    let outcome = decode_capture(alloc, program, harts, capture)?;
    let mut text = Vec::new(alloc);
    let mut ends = Vec::new(alloc);
    match write_logs(
        alloc,
        outcome.harts.as_slice(),
        outcome.closed.as_slice(),
        &mut text,
        &mut ends,
    ) {
        Ok(()) => {}
        Err(_) => return Err(Fault::Memory),
    }
    let end = DecodeAllEnd {
        harts: outcome.harts.len() as u64,
        place: stop_place(outcome.fault),
        fault: stop_fault(outcome.fault),
    };
    Ok(DecodedTexts { text, ends, end })
}

/// Writes the logs of harts as text, one after the other, and where each ends.
fn write_logs(
    alloc: Global,
    lists: &[Vec<Event>],
    closed: &[bool],
    text: &mut Vec<u8>,
    ends: &mut Vec<HartEnd>,
) -> Result<(), WriteFault>
    requires first { text.old.items ≡ [] }
    requires none { ends.old.items ≡ [] }
    ensures text { IfOk result (λ _. text.new.items ≡ texts_of (events_in lists.now)) }
    ensures ends { IfOk result (λ _. ends.new.items ≡ hart_ends closed.now 0 0 (events_in lists.now)) }
{
    let mut room = Vec::with_capacity(alloc, LOG_ROOM)?;
    for place in 0..lists.len() {
        write_hart(
            &mut room,
            lists[place].as_slice(),
            closed_at(closed, place),
            text,
            ends,
        )?;
    }
    Ok(())
}

/// Writes the log of a hart after those before, and where it ends.
fn write_hart(
    room: &mut Vec<u8>,
    events: &[Event],
    closed: u32,
    text: &mut Vec<u8>,
    ends: &mut Vec<HartEnd>,
) -> Result<(), WriteFault>
    requires { LOG_ROOM ≤ vec_capacity room.old }
    ensures text { IfOk result (λ _. text.new.items ≡ text.old.items ++ log_text events.now) }
    ensures ends { IfOk result (λ _. ends.new.items
        ≡ ends.old.items ++ record { end = length text.new.items; closed = closed } ∷ []) }
    ensures room { vec_capacity room.old ≤ vec_capacity room.new }
{
    write_log_in(room, text, events)?;
    let end = HartEnd {
        end: text.len() as u64,
        closed,
    };
    match ends.push(end) {
        Ok(()) => Ok(()),
        Err(_) => Err(WriteFault::Memory),
    }
}

/// Where decoding stops.
pub(crate) fn stop_place(stop: Option<(u64, CaptureFault)>) -> u64
    ensures { result ≡ stop_place stop }
{
    match stop {
        Some((place, _)) => place,
        None => 0,
    }
}

/// Why decoding stops, as a status.
pub(crate) fn stop_fault(stop: Option<(u64, CaptureFault)>) -> u32
    ensures { result ≡ stop_fault stop }
{
    match stop {
        Some((_, why)) => capture_status(why),
        None => DONE,
    }
}

/// Whether the closing packet of a hart was decoded.
pub(crate) fn closed_at(closed: &[bool], hart: usize) -> u32
    ensures { result ≡ closed_at closed.now hart }
{
    match closed.get(hart) {
        Some(closed) => u32::from(*closed),
        None => 0,
    }
}

/// Why decoding a capture stops.
fn capture_status(why: CaptureFault) -> u32
    ensures { result ≡ capture_status why }
{
    match why {
        CaptureFault::Message(why) => message_status(why),
        CaptureFault::Demux(why) => demux_status(why),
        CaptureFault::Decode(why) => decode_status(why),
        CaptureFault::Mode => OTHER_MODE,
    }
}

/// Why a message is not accepted.
pub(crate) fn demux_status(why: DemuxFault) -> u32
    ensures { result ≡ demux_status why }
{
    match why {
        DemuxFault::Stranger => STRANGER,
        DemuxFault::Repeat => REPEAT,
        DemuxFault::Gap { .. } => GAP,
        DemuxFault::AfterClose => AFTER_CLOSE,
        DemuxFault::Packet(why) => pack_status(why),
    }
}

/// Why a packet is not decoded.
pub(crate) fn decode_status(why: DecodeFault) -> u32
    ensures { result ≡ decode_status why }
{
    match why {
        DecodeFault::NotOpened => NOT_OPENED,
        DecodeFault::OffProgram => WALKS_OFF_PROGRAM,
        DecodeFault::MissedNotify => MISSED_NOTIFY,
        DecodeFault::Branches => WRONG_BRANCHES,
        DecodeFault::WrongPlace => WRONG_PLACE,
        DecodeFault::WrongPrivilege => WALKS_AT_WRONG_PRIVILEGE,
        DecodeFault::AfterClose => AFTER_CLOSING_PACKET,
        DecodeFault::Memory => MEMORY,
    }
}
