//! Finding what is left of the logs of a capture that may be damaged.

ghost use Rattle.std.specs.Prelude.{IfOk};
ghost use Rattle.salvaging.specs.Salvages.{GivesSalvaged};
ghost use Rattle.salvage_reports.specs.Found.{IsFoundBehind};

use crate::found::Found;
use crate::frame_reading::frames_of;
use crate::progress::WatchSalvage;
use frames::{CaptureStart, mode_of, spans_of};
use message::{HartRange, Message};
use payload::Mode;
use rvclass::ProgramOver;
use salvaging::{Salvaged, salvage_watched};
use std::alloc::{AllocError, Global};

/// Finds what the messages of these harts among a capture's frames leave of their logs, whatever happened to its bytes.
/// `start` is how the capture begins, as [`start_of`](frames::start_of) returns it, and `harts` is how many harts it
/// has, as [`harts_counted`](frames::harts_counted) counts them. Frames of other harts than these are passed over.
///
/// An error is returned only where an allocation fails. Time and memory are those of [`salvage_watched`], with one time
/// over the bytes and 8 bytes a message more.
pub fn find_salvaged<V: WatchSalvage>(
    alloc: Global,
    program: &ProgramOver,
    start: CaptureStart,
    harts: u16,
    only: HartRange,
    bytes: &[u8],
    watch: &V,
) -> Result<Found, AllocError>
    ensures { IfOk result (IsFoundBehind start.header start.fault harts only program.now bytes.now) }
{
    let frames = frames_of(alloc, only, harts, spans_of(bytes, start.header))?;
    let salvaged = salvage_found(
        alloc,
        program,
        harts,
        mode_of(start.header),
        frames.messages.as_slice(),
        watch,
    )?;
    Ok(Found {
        only,
        header: start.header,
        fault: start.fault,
        frames,
        salvaged,
    })
}

/// What is salvaged of these messages. The watch is told how many they are before, and how salvaging ended.
fn salvage_found<V: WatchSalvage>(
    alloc: Global,
    program: &ProgramOver,
    harts: u16,
    mode: Mode,
    messages: &[Message],
    watch: &V,
) -> Result<Salvaged, AllocError>
    ensures { IfOk result (GivesSalvaged program.now harts mode messages.now) }
{
    watch.begun(messages.len());
    let salvaged = salvage_watched(alloc, program, harts, mode, messages, watch);
    watch.ended(salvaged.is_err());
    salvaged
}
