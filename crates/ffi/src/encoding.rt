//! From the texts of logs to a capture.

ghost use Rattle.std.specs.Prelude.{◌≡◌, ◌≤◌, IfErr, IfOk, IfSome, None, OnOk, length};
ghost use Rattle.captures.specs.Versions.{capture_of};
ghost use Rattle.legalpath.specs.Legal.{Legal};
ghost use Rattle.legalpath.specs.ProgramLog.{program_log};
ghost use Rattle.message.specs.Version.{most_harts};
ghost use Rattle.message.specs.declared.header.Version.TheVariants.{Two};
ghost use Rattle.rvclass.specs.Fetch.{words_of};
ghost use Rattle.ffi.specs.Encoded.{AreInRange, IsEncoded, IsMade, IsOutOfRange, IsRefusedLog};
ghost use Rattle.ffi.specs.Encoded.{ReportsEncode, ReportsMade, mode_of, version_of};
ghost use Rattle.ffi.specs.Images.{OfPieces};
ghost use Rattle.ffi.specs.steps.Encoding.{AddsLog, AddsLogs};
ghost use Rattle.ffi.specs.steps.OfTexts.{AreTextsOf};

use crate::fault::Fault;
use crate::handing::hand_out;
use crate::images::{ImagePiece, Judged, judge_pieces};
use crate::legal_texts::log_at;
use crate::numbers::{DIFFERENTIAL, FULL};
use captures::{CaptureBytes, HartMessages, write_start};
use message::Version;
use payload::Mode;
use retire::Event;
use rvclass::ProgramOver;
use std::alloc::{AllocError, Global};

/// A capture without a header.
pub const VERSION_ONE: u32 = 1;
/// A capture with a header.
pub const VERSION_TWO: u32 = 2;

/// The log and its row that a fault names.
#[repr(C)]
#[derive(Clone, Copy)]
pub struct LogPlace {
    /// The log, counted from 0; 0 where none is named.
    pub log: u64,
    /// The row, counted from 1; 0 where none is named.
    pub row: u64,
}

/// What a capture of logs is made with.
#[derive(Clone, Copy)]
pub(crate) struct Settings {
    /// The period of synchronisations in retirements, 1 or more.
    pub(crate) period: u16,
    /// How addresses are reported.
    pub(crate) mode: Mode,
    /// Whether the capture has a header.
    pub(crate) version: Version,
}

/// Writes the capture of harts' logs to a buffer, hart 0 first. `logs` holds the texts of the logs, one after the
/// other, and `ends` where each ends; what is after the last end is not looked at. There are 1 to 1,024 logs, in
/// version 1 at most 64, the period is 1 or more, the mode is [`DIFFERENTIAL`] or [`FULL`], and the version
/// [`VERSION_ONE`] or [`VERSION_TWO`].
///
/// The status is [`DONE`](crate::status::DONE), [`TOO_SMALL`](crate::status::TOO_SMALL),
/// [`OUT_OF_RANGE`](crate::status::OUT_OF_RANGE) where one of these numbers is out of its range,
/// [`MEMORY`](crate::status::MEMORY), or says what is wrong with the pieces or with the first log that is no legal log.
/// [`BAD_ENDS`](crate::status::BAD_ENDS) says that the log's end is before its start or past the texts. Where there is
/// no capture, `place` names the log and its row; both are 0 where no log is at fault.
pub fn tracebench_encode(
    alloc: Global,
    pieces: &[ImagePiece<'_>],
    logs: &[u8],
    ends: &[u64],
    period: u16,
    mode: u32,
    version: u32,
    buffer: &mut [u8],
    wanted: &mut u64,
    place: &mut LogPlace,
) -> u32
    ensures { OfPieces pieces.now (λ image. ReportsEncode image logs.now ends.now period mode version result wanted.old
        wanted.new place.old place.new buffer.old buffer.new) }
{
    let judged = judge_pieces(alloc, pieces);
    let made = encode_logs(alloc, &judged, logs, ends, period, mode, version);
    report_made(made, buffer, wanted, place)
}

/// Hands out a capture, or reports why there is none.
pub(crate) fn report_made(
    made: Result<Vec<u8>, (u64, Fault)>,
    buffer: &mut [u8],
    wanted: &mut u64,
    place: &mut LogPlace,
) -> u32
    ensures { ReportsMade made result wanted.old wanted.new place.old place.new buffer.old buffer.new }
{
    match made {
        Ok(capture) => hand_out(capture.as_slice(), buffer, wanted),
        Err((log, fault)) => {
            *place = LogPlace {
                log,
                row: fault.row(),
            };
            fault.status()
        }
    }
}

/// The settings that numbers name, where all are within their ranges.
pub(crate) fn settings_of(ends: &[u64], period: u16, mode: u32, version: u32) -> Option<Settings>
    ensures within { IfSome result (λ named. AreInRange ends.now period mode version named.mode named.version) }
    ensures period { IfSome result (λ named. named.period ≡ period) }
    ensures out { result ≡ None → IsOutOfRange ends.now period mode version }
{
    let Some(mode) = mode_of(mode) else {
        return None;
    };
    let Some(version) = version_of(version) else {
        return None;
    };
    if period == 0 || ends.is_empty() || ends.len() > usize::from(version.most_harts()) {
        return None;
    }
    Some(Settings {
        period,
        mode,
        version,
    })
}

/// The capture of logs, or the log that is at fault and why.
fn encode_logs(
    alloc: Global,
    image: &Judged<'_>,
    logs: &[u8],
    ends: &[u64],
    period: u16,
    mode: u32,
    version: u32,
) -> Result<Vec<u8>, (u64, Fault)>
    ensures { IsEncoded image.now logs.now ends.now period mode version
        (λ mode version. capture_of version period mode) result }
{
    match settings_of(ends, period, mode, version) {
        Some(settings) => encode_in(alloc, image, logs, ends, settings),
        None => Err((0, Fault::Range)),
    }
}

/// The capture of logs in these settings, or the log that is at fault and why.
fn encode_in(
    alloc: Global,
    image: &Judged<'_>,
    logs: &[u8],
    ends: &[u64],
    settings: Settings,
) -> Result<Vec<u8>, (u64, Fault)>
    requires period { 1 ≤ settings.period }
    requires some { 1 ≤ length ends.now }
    requires few { length ends.now ≤ most_harts settings.version }
    ensures { IsMade image.now logs.now ends.now (capture_of settings.version settings.period settings.mode) result }
{
    let program = match image {
        Ok(program) => program,
        Err(why) => return Err((0, Fault::NoProgram(*why))),
    };
    let Settings {
        period,
        mode,
        version,
    } = settings;
    let mut capture = Vec::new(alloc);
    match write_start(&mut capture, version, period, mode, ends.len()) {
        Ok(()) => {}
        Err(_) => return Err((0, Fault::Memory)),
    }
    match encode_each(alloc, program, logs, ends, settings, &mut capture) {
        Ok(()) => Ok(capture),
        Err(why) => Err(why),
    }
}

/// Adds the messages of each log to a capture, or returns the log that is at fault and why.
fn encode_each(
    alloc: Global,
    program: &ProgramOver<'_>,
    logs: &[u8],
    ends: &[u64],
    settings: Settings,
    capture: &mut Vec<u8>,
) -> Result<(), (u64, Fault)>
    requires period { 1 ≤ settings.period }
    requires few { length ends.now ≤ most_harts Two }
    ensures added { IfOk result (λ done. AreTextsOf program.now logs.now ends.now
        (AddsLogs settings.period settings.mode capture.old.items capture.new.items)) }
    ensures refused { IfErr result (λ why. IsRefusedLog program.now logs.now ends.now why.0 why.1) }
{
    for place in 0..ends.len() {
        let events = match log_at(alloc, program, logs, ends, place) {
            Ok(events) => events,
            Err(why) => return Err(why),
        };
        match add_log(
            alloc,
            program,
            place as u16,
            events.as_slice(),
            settings,
            capture,
        ) {
            Ok(()) => {}
            Err(_) => return Err((place as u64, Fault::Memory)),
        }
    }
    Ok(())
}

/// Adds the messages of a hart that has these events to a capture.
fn add_log(
    alloc: Global,
    program: &ProgramOver<'_>,
    hart: u16,
    events: &[Event],
    settings: Settings,
    capture: &mut Vec<u8>,
) -> Result<(), AllocError>
    requires { 1 ≤ settings.period }
    ensures { Legal (words_of program.now) events.now → OnOk result (AddsLog hart settings.period settings.mode
        capture.old.items capture.new.items (program_log program.now events.now)) }
{
    let mut messages = HartMessages::<CaptureBytes>::new(
        alloc,
        hart,
        settings.period,
        settings.mode,
    );
    messages.add(program, events)?;
    let bytes = messages.finish(program)?;
    capture.extend_from_slice(bytes.as_slice())?;
    Ok(())
}

/// The mode of a number.
pub(crate) fn mode_of(number: u32) -> Option<Mode>
    ensures { result ≡ mode_of number }
{
    match number {
        DIFFERENTIAL => Some(Mode::Differential),
        FULL => Some(Mode::Full),
        _ => None,
    }
}

/// The version of a number.
pub(crate) fn version_of(number: u32) -> Option<Version>
    ensures { result ≡ version_of number }
{
    match number {
        VERSION_ONE => Some(Version::One),
        VERSION_TWO => Some(Version::Two),
        _ => None,
    }
}
