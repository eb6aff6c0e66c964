//! What logs cost, as a table.

ghost use Rattle.std.specs.Prelude.{◌≡◌, ◌≤◌, IfErr, IfOk, length};
ghost use Rattle.legalpath.specs.Legal.{Legal};
ghost use Rattle.legalpath.specs.ProgramLog.{program_log};
ghost use Rattle.captures.specs.Bounds.{AreWithin, most_counted};
ghost use Rattle.captures.specs.Measures.{measures_of};
ghost use Rattle.captures.specs.Table.{measures_table};
ghost use Rattle.message.specs.Version.{most_harts};
ghost use Rattle.message.specs.declared.header.Version.TheVariants.{Two};
ghost use Rattle.retire.specs.Log.{most_rows};
ghost use Rattle.rvclass.specs.Fetch.{words_of};
ghost use Rattle.ffi.specs.Encoded.{IsEncoded, IsMade, IsRefusedLog, ReportsMeasure};
ghost use Rattle.ffi.specs.Images.{OfPieces};
ghost use Rattle.ffi.specs.declared.encoding.TheConstants.{VERSION_TWO};
ghost use Rattle.ffi.specs.steps.Measuring.{AreMeasured};
ghost use Rattle.ffi.specs.steps.OfTexts.{AreTextsOf};

use crate::encoding::{LogPlace, VERSION_TWO, report_made, settings_of};
use crate::fault::Fault;
use crate::images::{ImagePiece, Judged, judge_pieces};
use crate::legal_texts::log_at;
use captures::{LogMeasures, Measures, write_measures_of};
use payload::Mode;
use retire::Event;
use rvclass::ProgramOver;
use std::alloc::Global;

/// Writes the table of what each hart's log costs to a buffer, hart 0 first, as `tracebench measure` prints it. `logs`
/// holds the texts of the logs, one after the other, and `ends` where each ends; what is after the last end is not looked
/// at. There are 1 to 1,024 logs, the period is 1 or more, and the mode is [`DIFFERENTIAL`](crate::DIFFERENTIAL) or
/// [`FULL`](crate::FULL).
///
/// The status is [`DONE`](crate::status::DONE), [`TOO_SMALL`](crate::status::TOO_SMALL), or one of those with which
/// [`tracebench_encode`](crate::tracebench_encode) makes no capture; then `place` names the log and its row as there.
pub fn tracebench_measure(
    alloc: Global,
    pieces: &[ImagePiece<'_>],
    logs: &[u8],
    ends: &[u64],
    period: u16,
    mode: u32,
    buffer: &mut [u8],
    wanted: &mut u64,
    place: &mut LogPlace,
) -> u32
    ensures { OfPieces pieces.now (λ image. ReportsMeasure image logs.now ends.now period mode result wanted.old
        wanted.new place.old place.new buffer.old buffer.new) }
{
    let judged = judge_pieces(alloc, pieces);
    let measured = measure_logs(alloc, &judged, logs, ends, period, mode);
    report_made(measured, buffer, wanted, place)
}

/// The table of what logs cost, or the log that is at fault and why.
fn measure_logs(
    alloc: Global,
    image: &Judged<'_>,
    logs: &[u8],
    ends: &[u64],
    period: u16,
    mode: u32,
) -> Result<Vec<u8>, (u64, Fault)>
    ensures { IsEncoded image.now logs.now ends.now period mode VERSION_TWO (λ mode version. measures_table period mode)
        result }
{
    match settings_of(ends, period, mode, VERSION_TWO) {
        Some(settings) => measure_in(alloc, image, logs, ends, period, settings.mode),
        None => Err((0, Fault::Range)),
    }
}

/// The table of what logs cost in a mode, or the log that is at fault and why.
fn measure_in(
    alloc: Global,
    image: &Judged<'_>,
    logs: &[u8],
    ends: &[u64],
    period: u16,
    mode: Mode,
) -> Result<Vec<u8>, (u64, Fault)>
    requires period { 1 ≤ period }
    requires few { length ends.now ≤ most_harts Two }
    ensures { IsMade image.now logs.now ends.now (measures_table period mode) result }
{
    let program = match image {
        Ok(program) => program,
        Err(why) => return Err((0, Fault::NoProgram(*why))),
    };
    let measures = match measure_each(alloc, program, logs, ends, period, mode) {
        Ok(measures) => measures,
        Err(why) => return Err(why),
    };
    let mut table = Vec::new(alloc);
    match write_measures_of(measures.as_slice(), &mut table) {
        Ok(()) => Ok(table),
        Err(_) => Err((0, Fault::Memory)),
    }
}

/// What each log costs, or the log that is at fault and why.
fn measure_each(
    alloc: Global,
    program: &ProgramOver<'_>,
    logs: &[u8],
    ends: &[u64],
    period: u16,
    mode: Mode,
) -> Result<Vec<Measures>, (u64, Fault)>
    requires { 1 ≤ period }
    ensures measured { IfOk result (λ measures.
        AreTextsOf program.now logs.now ends.now (AreMeasured period mode measures.items)) }
    ensures refused { IfErr result (λ why. IsRefusedLog program.now logs.now ends.now why.0 why.1) }
{
    let mut measures = Vec::new(alloc);
    for place in 0..ends.len() {
        let events = match log_at(alloc, program, logs, ends, place) {
            Ok(events) => events,
            Err(why) => return Err(why),
        };
        match measures.push(count_events(program, events.as_slice(), period, mode)) {
            Ok(()) => {}
            Err(_) => return Err((place as u64, Fault::Memory)),
        }
    }
    Ok(measures)
}

/// What events cost.
fn count_events(program: &ProgramOver<'_>, events: &[Event], period: u16, mode: Mode) -> Measures
    requires period { 1 ≤ period }
    requires few { length events.now ≤ most_rows }
    ensures value { Legal (words_of program.now) events.now
        → result ≡ measures_of period mode (program_log program.now events.now) }
    ensures few { AreWithin most_counted result }
{
    let mut counted = LogMeasures::new(period, mode);
    counted.add(program, events);
    counted.finish(program)
}
