//! How a capture compares with logs, as text.

ghost use Rattle.std.specs.Prelude.{◌≡◌, ◌≤◌, IfErr, IfOk, length};
ghost use Rattle.comparing.specs.Compared.{got_by, gots_by};
ghost use Rattle.comparing.specs.Explained.{explained_hart};
ghost use Rattle.comparing.specs.Sourced.{AreNumbered};
ghost use Rattle.comparing.specs.steps.Held.{count_in};
ghost use Rattle.legalpath.specs.ProgramLog.{program_log};
ghost use Rattle.receiver.specs.Received.{events_in};
ghost use Rattle.retire.specs.Log.{most_rows};
ghost use Rattle.rvclass.specs.Fetch.{words_of};
ghost use Rattle.rvclass.specs.Image.{Image};
ghost use Rattle.ffi.specs.Compared.{IsCompared, ReportsCompare, ReportsCompared};
ghost use Rattle.ffi.specs.Encoded.{IsRefusedLog};
ghost use Rattle.ffi.specs.Images.{OfPieces};
ghost use Rattle.ffi.specs.steps.Comparing.{AreCompared, Writes};
ghost use Rattle.ffi.specs.steps.OfTexts.{AreTextsOf};

use crate::decoding::{stop_fault, stop_place};
use crate::encoding::LogPlace;
use crate::fault::Fault;
use crate::handing::hand_out;
use crate::images::{ImagePiece, Judged, judge_pieces};
use crate::legal_texts::log_at;
use crate::status::MEMORY;
use crate::texts::{TextEnd, Written, first_unclosed};
use bench::ComparedHart;
use captures::{CaptureFault, CaptureOutcome, decode_capture};
use comparing::{
    Comparing, ExplainedHart, Explaining, HartCount, counts_of, sources_of, write_explained,
};
use retire::{Event, WriteFault};
use rvclass::ProgramOver;
use std::alloc::Global;

/// Writes how a capture compares with the logs of its harts to a buffer, hart 0 first, as `tracebench compare` prints it:
/// also the first row in which a log and what is decoded of it differ, and the message that it comes from.
/// `logs` holds the texts of the logs, one after the other, and `ends` where each ends; what is after the last end is not
/// looked at. The harts are those that the header counts, or without a header those below `harts`, and there has to be a
/// log for each.
///
/// The status is [`DONE`](crate::status::DONE), [`TOO_SMALL`](crate::status::TOO_SMALL),
/// [`UNEQUAL_COUNTS`](crate::status::UNEQUAL_COUNTS), [`MEMORY`](crate::status::MEMORY), or says what is wrong with the
/// pieces or with the first log that is no legal log. With the first two `ended` is written. With the others `place` names
/// the log and its row, and nothing else is written; both are 0 where no log is at fault.
pub fn tracebench_compare(
    alloc: Global,
    pieces: &[ImagePiece<'_>],
    harts: u16,
    capture: &[u8],
    logs: &[u8],
    ends: &[u64],
    buffer: &mut [u8],
    wanted: &mut u64,
    ended: &mut TextEnd,
    place: &mut LogPlace,
) -> u32
    ensures { OfPieces pieces.now (λ image. ReportsCompare image harts capture.now logs.now ends.now result wanted.old
        wanted.new ended.old ended.new place.old place.new buffer.old buffer.new) }
{
    let judged = judge_pieces(alloc, pieces);
    let compared = compare_logs(alloc, &judged, harts, capture, logs, ends);
    report_compared(compared, buffer, wanted, ended, place)
}

/// Hands out a comparison and how it ends, or reports why there is none, and of which log and row.
fn report_compared(
    compared: Result<Written, (u64, Fault)>,
    buffer: &mut [u8],
    wanted: &mut u64,
    ended: &mut TextEnd,
    place: &mut LogPlace,
) -> u32
    ensures { ReportsCompared compared result wanted.old wanted.new ended.old ended.new place.old place.new buffer.old
        buffer.new }
{
    match compared {
        Ok(found) => {
            *ended = found.end;
            hand_out(found.text.as_slice(), buffer, wanted)
        }
        Err((log, fault)) => {
            *place = LogPlace {
                log,
                row: fault.row(),
            };
            fault.status()
        }
    }
}

/// How a capture compares with logs, or why that is not known, and for which log.
fn compare_logs(
    alloc: Global,
    image: &Judged<'_>,
    harts: u16,
    capture: &[u8],
    logs: &[u8],
    ends: &[u64],
) -> Result<Written, (u64, Fault)>
    ensures { IsCompared image.now harts capture.now logs.now ends.now result }
{
    let program = match image {
        Ok(program) => program,
        Err(why) => return Err((0, Fault::NoProgram(*why))),
    };
    let outcome = match decode_capture(alloc, program, harts, capture) {
        Ok(outcome) => outcome,
        Err(_) => return Err((0, Fault::Memory)),
    };
    if stop_fault(outcome.fault) == MEMORY {
        return Err((0, Fault::Memory));
    }
    let counts = match counts_of(alloc, outcome.harts.len(), outcome.fault, capture) {
        Ok(counts) => counts,
        Err(_) => return Err((0, Fault::Memory)),
    };
    if ends.len() != outcome.harts.len() {
        return Err((0, Fault::Count));
    }
    let said = match compare_each(alloc, program, logs, ends, &outcome, counts.as_slice()) {
        Ok(said) => said,
        Err((place, why)) => return Err((place, why)),
    };
    match write_said(
        alloc,
        program,
        capture,
        said.as_slice(),
        outcome.closed.as_slice(),
        outcome.fault,
    ) {
        Ok(written) => Ok(written),
        Err(_) => Err((0, Fault::Memory)),
    }
}

/// The report of what is said of harts, with the messages of the capture that rows come from, and how it ends.
fn write_said(
    alloc: Global,
    program: &ProgramOver<'_>,
    capture: &[u8],
    said: &[ExplainedHart],
    closed: &[bool],
    stop: Option<(u64, CaptureFault)>,
) -> Result<Written, WriteFault>
    requires { AreNumbered 0 said.now }
    ensures { IfOk result (Writes (words_of program.now) capture.now said.now closed.now stop) }
{
    let Ok(sourced) = sources_of(alloc, program, capture, stop, 0, said) else {
        return Err(WriteFault::Memory);
    };
    let how: Explaining<'_> = Explaining {
        before: false,
        symbols: None,
        stop,
    };
    let mut text = Vec::new(alloc);
    let whole = write_explained(&how, sourced.as_slice(), &mut text)?;
    let end = TextEnd {
        harts: closed.len() as u64,
        unclosed: first_unclosed(closed),
        place: stop_place(stop),
        fault: stop_fault(stop),
        whole: u32::from(whole),
    };
    Ok(Written { text, end })
}

/// What is said of each hart, by its log, or the log that is at fault and why.
fn compare_each(
    alloc: Global,
    program: &ProgramOver<'_>,
    logs: &[u8],
    ends: &[u64],
    outcome: &CaptureOutcome,
    counts: &[HartCount],
) -> Result<Vec<ExplainedHart>, (u64, Fault)>
    requires many { length ends.now ≡ length outcome.now.harts.items }
    requires flags { length outcome.now.closed.items ≡ length outcome.now.harts.items }
    ensures said { IfOk result (λ said. AreTextsOf program.now logs.now ends.now (AreCompared
        (gots_by (count_in counts.now) 0 (events_in outcome.now.harts.items) outcome.now.closed.items) said.items)) }
    ensures refused { IfErr result (λ why. IsRefusedLog program.now logs.now ends.now why.0 why.1) }
{
    let mut said = Vec::new(alloc);
    for place in 0..ends.len() {
        let events = match log_at(alloc, program, logs, ends, place) {
            Ok(events) => events,
            Err(why) => return Err(why),
        };
        let decoded = &outcome.harts[place];
        let closed = outcome.closed[place];
        let count = count_at(counts, place);
        let one = explained_of(place, decoded.as_slice(), closed, count, events.as_slice());
        match said.push(one) {
            Ok(()) => {}
            Err(_) => return Err((place as u64, Fault::Memory)),
        }
    }
    Ok(said)
}

/// The count of a hart.
fn count_at(counts: &[HartCount], hart: usize) -> HartCount
    ensures { result ≡ count_in counts.now hart }
{
    match counts.get(hart) {
        Some(count) => *count,
        None => HartCount::NONE,
    }
}

/// What is said of a hart by what was decoded of it and the events of its log.
fn explained_of(
    hart: usize,
    decoded: &[Event],
    closed: bool,
    count: HartCount,
    events: &[Event],
) -> ExplainedHart
    requires { length events.now ≤ most_rows }
    ensures { (program : Image) → result ≡ explained_hart hart (got_by count decoded.now closed)
        (program_log program events.now) }
{
    let mut comparing = Comparing::new();
    comparing.add(decoded, events);
    ExplainedHart {
        line: ComparedHart {
            hart,
            events: comparing.events(),
            taken: count.taken,
            bytes: count.bytes,
            decoded: decoded.len(),
            verdict: comparing.verdict(closed),
        },
        row: comparing.row(),
        near: comparing.near(),
    }
}
