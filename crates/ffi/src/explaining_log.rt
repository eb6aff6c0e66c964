//! Why a log is illegal, as text.

ghost use Rattle.std.specs.Prelude.{◌≤◌, IfOk, length};
ghost use Rattle.retire.specs.Log.{most_rows};
ghost use Rattle.ffi.specs.Explained.{IsExplained, ReportsExplain};
ghost use Rattle.ffi.specs.Images.{OfPieces};
ghost use Rattle.ffi.specs.steps.Explaining.{IsExplainedOf};

use crate::fault::{Fault, why_status};
use crate::handing::hand_out;
use crate::images::{ImagePiece, Judged, judge_pieces};
use crate::status::DONE;
use explaining::explain;
use legalpath::check;
use retire::{Event, WriteFault, read_log_from_slice};
use rvclass::ProgramOver;
use std::alloc::Global;
use symbols::Symbols;

/// How a log ends.
#[repr(C)]
#[derive(Clone, Copy)]
pub struct ExplainEnd {
    /// The row that is at fault, counted from 1, or 0; where none is, how many events there are.
    pub row: u64,
    /// Why it is at fault, as a status; 0 where none is.
    pub fault: u32,
}

/// What explains the first illegal row of a log, and how the log ends.
#[derive(Drop)]
pub struct Explained {
    /// The lines. There are none where the log is legal.
    pub text: Vec<u8>,
    /// How the log ends.
    pub end: ExplainEnd,
}

/// Writes the lines that explain the first illegal row of a log to a buffer, as `tracebench check --explain` prints them
/// below the line of the log. They say what is at the row, or at the row before, and what may be there. Where the log is
/// legal, there are none.
///
/// The status is [`DONE`], or [`TOO_SMALL`](crate::status::TOO_SMALL), and `ended` has the row and why it is illegal. Or
/// it is [`MEMORY`](crate::status::MEMORY), or says what is wrong with the pieces or with the text; then that is in
/// `ended` too, with the row that is at fault, and nothing else is written.
pub fn tracebench_explain(
    alloc: Global,
    pieces: &[ImagePiece<'_>],
    log: &[u8],
    buffer: &mut [u8],
    wanted: &mut u64,
    ended: &mut ExplainEnd,
) -> u32
    ensures { OfPieces pieces.now (λ image. ReportsExplain image log.now result wanted.old wanted.new ended.new
        buffer.old buffer.new) }
{
    let judged = judge_pieces(alloc, pieces);
    report_explain(alloc, &judged, log, buffer, wanted, ended)
}

/// Explains a log, and reports the result.
fn report_explain(
    alloc: Global,
    image: &Judged<'_>,
    log: &[u8],
    buffer: &mut [u8],
    wanted: &mut u64,
    ended: &mut ExplainEnd,
) -> u32
    ensures { ReportsExplain image.now log.now result wanted.old wanted.new ended.new buffer.old buffer.new }
{
    match explain_log(alloc, image, log) {
        Ok(explained) => {
            *ended = explained.end;
            hand_out(explained.text.as_slice(), buffer, wanted)
        }
        Err(fault) => {
            let status = fault.status();
            *ended = ExplainEnd {
                row: fault.row(),
                fault: status,
            };
            status
        }
    }
}

/// What explains the first illegal row of a log.
fn explain_log(alloc: Global, image: &Judged<'_>, log: &[u8]) -> Result<Explained, Fault>
    ensures { IsExplained image.now log.now result }
{
    let program = match image {
        Ok(program) => program,
        Err(why) => return Err(Fault::NoProgram(*why)),
    };
    let events = match read_log_from_slice(alloc, alloc, log) {
        Ok(events) => events,
        Err(why) => return Err(Fault::Log(why)),
    };
    match explain_events(alloc, program, events.as_slice()) {
        Ok(explained) => Ok(explained),
        Err(_) => Err(Fault::Memory),
    }
}

/// What explains the first illegal row of these events.
fn explain_events(
    alloc: Global,
    program: &ProgramOver<'_>,
    events: &[Event],
) -> Result<Explained, WriteFault>
    requires { length events.now ≤ most_rows }
    ensures { IfOk result (IsExplainedOf program.now events.now) }
{
    let mut text = Vec::new(alloc);
    match check(program, events) {
        Ok(()) => {
            let end = ExplainEnd {
                row: events.len() as u64,
                fault: DONE,
            };
            Ok(Explained { text, end })
        }
        Err(fault) => {
            explain(program, events, fault, None::<&Symbols>, &mut text)?;
            let end = ExplainEnd {
                row: u64::from(fault.row),
                fault: why_status(fault.why),
            };
            Ok(Explained { text, end })
        }
    }
}
