//! Logs and events that are checked.

ghost use Rattle.std.specs.Prelude.{◌≤◌, length};
ghost use Rattle.retire.specs.Log.{most_rows};
ghost use Rattle.rvclass.specs.Fetch.{words_of};
ghost use Rattle.ffi.specs.Checked.{IsChecked, IsReported, ReportsCheck};
ghost use Rattle.ffi.specs.EventsChecked.{AreChecked, AreLegal, EndsCheckEvents};
ghost use Rattle.ffi.specs.Images.{OfPieces};

use crate::events::{EventNumbers, event_of};
use crate::fault::Fault;
use crate::images::{ImagePiece, Judged, judge_pieces};
use crate::status::DONE;
use legalpath::{PathCheck, check};
use retire::{LogFault, MOST_ROWS, read_log_from_slice};
use rvclass::ProgramOver;
use std::alloc::Global;

/// Checks that the text of a log is that of a legal log of the program of these pieces.
///
/// The status is [`DONE`] where it is; then `row` is the count of events. Or it says why it is not: what is wrong with
/// the pieces, with the text, or with the log; then `row` is the row that is at fault, counted from 1, or 0. Or it is
/// [`MEMORY`](crate::status::MEMORY).
pub fn tracebench_check(alloc: Global, pieces: &[ImagePiece<'_>], log: &[u8], row: &mut u64) -> u32
    ensures { OfPieces pieces.now (λ image. ReportsCheck image log.now result row.new) }
{
    let judged = judge_pieces(alloc, pieces);
    report_checked(check_log(alloc, &judged, log), row)
}

/// Reports the result of a check.
fn report_checked(checked: Result<u64, Fault>, row: &mut u64) -> u32
    ensures { IsReported checked result row.new }
{
    match checked {
        Ok(count) => {
            *row = count;
            DONE
        }
        Err(fault) => {
            *row = fault.row();
            fault.status()
        }
    }
}

/// How many events a legal log has.
fn check_log(alloc: Global, image: &Judged<'_>, log: &[u8]) -> Result<u64, Fault>
    ensures { IsChecked image.now log.now result }
{
    let program = match image {
        Ok(program) => program,
        Err(why) => return Err(Fault::NoProgram(*why)),
    };
    let events = read_log_from_slice(alloc, alloc, log)?;
    check(program, events.as_slice())?;
    Ok(events.len() as u64)
}

/// Checks that events are a legal log of the program of these pieces.
///
/// The status is [`DONE`] where they are; then `row` is how many there are. Else it says what is wrong with the pieces;
/// or it is [`TOO_MANY_ROWS`] where there are more than 2^24 events; or it is of the first row that is at fault:
/// [`NO_EVENT`] where no event has its numbers, and else why it is illegal. Then `row` is that row, counted from 1; it
/// is 0 where no row is at fault. No memory is taken but for the list of the pieces.
pub fn tracebench_check_events(
    alloc: Global,
    pieces: &[ImagePiece<'_>],
    events: &[EventNumbers],
    row: &mut u64,
) -> u32
    ensures { OfPieces pieces.now (λ image. EndsCheckEvents image events.now result row.new) }
{
    let judged = judge_pieces(alloc, pieces);
    report_checked(check_numbers(&judged, events), row)
}

/// How many events there are, where they are a legal log.
fn check_numbers(image: &Judged<'_>, events: &[EventNumbers]) -> Result<u64, Fault>
    ensures { AreChecked image.now events.now result }
{
    let program = match image {
        Ok(program) => program,
        Err(why) => return Err(Fault::NoProgram(*why)),
    };
    if events.len() > MOST_ROWS as usize {
        return Err(Fault::Log(LogFault::TooLong));
    }
    check_all(program, events)
}

/// Checks events one after the other, up to the first fault.
fn check_all(program: &ProgramOver, events: &[EventNumbers]) -> Result<u64, Fault>
    requires { length events.now ≤ most_rows }
    ensures { AreLegal (words_of program.now) events.now result }
{
    let mut path = PathCheck::new();
    for place in 0..events.len() {
        let event = match event_of(&events[place]) {
            Some(event) => event,
            None => return Err(Fault::NoEvent(place as u64 + 1)),
        };
        match path.pass(program, &[event]) {
            Ok(()) => {}
            Err(fault) => return Err(Fault::Illegal(fault)),
        }
    }
    Ok(events.len() as u64)
}
