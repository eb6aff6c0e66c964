//! Checking the events of a piece.

ghost use Rattle.std.specs.Prelude.{◌≡◌, ◌≤◌, ◌++◌, ℕ, List, Ok, IfOk, IfSome, None, length, slice_get};
ghost use Rattle.std.specs.List.{last_or};
ghost use Rattle.legalpath.specs.FirstFault.{IsFirstFault};
ghost use Rattle.retire.specs.Log.{most_long_rows};
ghost use Rattle.retire.specs.declared.event.Event.{Event as AnyEvent};
ghost use Rattle.rvclass.specs.Fetch.{words_of};
ghost use Rattle.rvclass.specs.Words.{Words};
ghost use Rattle.log_streams.specs.Illegal.{IsIllegalRow};
ghost use Rattle.log_streams.specs.steps.Judging.{HasJudged, IsJudged, MayJudge, before_at};

use crate::illegal_row::IllegalRow;
use crate::task::LogTask;
use legalpath::{PathCheck, PathFault};
use retire::Event;
use rvclass::ProgramOver;
use std::alloc::AllocError;

/// What is kept of the events of a log that were checked.
#[derive(Drop)]
pub(crate) struct Judging<K> {
    pub(crate) check: PathCheck,
    /// What the task keeps.
    pub(crate) state: K,
    /// The last event, if there was one.
    pub(crate) before: Option<Event>,
}

/// The event at a place of a piece.
fn event_at(piece: &[Event], place: usize) -> Option<Event>
    ensures { result ≡ slice_get piece.now place }
{
    piece.get(place).copied()
}

/// The event before the one at a place of a piece, which comes after the event `before`, if there is one.
fn event_before(before: Option<Event>, piece: &[Event], place: usize) -> Option<Event>
    ensures { result ≡ before_at before piece.now place }
{
    if place == 0 {
        return before;
    }
    event_at(piece, place - 1)
}

/// The first illegal row of a log, which is in this piece. The event before the piece is `before`, and so many rows are
/// before it.
fn illegal_row(
    before: Option<Event>,
    rows: u32,
    piece: &[Event],
    fault: PathFault,
) -> Option<IllegalRow>
    ensures { (words : Words) (seen : List AnyEvent) → before ≡ last_or None seen → rows ≡ length seen
        → IsFirstFault words (seen ++ piece.now) fault
        → IfSome result (IsIllegalRow words (seen ++ piece.now)) }
{
    if fault.row <= rows {
        return None;
    }
    let place = (fault.row - rows - 1) as usize;
    let Some(event) = event_at(piece, place) else {
        return None;
    };
    Some(IllegalRow {
        fault,
        before: event_before(before, piece, place),
        event,
    })
}

/// The last event of a piece, or else the one before the piece.
fn last_event(before: Option<Event>, piece: &[Event]) -> Option<Event>
    ensures { result ≡ last_or before piece.now }
{
    match piece.last() {
        Some(last) => Some(*last),
        None => before,
    }
}

/// Checks the events of a piece, and adds them to what the task keeps. It returns the first illegal row of the log, if
/// that is in the piece.
pub(crate) fn judge_piece<X, T: LogTask<X>>(
    program: &ProgramOver,
    task: &T,
    judging: &mut Judging<T::State>,
    piece: &[Event],
) -> Result<Option<IllegalRow>, AllocError>
    requires { MayJudge (T.Keeps task.now program.now) program.now judging.old piece.now }
    ensures { (hart : ℕ) (seen : List AnyEvent)
        → HasJudged (T.Keeps task.now program.now hart) program.now seen judging.old
        → length (seen ++ piece.now) ≤ most_long_rows
        → IfOk result (IsJudged (T.Keeps task.now program.now hart) program.now (seen ++ piece.now) judging.new) }
{
    // This is called for its contract: the bytes of a program are an image.
    let _ = program.byte_count();
    let rows = judging.check.rows();
    if let Err(fault) = judging.check.pass(program, piece) {
        return match illegal_row(judging.before, rows, piece, fault) {
            Some(row) => Ok(Some(row)),
            None => Err(AllocError),
        };
    }
    task.add(program, &mut judging.state, piece)?;
    judging.before = last_event(judging.before, piece);
    Ok(None)
}
