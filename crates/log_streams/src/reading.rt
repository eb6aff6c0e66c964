//! One log, which is read and checked a piece at a time.

ghost use Rattle.std.specs.Prelude.{◌≤◌, ℕ, List, [], IfErr, None, OnOk, length};
ghost use Rattle.retire.specs.Log.{most_long_rows};
ghost use Rattle.std.specs.Io.KnownBytes.{Keeps};
ghost use Rattle.retire.specs.HasRead.{HasRead, content_of};
ghost use Rattle.retire.specs.declared.event.Event.{Event as AnyEvent};
ghost use Rattle.rvclass.specs.Fetch.{words_of};
ghost use Rattle.log_streams.specs.Illegal.{IsIllegalRow};
ghost use Rattle.log_streams.specs.Refusing.{MayStop};
ghost use Rattle.log_streams.specs.steps.Judging.{HasJudged};
ghost use Rattle.log_streams.specs.steps.Reading.{IsFinished, IsMadeOfSource, IsNotRead, IsReadOn};

use crate::illegal_row::IllegalRow;
use crate::judging::{Judging, judge_piece};
use crate::stop::Stop;
use crate::task::LogTask;
use legalpath::PathCheck;
use retire::{Event, LogFault, LogReader, Source};
use rvclass::ProgramOver;
use std::alloc::AllocError;

/// Reads a log to its end.
fn read_on<S: Source>(reader: &mut LogReader<S>, piece: &mut Vec<Event>) -> Result<(), LogFault>
    ensures read { (most : ℕ) (seen : List AnyEvent) → HasRead S.given S.left most seen reader.old
        → OnOk result (IsReadOn S.given S.left most reader.new seen) }
    ensures fault { (most : ℕ) (seen : List AnyEvent) → HasRead S.given S.left most seen reader.old
        → IfErr result (IsNotRead S.given S.left most reader.new) }
    ensures kept { Keeps (content_of S.given S.left reader.old) (content_of S.given S.left reader.new) }
{
    for _ in 0..u64::MAX {
        piece.clear();
        match reader.next(piece) {
            Ok(true) => {}
            Ok(false) => return Ok(()),
            Err(fault) => return Err(fault),
        }
    }
    Err(LogFault::Memory)
}

/// Reads an illegal log to its end, since a fault of a later row is named before, and makes something of it.
fn made_of_illegal<S: Source, X, T: LogTask<X>>(
    program: &ProgramOver,
    task: &T,
    row: IllegalRow,
    reader: &mut LogReader<S>,
    piece: &mut Vec<Event>,
) -> Result<X, Stop>
    ensures made { (most hart : ℕ) (seen : List AnyEvent) → HasRead S.given S.left most seen reader.old
        → IsIllegalRow (words_of program.now) seen row
        → IsMadeOfSource (T.Makes task.now program.now) (T.MakesOfIllegal task.now program.now) program.now most
        hart S.given S.left reader.new result }
    ensures refused { IfErr result (MayStop (T.MayRefuse task.now)) }
    ensures kept { Keeps (content_of S.given S.left reader.old) (content_of S.given S.left reader.new) }
{
    if let Err(fault) = read_on(reader, piece) {
        return Err(Stop::Unread(fault));
    }
    match task.refuse(program, row) {
        Ok(made) => Ok(made),
        Err(fault) => Err(Stop::Illegal(fault)),
    }
}

/// Makes something of a legal log, all of whose events are checked.
fn finished<X, T: LogTask<X>>(
    program: &ProgramOver,
    task: &T,
    judged: Judging<T::State>,
) -> Result<X, Stop>
    ensures finished { (most hart : ℕ) (seen : List AnyEvent) → most ≤ most_long_rows
        → HasJudged (T.Keeps task.now program.now hart) program.now seen judged → length seen ≤ most
        → IsFinished (T.Makes task.now program.now) program.now most hart seen result }
    ensures refused { IfErr result (MayStop (T.MayRefuse task.now)) }
{
    // This is called for its contract: the bytes of a program are an image.
    let _ = program.byte_count();
    let Judging { state, .. } = judged;
    match task.finish(program, state) {
        Ok(made) => Ok(made),
        Err(AllocError) => Err(Stop::Unread(LogFault::Memory)),
    }
}

/// Reads a log of which nothing is read yet, checks it with the program, and makes something of it.
pub(crate) fn made_of<S: Source, X, T: LogTask<X>>(
    program: &ProgramOver,
    most: u32,
    task: &T,
    hart: usize,
    reader: &mut LogReader<S>,
    piece: &mut Vec<Event>,
) -> Result<X, Stop>
    requires { HasRead S.given S.left most [] reader.old }
    ensures made { IsMadeOfSource (T.Makes task.now program.now) (T.MakesOfIllegal task.now program.now) program.now
        most hart S.given S.left reader.new result }
    ensures refused { IfErr result (MayStop (T.MayRefuse task.now)) }
    ensures kept { Keeps (content_of S.given S.left reader.old) (content_of S.given S.left reader.new) }
{
    let Ok(state) = task.begin(program, hart) else {
        return Err(Stop::Unread(LogFault::Memory));
    };
    let mut judging = Judging {
        check: PathCheck::new(),
        state,
        before: None,
    };
    for _ in 0..u64::MAX {
        piece.clear();
        match reader.next(piece) {
            Ok(true) => {}
            Ok(false) => return finished(program, task, judging),
            Err(fault) => return Err(Stop::Unread(fault)),
        }
        match judge_piece(program, task, &mut judging, piece) {
            Ok(None) => {}
            Ok(Some(row)) => return made_of_illegal(program, task, row, reader, piece),
            Err(AllocError) => return Err(Stop::Unread(LogFault::Memory)),
        }
    }
    Err(Stop::Unread(LogFault::Memory))
}
