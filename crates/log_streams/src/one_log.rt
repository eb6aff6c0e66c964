//! The log at a path.

ghost use Rattle.std.specs.Prelude.{◌≡◌, IfErr, None, true};
ghost use Rattle.log_streams.specs.Gave.{First, Gave, IsGiven, Whole};
ghost use Rattle.log_streams.specs.Made.{IsMadeOf, IsMadeOfGiven};
ghost use Rattle.log_streams.specs.Refusing.{MayStop};
ghost use Rattle.log_streams.specs.steps.Confirmed.{IsConfirmedBy};

use crate::file_at::FileAt;
use crate::reading::made_of;
use crate::stop::Stop;
use crate::task::LogTask;
use crate::watched::{Origin, Watched};
use crate::{FileFault, Files};
use retire::{LogFault, LogReader, PieceBuffer, Source};
use rvclass::ProgramOver;
use std::alloc::Global;
use std::marker::Brand;

/// Whether the file says so too: it has ended, where the log was read to its end, and it failed, where that is why
/// nothing is made of the log.
fn is_confirmed<'w, O: Origin, F: Files, X>(
    found: &Result<X, Stop>,
    file: &Watched<'w, O, F>,
) -> bool
    ensures first { IsGiven O.Gives (First (⟦<Watched<'w, O, F> as Source>⟧.given file.now)) }
    ensures confirmed { result ≡ true → IsConfirmedBy
        (IsGiven O.Gives (Whole (⟦<Watched<'w, O, F> as Source>⟧.given file.now)))
        (⟦<Watched<'w, O, F> as Source>⟧.left file.now ≡ None) found.now }
{
    let has_ended = file.has_ended();
    match found {
        Ok(_) | Err(Stop::Illegal(_)) => has_ended,
        Err(Stop::Unread(LogFault::Read)) => file.has_failed(),
        Err(Stop::Unread(_)) => true,
    }
}

/// What a task makes of the log of a hart, which is in a file. The memory of a piece is taken before the file is opened.
fn made_at<O: Origin, F: Files, X: Drop, T: LogTask<X>>(
    alloc: Global,
    at: FileAt<'_, F>,
    program: &ProgramOver,
    most: u32,
    task: &T,
    hart: usize,
) -> Result<X, Stop>
    requires { (gave : Gave) → F.Gives at.files.now at.path.now gave → IsGiven O.Gives gave }
    ensures made { IsMadeOf (T.Makes task.now program.now) (T.MakesOfIllegal task.now program.now)
        (F.content at.entry.files.now at.entry.path.now) program.now most hart result }
    ensures given { IsMadeOfGiven (T.Makes task.now program.now) (T.MakesOfIllegal task.now program.now) O.Gives
        program.now most hart result }
    ensures refused { IfErr result (MayStop (T.MayRefuse task.now)) }
{
    let buffer = match PieceBuffer::new(alloc) {
        Ok(buffer) => buffer,
        Err(_) => return Err(Stop::Unread(LogFault::Memory)),
    };
    let file = match at.files.open_file(at.path) {
        Ok(file) => file,
        Err(FileFault::CannotRead) => return Err(Stop::Unread(LogFault::Read)),
        Err(FileFault::Memory) => return Err(Stop::Unread(LogFault::Memory)),
    };
    let watched: Watched<'_, O, F> = Watched::new(at, file);
    let mut reader = LogReader::new(buffer, alloc, most, watched);
    let mut piece = Vec::new(alloc);
    let found = made_of(program, most, task, hart, &mut reader, &mut piece);
    if is_confirmed(&found, reader.source()) {
        return found;
    }
    // The file says otherwise, so an allocation failed.
    Err(Stop::Unread(LogFault::Memory))
}

/// What a task makes of the log of a hart, which is in the file at this path.
pub(crate) fn made_of_file<F: Files, X: Drop, T: LogTask<X>>(
    alloc: Global,
    at: FileAt<'_, F>,
    program: &ProgramOver,
    most: u32,
    task: &T,
    hart: usize,
) -> Result<X, Stop>
    ensures made { IsMadeOf (T.Makes task.now program.now) (T.MakesOfIllegal task.now program.now)
        (F.content at.entry.files.now at.entry.path.now) program.now most hart result }
    ensures given { IsMadeOfGiven (T.Makes task.now program.now) (T.MakesOfIllegal task.now program.now)
        (F.Gives at.entry.files.now at.entry.path.now) program.now most hart result }
    ensures refused { IfErr result (MayStop (T.MayRefuse task.now)) }
{
    made_at::<Brand, F, X, T>(alloc, at, program, most, task, hart)
}
