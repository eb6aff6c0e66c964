//! The lines of harts, by their logs.

ghost use Rattle.std.specs.Prelude.{◌^◌, ◌<◌, ◌≡◌, ◌⊎◌, List, Err, IfErr, IfOk, length};
ghost use Rattle.command_inputs.specs.FoundLogs.{AreLegalLogsUpTo};
ghost use Rattle.command_inputs.specs.declared.fault.Fault.TheVariants as Fault;
ghost use Rattle.comparing.specs.Compared.{of_harts};
ghost use Rattle.capture_commands.specs.Comparison.{AreAsMany, rows_of};
ghost use Rattle.capture_commands.specs.steps.Lines.{AreLinesOfLogs};
ghost use Rattle.capture_commands.specs.steps.Surveyed.{AreFound, gots_in};
ghost use Rattle.retire.specs.declared.event.Event.{Event as AnyEvent};
ghost use Rattle.rvclass.specs.Fetch.{words_of};

use crate::input::Input;
use crate::reason::{CaptureReason, Fault};
use crate::surveyed::Surveyed;
use crate::task::AgainstMessages;
use command_inputs::{Compare, begin_progress};
use comparing::ExplainedHart;
use log_streams::{Files, LogsFault, MadeLogs, made_of_logs};
use retire::{MOST_LONG_ROWS, MOST_ROWS};
use std::alloc::Global;
use std::thread::Threads;

/// Refuses a count of logs that is not that of the harts.
pub(crate) fn check_count<'a>(harts: usize, paths: &[&'a str]) -> Result<(), Fault<'a>>
    ensures { AreAsMany harts paths.now result }
{
    if paths.len() == harts {
        return Ok(());
    }
    Err(Fault::Own(CaptureReason::Logs(paths.len(), harts)))
}

/// The most rows of a log: of long ones, if these are asked for, or else of others.
fn rows_of(long: bool) -> u32
    ensures { result ≡ rows_of long }
{
    if long { MOST_LONG_ROWS } else { MOST_ROWS }
}

/// What is said of each hart of an input, by the log that is asked for. The logs are read side by side, and compared as
/// they are read with what their harts' messages decode to. It is shown how far they are read, where that is asked for.
pub(crate) fn lines_of_logs<'a, F: Files + Sync, R: Threads + Sync>(
    alloc: Global,
    rt: &R,
    files: &F,
    asked: &Compare<'a>,
    input: &Input,
    found: &Surveyed,
) -> Result<Vec<ExplainedHart>, Fault<'a>>
where
    F::Reader: Send,
    requires many { length asked.now.logs.items ≡ length (of_harts input.now.only found.now.places.items) }
    requires few { input.now.only.last < 2 ^ 64 }
    ensures lines { IfOk result (λ lines. (lists : List (List AnyEvent))
        → AreFound (words_of input.now.program.now) found.now lists
        → AreLinesOfLogs (rows_of asked.now.long) (F.content files.now) input.now.program.now asked.now.logs.items
        input.now.only.first (gots_in input.now.only lists found.now) lines.items) }
    ensures fault { IfErr result (λ why. (why ≡ Fault.Memory) ⊎ AreLegalLogsUpTo (rows_of asked.now.long)
        (F.content files.now) input.now.program.now asked.now.logs.items (Err why)) }
{
    let program = input.program;
    let paths = asked.logs.as_slice();
    let places = found.places.as_slice();
    let closed = found.closed.as_slice();
    let counts = found.counts.as_slice();
    let task = AgainstMessages {
        alloc,
        first: usize::from(input.only.first),
        program,
        messages: found.messages,
        places,
        closed,
        counts,
    };
    let rows = rows_of(asked.long);
    begin_progress(files, asked.progress, paths);
    let MadeLogs { made, end } = made_of_logs(alloc, rt, files, program, rows, paths, &task);
    files.end_progress();
    match end {
        Ok(()) => Ok(made),
        Err(LogsFault { path, why }) => Err(Fault::of_stop(path, why)),
    }
}
