//! Logs that are all legal.

ghost use Rattle.std.specs.Prelude.{◌≡◌, ◌⊎◌, Err, IfErr, IfOk, Ok, length, vec_len};
ghost use Rattle.command_inputs.specs.FoundLogs.{AreLegalLogs};

use crate::fault::Fault;
use crate::listing::Listing;
use crate::progress::begin_progress;
use legalpath::LegalLog;
use log_streams::{Files, LogsFault, MadeLogs, made_of_logs};
use retire::MOST_ROWS;
use rvclass::Program;
use std::alloc::Global;
use std::thread::Threads;

/// The logs at these paths, in order, where each is legal for the program. Each is checked as it is read, and as many
/// are read side by side as the machine has processors. It is shown how far they are read, where that is asked for.
pub fn legal_logs_of<'a, 'p, W, F: Files + Sync, R: Threads + Sync>(
    alloc: Global,
    rt: &R,
    files: &mut F,
    program: &'p Program,
    paths: &[&'a str],
    progress: bool,
) -> Result<Vec<LegalLog<'p>>, Fault<'a, W>>
where
    F::Reader: Send,
    ensures count { IfOk result (λ logs. vec_len logs ≡ length paths.now) }
    ensures logs { IfOk result
        (λ logs. AreLegalLogs {W = W} (F.content files.old) program.now paths.now (Ok logs.items)) }
    ensures fault { IfErr result
        (λ why. (why ≡ Fault.Memory) ⊎ AreLegalLogs (F.content files.old) program.now paths.now (Err why)) }
    ensures kept { F.content files.new ≡ F.content files.old }
{
    let listing = Listing { program, alloc };
    begin_progress(&*files, progress, paths);
    let MadeLogs { made, end } = made_of_logs(
        alloc, rt, &*files, program, MOST_ROWS, paths, &listing,
    );
    files.end_progress();
    match end {
        Ok(()) => Ok(made),
        Err(LogsFault { path, why }) => Err(Fault::of_stop(path, why)),
    }
}
