//! Logs that are read side by side.

ghost use Rattle.std.specs.Prelude.{◌≡◌, [], Ok, Some, IfErr, length, slice_get};
ghost use Rattle.log_streams.specs.Made.{AreMade, AreMadeOfGiven};
ghost use Rattle.log_streams.specs.Refusing.{MayStop};
ghost use Rattle.log_streams.specs.declared.stop.Stop.TheVariants as stop;

use crate::Files;
use crate::in_order::{by_place, take_made};
use crate::logs_fault::LogsFault;
use crate::made::MadeLogs;
use crate::places::places_of;
use crate::stop::Stop;
use crate::task::LogTask;
use crate::work::Work;
use crate::worker::entries_of;
use retire::LogFault;
use rvclass::ProgramOver;
use side_by_side::processors;
use std::alloc::Global;
use std::sync::atomic::AtomicUsize;
use std::thread::Threads;

/// What a task makes of the logs at these paths, in order.
pub fn made_of_logs<'a, F: Files + Sync, R: Threads + Sync, X: Send + Drop, T: LogTask<X> + Sync>(
    alloc: Global,
    rt: &R,
    files: &F,
    program: &ProgramOver,
    most: u32,
    paths: &[&'a str],
    task: &T,
) -> MadeLogs<'a, X>
where
    F::Reader: Send,
    T::State: Send,
    ensures made { AreMade (T.Makes task.now program.now) (T.MakesOfIllegal task.now program.now) (F.content files.now)
        program.now most paths.now result.made.items result.end }
    // Also of files of which nothing is known, the logs are those that calls gave.
    ensures given { AreMadeOfGiven (T.Makes task.now program.now) (T.MakesOfIllegal task.now program.now)
        (F.Gives files.now) program.now most paths.now result.made.items result.end }
    ensures refused { IfErr result.end (λ fault. MayStop (T.MayRefuse task.now) fault.why) }
{
    let Ok(places) = places_of(alloc, files, paths) else {
        return none_made(alloc, paths);
    };
    let taken = AtomicUsize::new(0);
    let end = AtomicUsize::new(paths.len());
    let work = Work {
        alloc,
        files,
        program,
        most,
        task,
        paths,
        places: &places,
        taken: &taken,
        end: &end,
    };
    let threads = processors(rt).min(places.regular.len());
    let entries = entries_of(rt, &work, threads);
    let Ok(all) = by_place(alloc, &work, paths.len(), entries) else {
        return none_made(alloc, paths);
    };
    let mut made = Vec::new(alloc);
    match take_made(all, &mut made) {
        Ok(()) => MadeLogs { made, end: Ok(()) },
        Err(why) => {
            let path = paths[made.len()];
            MadeLogs {
                made,
                end: Err(LogsFault { path, why }),
            }
        }
    }
}

/// Nothing, since an allocation failed.
fn none_made<'a, X: Drop>(alloc: Global, paths: &[&'a str]) -> MadeLogs<'a, X>
    ensures none { result.made.items ≡ [] }
    ensures all { result.end ≡ Ok tt → length paths.now ≡ 0 }
    ensures fault { IfErr result.end
        (λ fault. (slice_get paths.now 0 ≡ Some fault.path) × (fault.why ≡ stop.Unread LogFault.Memory)) }
{
    let made = Vec::new(alloc);
    let end = match paths.first() {
        None => Ok(()),
        Some(path) => Err(LogsFault {
            path,
            why: Stop::Unread(LogFault::Memory),
        }),
    };
    MadeLogs { made, end }
}
