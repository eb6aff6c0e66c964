//! One run of the program.

ghost use Rattle.std.specs.Prelude.{◌≡◌, ◌⊎◌, ◌≤◌, Err, map, string_bytes};
ghost use Rattle.cli.specs.Asking.{AreRefused, AskToWriteAtOnce};
ghost use Rattle.command_inputs.specs.declared.fault.Fault.TheVariants as Fault;
ghost use Rattle.command_inputs.specs.Kind.{WritesAsItReads};
ghost use Rattle.command_inputs.specs.Limits.{IsWithinLimits};
ghost use Rattle.commands.specs.Words.{AreCarriedOut, IsDone, ReportsFault};

use crate::words_fault::report_words_error;
use crate::{Files, Status, carry_out, report_error};
use cli::asked;
use command_inputs::Asked;
use std::alloc::Global;
use std::io::Write;
use std::sync::Wait;
use std::thread::Threads;

/// Does what the arguments ask for, and returns the exit status. The first argument is the program's name. The status
/// is 0 where all is done; 1 where a capture is not good or a log does not come back complete; 2 where the arguments,
/// the base, the count of logs or harts, the image, the symbols, a log, the schedule or a line is refused or a log is
/// illegal; and 3 where a file is not read, the output is not written, allocation fails or there is a stop of `replay`
/// or `bench`.
///
/// The first fault is reported on `err`, in the order arguments, base, count of logs or harts, image, symbols, each log
/// in turn, schedule, capture or lines. It has one line there, or `clap`'s own text where the arguments are at fault.
/// Where a write to `err` fails, the status stays the same. Illegal logs are no fault of `check`, which has a line for
/// each log on `out`. A subcommand that reads several logs checks them in threads. `bench` sends each log from a
/// thread. Both wait for their threads.
pub fn command<F: Files + Sync, O: Write, E: Write, R: Threads + Wait + Sync>(
    alloc: Global,
    rt: &R,
    files: &mut F,
    words: &[String],
    out: &mut O,
    err: &mut E,
) -> u8
where
    F::Reader: Send,
    ensures statuses { result ≤ 3 }
    // Where `clap` refuses the arguments, nothing is written to `out`, and the status is 2, or 3 where allocation
    // fails.
    ensures words { AreRefused (map string_bytes words.now) → (out.new ≡ out.old) × ((result ≡ 2)
        ⊎ ((result ≡ 3) × ReportsFault E.contents (Err Fault.Memory) err.old err.new)) }
    // Where the input is refused, nothing is written, but by `check`, by `audit` while messages come and by `capture` of
    // lines as they come.
    ensures refused { AskToWriteAtOnce (map string_bytes words.now) → result ≡ 2 → out.new ≡ out.old }
    // Where all is done, nothing is written to `err`.
    ensures quiet { result ≡ 0 → err.new ≡ err.old }
    // Where `clap` does not refuse the arguments, what they ask for is carried out on what is known of the files,
    // unless allocation for the arguments themselves fails.
    ensures printed { AreRefused (map string_bytes words.now)
        ⊎ (((result ≡ 3) × (out.new ≡ out.old) × ReportsFault E.contents (Err Fault.Memory) err.old err.new)
        ⊎ AreCarriedOut (F.content files.old) (map string_bytes words.now) result (O.contents out.old)
        (O.contents out.new)
        E.contents err.old err.new) }
{
    let status = match asked(alloc, words) {
        Ok(asked) => run(alloc, rt, files, asked, out, err),
        Err(error) => report_words_error(err, &error),
    };
    status.code()
}

/// Carries out what is asked, and reports the fault that ends it.
fn run<F: Files + Sync, O: Write, E: Write, R: Threads + Wait + Sync>(
    alloc: Global,
    rt: &R,
    files: &mut F,
    asked: Asked<'_>,
    out: &mut O,
    err: &mut E,
) -> Status
where
    F::Reader: Send,
    requires { IsWithinLimits asked }
    ensures quiet { result ≡ Status.Whole → err.new ≡ err.old }
    ensures refused { ¬ WritesAsItReads asked.entry → result ≡ Status.Refused → out.new ≡ out.old }
    ensures done { IsDone (F.content files.old) asked.entry result (O.contents out.old) (O.contents out.new)
        E.contents err.old err.new }
{
    let ended = carry_out(alloc, rt, files, &asked, out);
    // Each subcommand has other arguments: dropped here, they part no way to the end.
    drop(asked);
    match ended {
        Ok(status) => status,
        Err(fault) => report_error(err, &fault),
    }
}
