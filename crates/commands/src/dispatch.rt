//! Whichever subcommand is asked for.

ghost use Rattle.command_inputs.specs.Limits.{IsWithinLimits};
ghost use Rattle.commands.specs.Running.{IsRun};

use crate::capture_runs::{run_audit, run_compare, run_decode, run_dump, run_list, run_salvage};
use crate::line_runs::run_capture;
use crate::log_runs::{run_bench, run_check, run_encode, run_generate, run_measure, run_replay};
use crate::reason::Fault;
use command_inputs::{Asked, Files, Status};
use std::alloc::Global;
use std::io::Write;
use std::sync::Wait;
use std::thread::Threads;

/// Does what is asked, and returns how that ended: with a status, or at the first fault in the order base, bases of
/// further pieces, count of logs or harts, image, further pieces, symbols, each log in turn, schedule, capture or
/// lines; of `compare` bases, harts that are asked for, image, further pieces, capture and whether it has one of these
/// harts, count of logs, each log in turn; of `generate` what is made, mix, options that do not go with it, base, count
/// of harts, image.
///
/// Illegal logs are no fault of `check`, which has a line for each log on `out`.
pub fn carry_out<'a, F: Files + Sync, O: Write, R: Threads + Wait + Sync>(
    alloc: Global,
    rt: &R,
    files: &mut F,
    asked: &Asked<'a>,
    out: &mut O,
) -> Result<Status, Fault<'a>>
where
    F::Reader: Send,
    requires { IsWithinLimits asked.now }
    ensures { IsRun (F.content files.old) asked.now O.contents result out.old out.new }
{
    match asked {
        Asked::Check(asked) => run_check(alloc, rt, files, asked, out),
        Asked::Encode(asked) => run_encode(alloc, rt, files, asked, out),
        Asked::Dump(asked) => run_dump(alloc, files, asked, out),
        Asked::Decode(asked) => run_decode(alloc, rt, files, asked, out),
        Asked::Replay(asked) => run_replay(alloc, rt, files, asked, out),
        Asked::Bench(asked) => run_bench(alloc, rt, files, asked, out),
        Asked::Audit(asked) => run_audit(alloc, files, asked, out),
        Asked::Measure(asked) => run_measure(alloc, rt, files, asked, out),
        Asked::Listing(asked) => run_list(alloc, files, asked, out),
        Asked::Salvage(asked) => run_salvage(alloc, files, asked, out),
        Asked::Capture(asked) => run_capture(alloc, files, asked, out),
        Asked::Compare(asked) => run_compare(alloc, rt, files, asked, out),
        Asked::Generate(asked) => run_generate(alloc, &*files, asked, out),
    }
}
