//! Runs of the subcommands that read or make logs, with their reasons to stop among those of all.

ghost use Rattle.std.specs.Prelude.{◌≤◌};
ghost use Rattle.commands.specs.Running.{IsRun};
ghost use Rattle.command_inputs.specs.Limits.{IsGenerateWithin};
ghost use Rattle.command_inputs.specs.declared.words.Asked.TheVariants as Asked;

use crate::joining::joined_end;
use crate::reason::Fault;
use command_inputs::{Bench, Check, Encode, Files, Generate, Measure, Replay, Status};
use log_commands::{bench, check, encode, generate, measure, replay};
use std::alloc::Global;
use std::io::Write;
use std::sync::Wait;
use std::thread::Threads;

/// A run of `check`.
pub(crate) fn run_check<'a, F: Files + Sync, O: Write, R: Threads + Sync>(
    alloc: Global,
    rt: &R,
    files: &mut F,
    asked: &Check<'a>,
    out: &mut O,
) -> Result<Status, Fault<'a>>
where
    F::Reader: Send,
    ensures { IsRun (F.content files.old) (Asked.Check asked.now) O.contents result out.old out.new }
{
    joined_end(check(alloc, rt, files, asked, out))
}

/// A run of `encode`.
pub(crate) fn run_encode<'a, F: Files + Sync, O: Write, R: Threads + Sync>(
    alloc: Global,
    rt: &R,
    files: &mut F,
    asked: &Encode<'a>,
    out: &mut O,
) -> Result<Status, Fault<'a>>
where
    F::Reader: Send,
    requires { 1 ≤ asked.now.period }
    ensures { IsRun (F.content files.old) (Asked.Encode asked.now) O.contents result out.old out.new }
{
    joined_end(encode(alloc, rt, files, asked, out))
}

/// A run of `measure`.
pub(crate) fn run_measure<'a, F: Files + Sync, O: Write, R: Threads + Sync>(
    alloc: Global,
    rt: &R,
    files: &mut F,
    asked: &Measure<'a>,
    out: &mut O,
) -> Result<Status, Fault<'a>>
where
    F::Reader: Send,
    requires { 1 ≤ asked.now.period }
    ensures { IsRun (F.content files.old) (Asked.Measure asked.now) O.contents result out.old out.new }
{
    joined_end(measure(alloc, rt, files, asked, out))
}

/// A run of `replay`.
pub(crate) fn run_replay<'a, F: Files + Sync, O: Write, R: Threads + Sync>(
    alloc: Global,
    rt: &R,
    files: &mut F,
    asked: &Replay<'a>,
    out: &mut O,
) -> Result<Status, Fault<'a>>
where
    F::Reader: Send,
    ensures { IsRun (F.content files.old) (Asked.Replay asked.now) O.contents result out.old out.new }
{
    joined_end(replay(alloc, rt, files, asked, out))
}

/// A run of `bench`.
pub(crate) fn run_bench<'a, F: Files + Sync, O: Write, R: Threads + Wait + Sync>(
    alloc: Global,
    rt: &R,
    files: &mut F,
    asked: &Bench<'a>,
    out: &mut O,
) -> Result<Status, Fault<'a>>
where
    F::Reader: Send,
    ensures { IsRun (F.content files.old) (Asked.Bench asked.now) O.contents result out.old out.new }
{
    joined_end(bench(alloc, rt, files, asked, out))
}

/// A run of `generate`. It reads no file.
pub(crate) fn run_generate<'a, F: Files, O: Write>(
    alloc: Global,
    files: &F,
    asked: &Generate<'a>,
    out: &mut O,
) -> Result<Status, Fault<'a>>
    requires { IsGenerateWithin asked.now }
    ensures { IsRun (F.content files.now) (Asked.Generate asked.now) O.contents result out.old out.new }
{
    let _ = files;
    joined_end(generate(alloc, asked, out))
}
