//! Runs of the subcommands that read captures, with their reasons to stop among those of all.

ghost use Rattle.commands.specs.Running.{IsRun};
ghost use Rattle.command_inputs.specs.declared.words.Asked.TheVariants as Asked;

use crate::joining::joined_end;
use crate::reason::Fault;
use capture_commands::{compare, decode, dump, list, salvage};
use command_inputs::{Audit, Compare, Decode, Dump, Files, Listing, Salvage, Status};
use path_commands::audit;
use std::alloc::Global;
use std::io::Write;
use std::thread::Threads;

/// A run of `dump`.
pub(crate) fn run_dump<'a, F: Files, O: Write>(
    alloc: Global,
    files: &mut F,
    asked: &Dump<'a>,
    out: &mut O,
) -> Result<Status, Fault<'a>>
    ensures { IsRun (F.content files.old) (Asked.Dump asked.now) O.contents result out.old out.new }
{
    joined_end(dump(alloc, files, asked, out))
}

/// A run of `decode`.
pub(crate) fn run_decode<'a, F: Files, O: Write, R: Threads + Sync>(
    alloc: Global,
    rt: &R,
    files: &mut F,
    asked: &Decode<'a>,
    out: &mut O,
) -> Result<Status, Fault<'a>>
    ensures { IsRun (F.content files.old) (Asked.Decode asked.now) O.contents result out.old out.new }
{
    joined_end(decode(alloc, rt, files, asked, out))
}

/// A run of `list`.
pub(crate) fn run_list<'a, F: Files, O: Write>(
    alloc: Global,
    files: &mut F,
    asked: &Listing<'a>,
    out: &mut O,
) -> Result<Status, Fault<'a>>
    ensures { IsRun (F.content files.old) (Asked.Listing asked.now) O.contents result out.old out.new }
{
    joined_end(list(alloc, files, asked, out))
}

/// A run of `salvage`.
pub(crate) fn run_salvage<'a, F: Files, O: Write>(
    alloc: Global,
    files: &mut F,
    asked: &Salvage<'a>,
    out: &mut O,
) -> Result<Status, Fault<'a>>
    ensures { IsRun (F.content files.old) (Asked.Salvage asked.now) O.contents result out.old out.new }
{
    joined_end(salvage(alloc, files, asked, out))
}

/// A run of `audit`.
pub(crate) fn run_audit<'a, F: Files, O: Write>(
    alloc: Global,
    files: &mut F,
    asked: &Audit<'a>,
    out: &mut O,
) -> Result<Status, Fault<'a>>
    ensures { IsRun (F.content files.old) (Asked.Audit asked.now) O.contents result out.old out.new }
{
    joined_end(audit(alloc, files, asked, out))
}

/// A run of `compare`.
pub(crate) fn run_compare<'a, F: Files + Sync, O: Write, R: Threads + Sync>(
    alloc: Global,
    rt: &R,
    files: &mut F,
    asked: &Compare<'a>,
    out: &mut O,
) -> Result<Status, Fault<'a>>
where
    F::Reader: Send,
    ensures { IsRun (F.content files.old) (Asked.Compare asked.now) O.contents result out.old out.new }
{
    joined_end(compare(alloc, rt, files, asked, out))
}
