//! The run of the subcommand that reads lines, with its reasons to stop among those of all.

ghost use Rattle.std.specs.Prelude.{◌≤◌};
ghost use Rattle.commands.specs.Running.{IsRun};
ghost use Rattle.command_inputs.specs.Limits.{AreBitsIfGiven, IsCountIfGiven};
ghost use Rattle.command_inputs.specs.declared.words.Asked.TheVariants as Asked;

use crate::joining::joined_end;
use crate::reason::Fault;
use command_inputs::{Capture, Files, Status};
use path_commands::capture;
use std::alloc::Global;
use std::io::Write;

/// A run of `capture`.
pub(crate) fn run_capture<'a, F: Files, O: Write>(
    alloc: Global,
    files: &mut F,
    asked: &Capture<'a>,
    out: &mut O,
) -> Result<Status, Fault<'a>>
    requires period { 1 ≤ asked.now.period }
    requires harts { IsCountIfGiven asked.now.harts }
    requires bits { AreBitsIfGiven asked.now.number_bits }
    ensures { IsRun (F.content files.old) (Asked.Capture asked.now) O.contents result out.old out.new }
{
    joined_end(capture(alloc, files, asked, out))
}
