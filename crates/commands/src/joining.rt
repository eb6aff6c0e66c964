//! Reasons of some subcommands among those of all.

ghost use Rattle.std.specs.Prelude.{◌≡◌, Err, refl};
ghost use Rattle.command_inputs.specs.Faults as inputs;
ghost use Rattle.command_inputs.specs.declared.fault.Fault.TheVariants as Fault;
ghost use Rattle.commands.specs.Faults.{command_reason_status, final_status};
ghost use Rattle.commands.specs.Joined.{joined_end};
ghost use Rattle.commands.specs.declared.reason.CommandReason.{CommandReason as AnyReason};
ghost use Rattle.commands.specs.declared.reason.CommandReason.TheVariants as reason;

use crate::reason::{CommandReason, Fault};
use capture_commands::CaptureReason;
use command_inputs::{Fault as AnyFault, Reason, Status};
use log_commands::LogReason;
use path_commands::{LineReason, PathReason};

/// The reasons of some subcommands, which are among those of all.
pub(crate) trait Family<'a>: Reason {
    ghost joined: { Self → AnyReason };

    /// The reason among those of all subcommands.
    fn joined(self) -> CommandReason<'a>
        ensures { result ≡ joined self };

    // Its status stays the same.
    ghost same: { (why : Self) → command_reason_status (joined why) ≡ Self.status why };
}

impl<'a> Family<'a> for LogReason {
    ghost joined = { λ why. reason.Log why };

    fn joined(self) -> CommandReason<'a> {
        CommandReason::Log(self)
    }

    ghost same = { λ why. refl };
}

impl<'a> Family<'a> for CaptureReason {
    ghost joined = { λ why. reason.Capture why };

    fn joined(self) -> CommandReason<'a> {
        CommandReason::Capture(self)
    }

    ghost same = { λ why. refl };
}

impl<'a> Family<'a> for PathReason<'a> {
    ghost joined = { λ why. reason.Path why };

    fn joined(self) -> CommandReason<'a> {
        CommandReason::Path(self)
    }

    ghost same = { λ why. refl };
}

impl<'a> Family<'a> for LineReason<'a> {
    ghost joined = { λ why. reason.Line why };

    fn joined(self) -> CommandReason<'a> {
        CommandReason::Line(self)
    }

    ghost same = { λ why. refl };
}

/// The same end of a run, with its reason among those of all subcommands.
pub(crate) fn joined_end<'a, W: Family<'a>>(
    ended: Result<Status, AnyFault<'a, W>>,
) -> Result<Status, Fault<'a>>
    ensures value { result ≡ joined_end W.joined ended.entry }
    ensures status { final_status result ≡ inputs.final_status W.status ended.entry }
    ensures memory { result ≡ Err Fault.Memory → ended.entry ≡ Err Fault.Memory }
{
    match ended {
        Ok(status) => Ok(status),
        Err(why) => Err(joined_fault(why)),
    }
}

/// The same fault, with its reason among those of all subcommands.
fn joined_fault<'a, W: Family<'a>>(why: AnyFault<'a, W>) -> Fault<'a>
    ensures { result ≡ inputs.map_own W.joined why.entry }
{
    match why {
        AnyFault::Format => AnyFault::Format,
        AnyFault::Base => AnyFault::Base,
        AnyFault::Only => AnyFault::Only,
        AnyFault::NoLogs => AnyFault::NoLogs,
        AnyFault::ManyLogs(most) => AnyFault::ManyLogs(most),
        AnyFault::Unreadable(path) => AnyFault::Unreadable(path),
        AnyFault::Image(why) => AnyFault::Image(why),
        AnyFault::Piece(path, why) => AnyFault::Piece(path, why),
        AnyFault::Log(path, why) => AnyFault::Log(path, why),
        AnyFault::Illegal(path, why) => AnyFault::Illegal(path, why),
        AnyFault::Symbols(path, why) => AnyFault::Symbols(path, why),
        AnyFault::Own(why) => AnyFault::Own(why.joined()),
        AnyFault::Output => AnyFault::Output,
        AnyFault::Memory => AnyFault::Memory,
    }
}
