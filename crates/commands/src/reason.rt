//! What the program stops at, whichever subcommand it carries out.

ghost use Rattle.std.specs.Prelude.{◌≡◌, Some, refl};
ghost use Rattle.commands.specs.FaultText.{command_reason_text};
ghost use Rattle.commands.specs.Faults.{command_reason_status};

use capture_commands::CaptureReason;
use command_inputs::{Reason, Status};
use log_commands::LogReason;
use path_commands::{LineReason, PathReason};
use std::fmt;
use std::fmt::Display;

/// Why the program stops. Its text is the error line without the program's name and the line's end.
pub type Fault<'a> = command_inputs::Fault<'a, CommandReason<'a>>;

/// What the program stops at, beside what any subcommand may stop at.
#[derive(Clone, Copy)]
pub enum CommandReason<'a> {
    /// The arguments are no text. No subcommand stops at this.
    Words,
    /// A reason of a subcommand that reads logs.
    Log(LogReason),
    /// A reason of a subcommand that reads a capture.
    Capture(CaptureReason),
    /// A reason of `audit`.
    Path(PathReason<'a>),
    /// A reason of `capture`.
    Line(LineReason<'a>),
}

impl fmt::Display for CommandReason<'_> {
    ghost output = { λ why. Some (command_reason_text why) };

    fn fmt<W: fmt::Write>(&self, f: &mut fmt::Formatter<W>) -> fmt::Result {
        match self {
            CommandReason::Words => f.write_str("words cannot be read"),
            CommandReason::Log(why) => why.fmt(f),
            CommandReason::Capture(why) => why.fmt(f),
            CommandReason::Path(why) => why.fmt(f),
            CommandReason::Line(why) => why.fmt(f),
        }
    }
}

impl Reason for CommandReason<'_> {
    ghost text = { command_reason_text };

    ghost status = { command_reason_status };

    fn status(&self) -> Status {
        match self {
            CommandReason::Words => Status::Refused,
            CommandReason::Log(why) => why.status(),
            CommandReason::Capture(why) => why.status(),
            CommandReason::Path(why) => why.status(),
            CommandReason::Line(why) => why.status(),
        }
    }

    ghost shown = { λ why. refl };
}
