//! The error of arguments that ask for nothing.

ghost use Rattle.std.specs.Prelude.{◌≡◌, ◌≢◌, Err};
ghost use Rattle.cli.specs.Errors.{kind_of};
ghost use Rattle.command_inputs.specs.declared.fault.Fault.TheVariants as Fault;
ghost use Rattle.commands.specs.Words.{ReportsFault};

use crate::{Fault, Status, report_error};
use cli::{Error, ErrorKind};
use std::io::Write;

/// Reports why arguments ask for nothing, by `clap`'s own text, and returns how the command ends. Where allocation
/// failed, the line of that fault is written instead.
pub(crate) fn report_words_error<E: Write>(err: &mut E, error: &Error) -> Status
    ensures memory { kind_of error.now ≡ ErrorKind.OutOfMemory → result ≡ Status.Machine }
    ensures line { kind_of error.now ≡ ErrorKind.OutOfMemory
        → ReportsFault E.contents (Err Fault.Memory) err.old err.new }
    ensures words { kind_of error.now ≢ ErrorKind.OutOfMemory → result ≡ Status.Refused }
{
    if error.kind() == ErrorKind::OutOfMemory {
        return report_error(err, &Fault::Memory);
    }
    let _ = write!(err, "{error}");
    Status::Refused
}
