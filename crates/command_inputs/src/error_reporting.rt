//! The line that a fault has on standard error.

ghost use Rattle.std.specs.Prelude.{◌≡◌};
ghost use Rattle.output.specs.Begun.{AppendsBeginning};
ghost use Rattle.command_inputs.specs.FaultText.{error_line};
ghost use Rattle.command_inputs.specs.Faults.{status_of};

use crate::fault::Fault;
use crate::reason::Reason;
use crate::status::Status;
use output::write_text;
use std::io::Write;

/// Writes the line of a fault, and returns how the program ends. It does not allocate. Where a write fails, the rest of
/// the line is not written.
pub fn report_error<W: Reason, E: Write>(err: &mut E, fault: &Fault<'_, W>) -> Status
    ensures status { result ≡ status_of W.status fault.now }
    // What is written is the line, or a prefix of it.
    ensures line { AppendsBeginning (error_line W.text fault.now) (E.contents err.old) (E.contents err.new) }
{
    let _ = write_text(err, format_args!("tracebench: {fault}\n"));
    fault.status()
}
