//! The report of a comparison, and how it ends.

ghost use Rattle.std.specs.Prelude.{⊤, ◌≡◌, ◌≢◌, Err};
ghost use Rattle.output.specs.Begun.{AppendsBeginning};
ghost use Rattle.command_inputs.specs.Printed.{PrintsUnlessDenied};
ghost use Rattle.command_inputs.specs.declared.fault.Fault.TheVariants as Fault;
ghost use Rattle.capture_commands.specs.Faults.{final_status};
ghost use Rattle.comparing.specs.Explained.{explained_text, names_in};
ghost use Rattle.capture_commands.specs.Comparison.{end_of_stop};
ghost use Rattle.capture_commands.specs.steps.Lines.{WritesLines};

use crate::Fault;
use crate::surveyed::ended;
use command_inputs::Status;
use comparing::{Explaining, SourcedHart, write_explained};
use std::io::Write;

/// Writes the report of these harts, in this way, and returns how the run ends.
pub(crate) fn write_report<'a, O: Write>(
    how: &Explaining,
    harts: &[SourcedHart],
    out: &mut O,
) -> Result<Status, Fault<'a>>
    ensures never_refused { final_status result ≢ Status.Refused }
    ensures memory { result ≡ Err Fault.Memory → end_of_stop how.now.stop ≡ Err Fault.Memory }
    ensures printed { PrintsUnlessDenied (WritesLines how.now.before (names_in how.now) how.now.stop harts.now) ⊤ result
        (O.contents out.old) (O.contents out.new) }
    ensures begun { AppendsBeginning (explained_text how.now.before (names_in how.now) how.now.stop harts.now)
        (O.contents out.old) (O.contents out.new) }
{
    let whole = match write_explained(how, harts, out) {
        Ok(whole) => whole,
        Err(_) => return Err(Fault::Output),
    };
    out.flush()?;
    ended(how.stop)?;
    if whole {
        Ok(Status::Whole)
    } else {
        Ok(Status::NotWhole)
    }
}
