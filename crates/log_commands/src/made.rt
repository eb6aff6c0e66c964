//! What is made of logs that all have to be legal.

ghost use Rattle.std.specs.Prelude.{◌≡◌};
ghost use Rattle.log_commands.specs.steps.Made.{all_or_fault};

use crate::reason::Fault;
use log_streams::MadeLogs;

/// What was made of logs, where something was made of each. Else the fault of the first of which nothing was made.
pub(crate) fn all_made<'a, X: Drop>(made: MadeLogs<'a, X>) -> Result<Vec<X>, Fault<'a>>
    ensures { result ≡ all_or_fault made.entry.made made.entry.end }
{
    match made.end {
        Ok(()) => Ok(made.made),
        Err(fault) => Err(Fault::of_stop(fault.path, fault.why)),
    }
}
