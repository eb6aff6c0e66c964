//! The report of what is received of logs.

ghost use Rattle.std.specs.Prelude.{◌≡◌, IfErr, IfOk, OnOk, length, map};
ghost use Rattle.std.specs.Io.KnownBytes.{Appends};
ghost use Rattle.output.specs.Begun.{AppendsBeginning};
ghost use Rattle.bench.specs.Got.{got_of};
ghost use Rattle.bench.specs.Report.{is_whole, report_text};
ghost use Rattle.log_commands.specs.Sending.{end_of_report};
ghost use Rattle.command_inputs.specs.declared.fault.Fault.TheVariants as Fault;

use crate::reason::Fault;
use bench::{Outcome, Stop, write_report};
use command_inputs::Status;
use legalpath::LegalLog;
use std::io::Write;

/// Writes the report of what is received of the logs, and returns how the run ends by it.
pub(crate) fn end_with_report<'a, O: Write>(
    outcome: &Outcome,
    logs: &[LegalLog<'_>],
    out: &mut O,
) -> Result<Status, Fault<'a>>
    requires { length logs.now ≡ length outcome.now.harts.items }
    ensures fault { IfErr result (λ fault. fault ≡ Fault.Output) }
    ensures ended { IfOk result (λ status. status ≡ end_of_report outcome.now.stop
        (is_whole outcome.now.stop (map got_of outcome.now.harts.items) logs.now)) }
    ensures text { OnOk result (Appends (O.contents out.old) (O.contents out.new)
        (report_text outcome.now.stop (map got_of outcome.now.harts.items) logs.now)) }
    ensures begun { AppendsBeginning (report_text outcome.now.stop (map got_of outcome.now.harts.items) logs.now)
        (O.contents out.old) (O.contents out.new) }
{
    let whole = write_report(outcome, logs, out)?;
    out.flush()?;
    Ok(status_of(outcome.stop, whole))
}

/// How a run ends by its stop, if there is one, and by whether every log came back complete.
fn status_of(stop: Option<Stop>, whole: bool) -> Status
    ensures { result ≡ end_of_report stop whole }
{
    if stop.is_some() {
        Status::Machine
    } else if whole {
        Status::Whole
    } else {
        Status::NotWhole
    }
}
