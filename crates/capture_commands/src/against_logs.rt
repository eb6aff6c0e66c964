//! The subcommand `compare`.

ghost use Rattle.std.specs.Prelude.{◌≡◌, ◌≢◌, Err, IfErr, IfOk, IfSome};
ghost use Rattle.command_inputs.specs.Begun.{IsCutOf};
ghost use Rattle.command_inputs.specs.FurtherPieces.{base_number};
ghost use Rattle.command_inputs.specs.OnlyHarts.{asked_harts};
ghost use Rattle.command_inputs.specs.Order.{base_or_only_fault};
ghost use Rattle.command_inputs.specs.Printed.{PrintsUnlessDenied};
ghost use Rattle.command_inputs.specs.declared.fault.Fault.TheVariants as Fault;
ghost use Rattle.capture_commands.specs.Faults.{final_status};
ghost use Rattle.capture_commands.specs.Comparing.{CanCompare, CanCompareCapture, CanCompareInput, Compares};
ghost use Rattle.capture_commands.specs.Comparing.{ComparesCapture, ComparesInput};
ghost use Rattle.capture_commands.specs.Comparison.{end_of_stop};
ghost use Rattle.capture_commands.specs.steps.Inputs.{lent_in, names_in};
ghost use Rattle.capture_commands.specs.steps.Surveyed.{IsSurveyed};
ghost use Rattle.comparing.specs.Sourced.{AreNumbered, AreSourced, StopsEarly};
ghost use Rattle.rvclass.specs.Fetch.{words_of};

use crate::hart_check::check_harts_below;
use crate::hart_lines::{check_count, lines_of_logs};
use crate::input::{Input, InputArgs, read_input};
use crate::reason::Fault;
use crate::report::write_report;
use crate::surveyed::{Surveyed, harts_below, surveyed_of};
use captures::CaptureFault;
use command_inputs::{Compare, Format, MessageProgress, Status};
use comparing::{ExplainedHart, Explaining, SourcedHart, SourcingFault, sources_of};
use log_streams::Files;
use std::alloc::Global;
use std::io::Write;
use std::thread::Threads;

/// Writes a line for each hart, which says how what the capture decodes to compares with the hart's log, and a line for
/// the result. Below the line of a hart whose log did not come back whole is the first row in which both differ: the
/// log's, and the decoded one, and then the message of the capture that the row comes from, or why it is not decoded.
/// Where that is asked for, the up to three rows before it come first. Places are named by the symbols, if they are
/// given.
///
/// Returns that all is done where the capture decodes without a fault to just these logs and each hart is closed, and
/// else that a log is not whole. Where the capture has a fault, that is the fault, behind the lines.
///
/// There have to be as many logs as the capture has harts: by its header, or else by `harts`; where its header is bad
/// there are `harts` harts, and nothing of them is decoded. Each log has to be legal for the program, also behind a
/// difference. A log may have 4,294,967,295 rows where long logs are asked for, and else 16,777,216. The logs are read
/// side by side, each a piece at a time, and its hart's messages are decoded beside it; no list holds the events of a
/// log or of a hart. Nothing is written before all logs are read.
///
/// Where some harts are asked for, the logs have to be those of the harts among them that the capture has, in their
/// order. Messages of all other harts are passed over, whatever they are. The lines, the result and how the run ends
/// are those of these harts; a fault counts the messages of all. Where the capture has none of these harts, nothing is
/// written.
pub fn compare<'a, F: Files + Sync, O: Write, R: Threads + Sync>(
    alloc: Global,
    rt: &R,
    files: &mut F,
    asked: &Compare<'a>,
    out: &mut O,
) -> Result<Status, Fault<'a>>
where
    F::Reader: Send,
    ensures early { IfSome (base_or_only_fault (base_number asked.now.program) (asked_harts asked.now.only))
        (λ fault. result ≡ Err fault) }
    ensures refused { final_status result ≡ Status.Refused → out.new ≡ out.old }
    ensures untouched { result ≡ Err Fault.Memory → out.new ≡ out.old }
    ensures printed { PrintsUnlessDenied (Compares (F.content files.old) asked.now)
        (CanCompare (F.content files.old) asked.now) result
        (O.contents out.old) (O.contents out.new) }
    ensures cut { IsCutOf (Compares (F.content files.old) asked.now) (O.contents out.old) (O.contents out.new) }
{
    let wanted = InputArgs {
        format: Format::Text,
        program: &asked.program,
        only: asked.only,
        symbols: asked.symbols,
        capture: asked.capture,
    };
    let input = read_input(alloc, files, &wanted)?;
    let lent = input.lent();
    compare_input(alloc, rt, &*files, asked, &lent, out)
}

/// Compares what the capture has of the harts of an input with the logs that are asked for, where it has any of them,
/// and writes the report.
fn compare_input<'a, F: Files + Sync, O: Write, R: Threads + Sync>(
    alloc: Global,
    rt: &R,
    files: &F,
    asked: &Compare<'a>,
    input: &Input,
    out: &mut O,
) -> Result<Status, Fault<'a>>
where
    F::Reader: Send,
    ensures refused { final_status result ≡ Status.Refused → out.new ≡ out.old }
    ensures untouched { result ≡ Err Fault.Memory → out.new ≡ out.old }
    ensures printed { PrintsUnlessDenied (ComparesInput (F.content files.now) asked.now (lent_in input.now))
        (CanCompareInput (F.content files.now) asked.now (lent_in input.now)) result
        (O.contents out.old) (O.contents out.new) }
    ensures cut { IsCutOf (ComparesInput (F.content files.now) asked.now (lent_in input.now))
        (O.contents out.old) (O.contents out.new) }
{
    check_harts_below(asked.harts, input.only, input.bytes)?;
    let progress = MessageProgress::new(files, asked.progress);
    let found = surveyed_of(alloc, &progress, asked.harts, input)?;
    compare_found(alloc, rt, files, asked, input, &found, out)
}

/// Compares what was found of the harts of an input with the logs that are asked for, and writes the report.
fn compare_found<'a, F: Files + Sync, O: Write, R: Threads + Sync>(
    alloc: Global,
    rt: &R,
    files: &F,
    asked: &Compare<'a>,
    input: &Input,
    found: &Surveyed,
    out: &mut O,
) -> Result<Status, Fault<'a>>
where
    F::Reader: Send,
    requires found { IsSurveyed input.now.only (words_of input.now.program.now) asked.now.harts input.now.bytes.now
        found.now }
    requires no_memory { end_of_stop found.now.stop ≢ Err Fault.Memory }
    ensures refused { final_status result ≡ Status.Refused → out.new ≡ out.old }
    ensures untouched { result ≡ Err Fault.Memory → out.new ≡ out.old }
    ensures printed { PrintsUnlessDenied
        (ComparesCapture (F.content files.now) asked.now input.now.only input.now.program.now (names_in input.now)
        input.now.bytes.now)
        (CanCompareCapture (F.content files.now) asked.now input.now.only input.now.program.now input.now.bytes.now)
        result (O.contents out.old) (O.contents out.new) }
    ensures cut { IsCutOf
        (ComparesCapture (F.content files.now) asked.now input.now.only input.now.program.now (names_in input.now)
        input.now.bytes.now) (O.contents out.old) (O.contents out.new) }
{
    let paths = asked.logs.as_slice();
    check_count(harts_below(input.only, found.places.len()), paths)?;
    let lines = lines_of_logs(alloc, rt, files, asked, input, found)?;
    let said = lines.as_slice();
    let sourced = sourced_lines(alloc, input, found.stop, said)?;
    let harts = sourced.as_slice();
    let how = Explaining {
        before: asked.explain,
        symbols: input.symbols,
        stop: found.stop,
    };
    write_report(&how, harts, out)
}

/// What is said of the harts of an input, with the messages that their rows come from. Decoding none of them stops before
/// `stop`, so the only fault is that an allocation failed.
fn sourced_lines<'a>(
    alloc: Global,
    input: &Input,
    stop: Option<(u64, CaptureFault)>,
    lines: &[ExplainedHart],
) -> Result<Vec<SourcedHart>, Fault<'a>>
    requires numbered { AreNumbered input.now.only.first lines.now }
    requires never { ¬ StopsEarly (words_of input.now.program.now) input.now.bytes.now stop lines.now }
    ensures sourced { IfOk result (λ sourced. AreSourced (words_of input.now.program.now) input.now.bytes.now stop lines.now
        sourced.items) }
    ensures fault { IfErr result (λ fault. fault ≡ Fault.Memory) }
{
    let first = usize::from(input.only.first);
    match sources_of(alloc, input.program, input.bytes, stop, first, lines) {
        Ok(sourced) => Ok(sourced),
        Err(SourcingFault::Memory) => Err(Fault::Memory),
        Err(SourcingFault::Stops) => unreachable!(),
    }
}
