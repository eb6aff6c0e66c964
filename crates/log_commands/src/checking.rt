//! The subcommand `check`.

ghost use Rattle.std.specs.Prelude.{⊤, ◌≡◌, ◌⊎◌, ◌≤◌, Err, IfErr, IfOk, IfSome, Ok, OnOk, length};
ghost use Rattle.std.specs.Io.KnownBytes.{Appends, Keeps};
ghost use Rattle.std.specs.List.{list_any};
ghost use Rattle.message.specs.Version.{most_harts};
ghost use Rattle.message.specs.declared.header.Version.TheVariants.{Two};
ghost use Rattle.output.specs.Begun.{AppendsBeginning};
ghost use Rattle.command_inputs.specs.FurtherPieces.{base_number};
ghost use Rattle.command_inputs.specs.Begun.{BeginsPrinted, IsCutOf};
ghost use Rattle.command_inputs.specs.Order.{logs_fault};
ghost use Rattle.command_inputs.specs.Printed.{PrintsUnlessDenied};
ghost use Rattle.log_commands.specs.Checking.{AppendsFirstLines, BeginsLines, ChecksFirst, WritesFirstLines, CanCheck};
ghost use Rattle.log_commands.specs.Checking.{Checks, IsCheckInput, WritesLines, status_with};
ghost use Rattle.log_commands.specs.Most.{most_of};
ghost use Rattle.log_commands.specs.steps.Checked.{all_lines, illegal_lines, input_in, is_refused, row_line};
ghost use Rattle.log_commands.specs.steps.Checked.{verdict_lines};
ghost use Rattle.command_inputs.specs.declared.fault.Fault.TheVariants as Fault;

use crate::counting::Counting;
use crate::most::most_of;
use crate::reason::Fault;
use command_inputs::{Check, Status, asked_program, begin_progress, symbols_of};
use explaining::explain_row;
use log_streams::{Files, IllegalRow, MadeLogs, made_of_logs};
use message::MOST_HARTS;
use output::write_text;
use retire::WriteFault;
use rvclass::Program;
use std::alloc::Global;
use std::io::Write;
use std::thread::Threads;
use symbols::Symbols;

/// What logs are checked by.
#[derive(Drop)]
struct Input {
    program: Program,
    /// What places are named by, if that is given.
    symbols: Option<Symbols>,
}

/// Writes a line for each log, which says whether it is legal, and below that of an illegal one, if it is asked for, a
/// line that explains the first illegal row. That line ends with the name of the row's place, where symbols are given,
/// which are read before the logs. Returns that all is done where all logs are legal, and else that the input
/// is refused. A log that is not read ends the run, after the lines of the logs before it.
///
/// A log may have 4,294,967,295 rows where long logs are asked for, and else 16,777,216. The logs are read side by
/// side, each a piece at a time. No list holds the events of a log.
pub fn check<'a, F: Files + Sync, O: Write, R: Threads + Sync>(
    alloc: Global,
    rt: &R,
    files: &mut F,
    asked: &Check<'a>,
    out: &mut O,
) -> Result<Status, Fault<'a>>
where
    F::Reader: Send,
    ensures early { IfSome (logs_fault (most_harts Two) (base_number asked.now.program) (length asked.now.logs.items))
        (λ fault. result ≡ Err fault) }
    ensures printed { PrintsUnlessDenied (Checks (F.content files.old) asked.now)
        (CanCheck (F.content files.old) asked.now) result
        (O.contents out.old) (O.contents out.new) }
    ensures begun { result ≡ Err Fault.Memory → Keeps (O.contents out.old) (O.contents out.new)
        ⊎ BeginsLines (F.content files.old) asked.now (O.contents out.old) (O.contents out.new) }
    ensures cut { IsCutOf (ChecksFirst (F.content files.old) asked.now) (O.contents out.old) (O.contents out.new) }
{
    let input = read_input(alloc, files, asked)?;
    let ended = check_all(alloc, rt, files, &input, asked, out);
    out.flush()?;
    ended
}

/// Reads the program, and then the symbols, if they are given.
fn read_input<'a, F: Files>(
    alloc: Global,
    files: &mut F,
    asked: &Check<'a>,
) -> Result<Input, Fault<'a>>
    ensures early { IfSome (logs_fault (most_harts Two) (base_number asked.now.program) (length asked.now.logs.items))
        (λ fault. result ≡ Err fault) }
    ensures found { IfOk result (λ input. IsCheckInput (F.content files.old) asked.now (Ok (input_in input))) }
    ensures lacked { IfErr result (λ why.
        (why ≡ Fault.Memory) ⊎ IsCheckInput (F.content files.old) asked.now (Err why)) }
    ensures kept { F.content files.new ≡ F.content files.old }
{
    let program = asked_program(alloc, files, MOST_HARTS, &asked.program, &asked.logs)?;
    let symbols = symbols_of(alloc, files, asked.symbols)?;
    Ok(Input { program, symbols })
}

/// Checks the logs, and writes the lines of each, in order.
fn check_all<'a, F: Files + Sync, O: Write, R: Threads + Sync>(
    alloc: Global,
    rt: &R,
    files: &F,
    input: &Input,
    asked: &Check<'a>,
    out: &mut O,
) -> Result<Status, Fault<'a>>
where
    F::Reader: Send,
    ensures printed { PrintsUnlessDenied
        (WritesLines (most_of asked.now.long) (F.content files.now) asked.now.explain (input_in input.now)
        asked.now.logs.items) ⊤
        result
        (O.contents out.old) (O.contents out.new) }
    ensures begun { result ≡ Err Fault.Memory → AppendsFirstLines (most_of asked.now.long) (F.content files.now)
        asked.now.explain (input_in input.now) asked.now.logs.items (O.contents out.old) (O.contents out.new) }
    ensures cut { BeginsPrinted (WritesFirstLines (most_of asked.now.long) (F.content files.now) asked.now.explain
        (input_in input.now) asked.now.logs.items) (O.contents out.old) (O.contents out.new) }
{
    let paths = asked.logs.as_slice();
    let most = most_of(asked.long);
    begin_progress(files, asked.progress, paths);
    let MadeLogs {
        made: verdicts,
        end,
    } = made_of_logs(alloc, rt, files, &input.program, most, paths, &Counting);
    files.end_progress();
    let status = match write_logs(input, paths, verdicts.as_slice(), asked.explain, out) {
        Ok(status) => status,
        Err(_) => return Err(Fault::Output),
    };
    match end {
        Ok(()) => Ok(status),
        Err(fault) => Err(Fault::of_stop(fault.path, fault.why)),
    }
}

/// Writes the lines of the logs at the first of these paths, by the verdicts on them, in order, and returns how a run
/// of these logs ends.
fn write_logs<O: Write>(
    input: &Input,
    paths: &[&str],
    verdicts: &[Result<usize, IllegalRow>],
    explain: bool,
    out: &mut O,
) -> Result<Status, WriteFault>
    requires { length verdicts.now ≤ length paths.now }
    ensures ended { IfOk result (λ status. status ≡ status_with (list_any is_refused verdicts.now)) }
    ensures text { OnOk result (Appends (O.contents out.old) (O.contents out.new)
        (all_lines explain (input_in input.now) paths.now verdicts.now)) }
    ensures begun { AppendsBeginning (all_lines explain (input_in input.now) paths.now verdicts.now)
        (O.contents out.old) (O.contents out.new) }
{
    let mut status = Status::Whole;
    for i in 0..verdicts.len() {
        let verdict = &verdicts[i];
        write_lines(input, paths[i], verdict, explain, out)?;
        if verdict.is_err() {
            status = Status::Refused;
        }
    }
    Ok(status)
}

/// Writes the lines of a log: whether it is legal, and below that what explains its first illegal row, if it has one
/// and that is asked for.
fn write_lines<O: Write>(
    input: &Input,
    path: &str,
    verdict: &Result<usize, IllegalRow>,
    explain: bool,
    out: &mut O,
) -> Result<(), WriteFault>
    ensures text { OnOk result (Appends (O.contents out.old) (O.contents out.new)
        (verdict_lines explain (input_in input.now) path.now verdict.now)) }
    ensures begun { AppendsBeginning (verdict_lines explain (input_in input.now) path.now verdict.now)
        (O.contents out.old) (O.contents out.new) }
{
    match verdict {
        Ok(count) => write_text(out, format_args!("{path}: legal, {count} events\n"))?,
        Err(row) => write_illegal(input, path, row, explain, out)?,
    }
    Ok(())
}

/// Writes the lines of an illegal log: its first illegal row, and below that what explains it, if that is asked for.
fn write_illegal<O: Write>(
    input: &Input,
    path: &str,
    row: &IllegalRow,
    explain: bool,
    out: &mut O,
) -> Result<(), WriteFault>
    ensures text { OnOk result (Appends (O.contents out.old) (O.contents out.new)
        (illegal_lines explain (input_in input.now) path.now row.now)) }
    ensures begun { AppendsBeginning (illegal_lines explain (input_in input.now) path.now row.now)
        (O.contents out.old) (O.contents out.new) }
{
    let fault = row.fault;
    write_text(out, format_args!("{path}: {fault}\n"))?;
    write_explanation(input, row, explain, out)
}

/// Writes the line that explains the first illegal row of a log, if that is asked for.
fn write_explanation<O: Write>(
    input: &Input,
    row: &IllegalRow,
    explain: bool,
    out: &mut O,
) -> Result<(), WriteFault>
    ensures text { OnOk result (Appends (O.contents out.old) (O.contents out.new)
        (row_line explain (input_in input.now) row.now)) }
    ensures begun { AppendsBeginning (row_line explain (input_in input.now) row.now) (O.contents out.old) (O.contents out.new) }
{
    if !explain {
        return Ok(());
    }
    explain_row(
        &input.program,
        row.before,
        &row.event,
        row.fault,
        input.symbols.as_ref(),
        out,
    )
}
