//! The subcommand `measure`.

ghost use Rattle.std.specs.Prelude.{◌≡◌, ◌⊎◌, ◌≤◌, ◌^◌, All, Err, IfErr, IfOk, IfSome, OnOk, length};
ghost use Rattle.std.specs.Io.KnownBytes.{Appends};
ghost use Rattle.legalpath.specs.ProgramLog.{program_log};
ghost use Rattle.captures.specs.Bounds.{AreWithin, most_counted};
ghost use Rattle.captures.specs.HasCounted.{HasCounted};
ghost use Rattle.captures.specs.Table.{table_of};
ghost use Rattle.message.specs.Version.{most_harts};
ghost use Rattle.message.specs.declared.header.Version.TheVariants.{Two};
ghost use Rattle.output.specs.Begun.{AppendsBeginning};
ghost use Rattle.rvclass.specs.Fetch.{words_of};
ghost use Rattle.command_inputs.specs.FurtherPieces.{base_number};
ghost use Rattle.command_inputs.specs.Begun.{IsCutOf};
ghost use Rattle.command_inputs.specs.FoundLogs.{AreLegalLogsUpTo};
ghost use Rattle.command_inputs.specs.Order.{logs_fault};
ghost use Rattle.command_inputs.specs.Printed.{PrintsUnlessDenied};
ghost use Rattle.log_commands.specs.Measuring.{CanMeasure, Measures};
ghost use Rattle.log_commands.specs.Most.{most_of};
ghost use Rattle.log_commands.specs.Faults.{final_status};
ghost use Rattle.log_commands.specs.steps.Made.{AreMadeOfLogs, AreMeasuresOf};
ghost use Rattle.command_inputs.specs.declared.fault.Fault.TheVariants as Fault;

use crate::made::all_made;
use crate::most::most_of;
use crate::reason::Fault;
use captures::{LogMeasures, write_measures_of};
use command_inputs::{Measure, Status, asked_program, begin_progress};
use legalpath::PathFault;
use log_streams::{Files, IllegalRow, LogTask, made_of_logs};
use message::MOST_HARTS;
use payload::Mode;
use retire::Event;
use rvclass::ProgramOver;
use std::alloc::{AllocError, Global};
use std::io::Write;
use std::thread::Threads;

/// Writes the table of what each hart's log costs, once all logs are found legal: how many packets of each kind it has
/// at the period and in the mode, and how many bytes their payloads take. A log may have 4,294,967,295 rows where long
/// logs are asked for, and else 16,777,216.
///
/// The logs are read side by side, each a piece at a time, and counted while the events come. No list holds the events
/// of a log.
pub fn measure<'a, F: Files + Sync, O: Write, R: Threads + Sync>(
    alloc: Global,
    rt: &R,
    files: &mut F,
    asked: &Measure<'a>,
    out: &mut O,
) -> Result<Status, Fault<'a>>
where
    F::Reader: Send,
    requires { 1 ≤ asked.now.period }
    ensures early { IfSome (logs_fault (most_harts Two) (base_number asked.now.program) (length asked.now.logs.items))
        (λ fault. result ≡ Err fault) }
    ensures refused { final_status result ≡ Status.Refused → out.new ≡ out.old }
    ensures untouched { result ≡ Err Fault.Memory → out.new ≡ out.old }
    ensures printed { PrintsUnlessDenied (Measures (F.content files.old) asked.now)
        (CanMeasure (F.content files.old) asked.now) result
        (O.contents out.old) (O.contents out.new) }
    ensures cut { IsCutOf (Measures (F.content files.old) asked.now) (O.contents out.old) (O.contents out.new) }
{
    let program = asked_program(alloc, files, MOST_HARTS, &asked.program, &asked.logs)?;
    let paths = asked.logs.as_slice();
    let measures = measures_of_logs(alloc, rt, &*files, &program, asked, paths)?;
    write_table(measures.as_slice(), out)
}

/// How logs are measured.
#[derive(Drop)]
struct Measuring {
    period: u16,
    mode: Mode,
    ghost some: { 1 ≤ period },
}

impl LogTask<captures::Measures> for Measuring {
    type State = LogMeasures;

    ghost Keeps = { λ task program hart seen counted.
        HasCounted (words_of program) task.period task.mode seen counted };

    ghost Makes = { λ task program hart events measures.
        AreMeasuresOf task.period task.mode hart (program_log program events) measures };

    ghost MakesOfIllegal = { λ task program events row measures. ⊥ };

    fn begin(&self, _: &ProgramOver, _: usize) -> Result<LogMeasures, AllocError> {
        Ok(LogMeasures::new(self.period, self.mode))
    }

    fn add(
        &self,
        program: &ProgramOver,
        counted: &mut LogMeasures,
        events: &[Event],
    ) -> Result<(), AllocError> {
        counted.add(program, events);
        Ok(())
    }

    fn finish(
        &self,
        program: &ProgramOver,
        counted: LogMeasures,
    ) -> Result<captures::Measures, AllocError> {
        Ok(counted.finish(program))
    }

    fn refuse(&self, _: &ProgramOver, row: IllegalRow) -> Result<captures::Measures, PathFault> {
        Err(row.fault)
    }
}

/// The measures of the logs at these paths.
fn measures_of_logs<'a, F: Files + Sync, R: Threads + Sync>(
    alloc: Global,
    rt: &R,
    files: &F,
    program: &ProgramOver,
    asked: &Measure<'a>,
    paths: &[&'a str],
) -> Result<Vec<captures::Measures>, Fault<'a>>
where
    F::Reader: Send,
    requires { 1 ≤ asked.now.period }
    ensures count { IfOk result (λ made. length made.items ≡ length paths.now) }
    ensures logs { IfOk result (λ made.
        AreMadeOfLogs (AreMeasuresOf asked.now.period asked.now.mode) (most_of asked.now.long) (F.content files.now)
        program.now paths.now made.items) }
    ensures fault { IfErr result (λ why. (why ≡ Fault.Memory)
        ⊎ AreLegalLogsUpTo (most_of asked.now.long) (F.content files.now) program.now paths.now (Err why)) }
{
    let measuring = Measuring {
        period: asked.period,
        mode: asked.mode,
    };
    let rows = most_of(asked.long);
    begin_progress(files, asked.progress, paths);
    let made = made_of_logs(alloc, rt, files, program, rows, paths, &measuring);
    files.end_progress();
    all_made(made)
}

/// Writes the table of these measures, flushes the output, and returns that all is done.
fn write_table<'a, O: Write>(
    measures: &[captures::Measures],
    out: &mut O,
) -> Result<Status, Fault<'a>>
    requires few { length measures.now ≤ 2 ^ 16 }
    requires within { All (AreWithin most_counted) measures.now }
    ensures fault { IfErr result (λ fault. fault ≡ Fault.Output) }
    ensures ended { IfOk result (λ status. status ≡ Status.Whole) }
    ensures text { OnOk result (Appends (O.contents out.old) (O.contents out.new) (table_of measures.now)) }
    ensures begun { AppendsBeginning (table_of measures.now) (O.contents out.old) (O.contents out.new) }
{
    match write_measures_of(measures, out) {
        Ok(()) => {}
        Err(_) => return Err(Fault::Output),
    }
    out.flush()?;
    Ok(Status::Whole)
}
