//! The subcommand `bench`.

ghost use Rattle.std.specs.Prelude.{◌≡◌, ◌⊎◌, IfErr, IfOk, IfSome, Ok, Err, length};
ghost use Rattle.std.specs.Thread.{IsSync};
ghost use Rattle.funnel.specs.Limits.{most_ports};
ghost use Rattle.bench.specs.Beginnings.{AreBeginnings, CameThrough};
ghost use Rattle.bench.specs.Stopping.{NamesOpen};
ghost use Rattle.command_inputs.specs.FurtherPieces.{base_number};
ghost use Rattle.command_inputs.specs.Begun.{IsCutOf};
ghost use Rattle.command_inputs.specs.Order.{logs_fault};
ghost use Rattle.command_inputs.specs.Printed.{PrintsUnlessDenied};
ghost use Rattle.log_commands.specs.Faults.{final_status};
ghost use Rattle.log_commands.specs.Benching.{Benches, BenchesLogs, CanBench, CanBenchLogs};
ghost use Rattle.log_commands.specs.Sending.{IsSetting, config_at};
ghost use Rattle.command_inputs.specs.declared.fault.Fault.TheVariants as Fault;

use crate::legal_logs::{AskedLogs, OnLogs, bytes_of, over_legal_logs};
use crate::reason::{Fault, of_setup};
use crate::reporting::end_with_report;
use crate::rooms::rooms_of;
use bench::{Config, Gate, Open, Outcome, run_in_rooms};
use command_inputs::{Bench, Files, Status};
use funnel::{MOST_PORTS, Outlet};
use legalpath::LegalLog;
use side_by_side::drop_side_by_side;
use std::alloc::Global;
use std::io::Write;
use std::sync::Wait;
use std::thread::Threads;

/// Sends each hart's log through the funnel from a thread of its own, once all logs are found legal, and writes the
/// report of what is received of them. All is done where each log comes back complete. A stop is printed in the report,
/// and the status is then that of the machine.
pub fn bench<'a, F: Files + Sync, O: Write, R: Threads + Wait + Sync>(
    alloc: Global,
    rt: &R,
    files: &mut F,
    asked: &Bench<'a>,
    out: &mut O,
) -> Result<Status, Fault<'a>>
where
    F::Reader: Send,
    ensures early { IfSome (logs_fault most_ports (base_number asked.now.program) (length asked.now.logs.items))
        (λ fault. result ≡ Err fault) }
    ensures refused { final_status result ≡ Status.Refused → out.new ≡ out.old }
    ensures untouched { result ≡ Err Fault.Memory → out.new ≡ out.old }
    ensures printed { PrintsUnlessDenied (Benches (F.content files.old) asked.now)
        (CanBench (F.content files.old) asked.now) result
        (O.contents out.old) (O.contents out.new) }
    ensures cut { IsCutOf (Benches (F.content files.old) asked.now) (O.contents out.old) (O.contents out.new) }
{
    let logs = AskedLogs {
        most: MOST_PORTS,
        program: &asked.program,
        paths: &asked.logs,
        progress: asked.progress,
    };
    over_legal_logs(alloc, rt, files, &logs, &OverThreads { rt, asked }, out)
}

/// A run of `bench`, over threads of this runtime.
#[derive(Drop)]
struct OverThreads<'a, 'b, R> {
    rt: &'b R,
    asked: &'b Bench<'a>,
}

impl<'a, R: Threads + Wait + Sync> OnLogs<'a> for OverThreads<'a, '_, R> {
    ghost Takes = { λ task count. IsSync R.row };

    ghost Prints = { λ task content logs. BenchesLogs task.asked.now logs };

    ghost CanWrite = { λ task content logs. CanBenchLogs task.asked.now logs };

    fn go_on<F: Files, O: Write>(
        &self,
        alloc: Global,
        _: &mut F,
        logs: &[LegalLog<'_>],
        out: &mut O,
    ) -> Result<Status, Fault<'a>> {
        bench_logs(alloc, self.rt, self.asked, &Open, logs, out)
    }
}

/// Sends each legal log through the funnel from a thread of its own, with a gate round each send, and writes the report
/// of what is received of them: what [`bench`] does with the logs that it finds legal, with a gate that does nothing.
pub fn bench_logs<'a, G: Gate, O: Write, R: Threads + Wait + Sync>(
    alloc: Global,
    rt: &R,
    asked: &Bench<'a>,
    gate: &G,
    logs: &[LegalLog<'_>],
    out: &mut O,
) -> Result<Status, Fault<'a>>
    ensures refused { final_status result ≡ Status.Refused → out.new ≡ out.old }
    ensures untouched { result ≡ Err Fault.Memory → out.new ≡ out.old }
    ensures printed { PrintsUnlessDenied (BenchesLogs asked.now logs.now) (CanBenchLogs asked.now logs.now) result
        (O.contents out.old) (O.contents out.new) }
    ensures cut { IsCutOf (BenchesLogs asked.now logs.now) (O.contents out.old) (O.contents out.new) }
{
    let ran = outcome_of(alloc, rt, asked, gate, logs)?;
    let ended = end_with_report(&ran.0, logs, out);
    let bytes = bytes_of(logs);
    drop_side_by_side(rt, ran.0.harts, bytes);
    ended
}

/// What is received of the logs, and the outlet out of which it was taken. No packets are kept.
fn outcome_of<'a, G: Gate, R: Threads + Wait + Sync>(
    alloc: Global,
    rt: &R,
    asked: &Bench<'a>,
    gate: &G,
    logs: &[LegalLog<'_>],
) -> Result<(Outcome, Outlet), Fault<'a>>
    ensures setting { IfOk result (λ _.
        IsSetting most_ports (length logs.now) (config_at asked.now.period asked.now.mode asked.now.capacity) (Ok tt)) }
    ensures came { IfOk result (λ ran.
        AreBeginnings (config_at asked.now.period asked.now.mode asked.now.capacity) logs.now ran.0.harts.items) }
    ensures through { IfOk result (λ ran.
        CameThrough (config_at asked.now.period asked.now.mode asked.now.capacity) logs.now ran.1 ran.0.harts.items) }
    ensures names { IfOk result (λ ran. NamesOpen ran.0.stop ran.0.harts.items) }
    ensures fault { IfErr result (λ why. (why ≡ Fault.Memory)
        ⊎ IsSetting most_ports (length logs.now) (config_at asked.now.period asked.now.mode asked.now.capacity)
        (Err why)) }
{
    let config = Config {
        period: asked.period,
        mode: asked.mode,
        capacity: asked.capacity,
        keep: false,
    };
    let rooms = rooms_of(alloc, rt, logs);
    match run_in_rooms(alloc, alloc, logs, config, gate, rt, rooms) {
        Ok(ran) => Ok(ran),
        Err(why) => Err(of_setup(why)),
    }
}
