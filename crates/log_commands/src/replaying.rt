//! The subcommand `replay`.

ghost use Rattle.std.specs.Prelude.{◌≡◌, ◌⊎◌, ◌≤◌, IfErr, IfOk, IfSome, Ok, Err, length, map};
ghost use Rattle.message.specs.Version.{most_harts};
ghost use Rattle.message.specs.declared.header.Version.TheVariants.{Two};
ghost use Rattle.bench.specs.Got.{got_of};
ghost use Rattle.bench.specs.Replayed.{replayed};
ghost use Rattle.command_inputs.specs.FurtherPieces.{base_number};
ghost use Rattle.command_inputs.specs.Begun.{IsCutOf};
ghost use Rattle.command_inputs.specs.Order.{logs_fault};
ghost use Rattle.command_inputs.specs.Printed.{PrintsUnlessDenied};
ghost use Rattle.log_commands.specs.Faults.{final_status};
ghost use Rattle.log_commands.specs.Replaying.{CanReplay, CanReplayLogs, AreGot, IsSchedule, Replays, ReplaysLogs};
ghost use Rattle.log_commands.specs.Sending.{IsSetting, config_at};
ghost use Rattle.command_inputs.specs.declared.fault.Fault.TheVariants as Fault;

use crate::legal_logs::{AskedLogs, OnLogs, over_legal_logs};
use crate::reason::{Fault, LogReason, of_schedule, of_setup};
use crate::reporting::end_with_report;
use bench::{Config, Outcome};
use command_inputs::{Files, Replay, Status, start_of};
use funnel::{Turn, read_schedule};
use legalpath::LegalLog;
use message::MOST_HARTS;
use std::alloc::Global;
use std::io::Write;
use std::thread::Threads;

/// The most bytes of a schedule.
const LARGEST_SCHEDULE: usize = 134_217_728;

/// Sends each hart's log through the funnel as the schedule says, once all logs are found legal, and writes the report
/// of what is received of them. All is done where each log comes back complete. A stop is printed in the report, and the status
/// is then that of the machine.
pub fn replay<'a, F: Files + Sync, O: Write, R: Threads + Sync>(
    alloc: Global,
    rt: &R,
    files: &mut F,
    asked: &Replay<'a>,
    out: &mut O,
) -> Result<Status, Fault<'a>>
where
    F::Reader: Send,
    ensures early { IfSome (logs_fault (most_harts Two) (base_number asked.now.program) (length asked.now.logs.items))
        (λ fault. result ≡ Err fault) }
    ensures refused { final_status result ≡ Status.Refused → out.new ≡ out.old }
    ensures untouched { result ≡ Err Fault.Memory → out.new ≡ out.old }
    ensures printed { PrintsUnlessDenied (Replays (F.content files.old) asked.now)
        (CanReplay (F.content files.old) asked.now) result
        (O.contents out.old) (O.contents out.new) }
    ensures cut { IsCutOf (Replays (F.content files.old) asked.now) (O.contents out.old) (O.contents out.new) }
{
    let logs = AskedLogs {
        most: MOST_HARTS,
        program: &asked.program,
        paths: &asked.logs,
        progress: asked.progress,
    };
    over_legal_logs(alloc, rt, files, &logs, asked, out)
}

impl<'a> OnLogs<'a> for Replay<'a> {
    ghost Takes = { λ asked count. count ≤ most_harts Two };

    ghost Prints = { λ asked content logs. ReplaysLogs content asked logs };

    ghost CanWrite = { λ asked content logs. CanReplayLogs content asked logs };

    fn go_on<F: Files, O: Write>(
        &self,
        alloc: Global,
        files: &mut F,
        logs: &[LegalLog<'_>],
        out: &mut O,
    ) -> Result<Status, Fault<'a>> {
        replay_logs(alloc, files, self, logs, out)
    }
}

/// Sends legal logs through the funnel as the schedule says, and writes the report of what is received of them.
fn replay_logs<'a, F: Files, O: Write>(
    alloc: Global,
    files: &mut F,
    asked: &Replay<'a>,
    logs: &[LegalLog<'_>],
    out: &mut O,
) -> Result<Status, Fault<'a>>
    requires { length logs.now ≤ most_harts Two }
    ensures refused { final_status result ≡ Status.Refused → out.new ≡ out.old }
    ensures untouched { result ≡ Err Fault.Memory → out.new ≡ out.old }
    ensures printed { PrintsUnlessDenied (ReplaysLogs (F.content files.old) asked.now logs.now)
        (CanReplayLogs (F.content files.old) asked.now logs.now) result (O.contents out.old) (O.contents out.new) }
    ensures cut { IsCutOf (ReplaysLogs (F.content files.old) asked.now logs.now) (O.contents out.old)
        (O.contents out.new) }
{
    let turns = turns_of(alloc, files, logs.len() as u16, asked.schedule)?;
    let outcome = outcome_of(alloc, logs, asked, turns.as_slice())?;
    end_with_report(&outcome, logs, out)
}

/// The turns of the schedule at a path, for this many harts. At most one byte past the limit is read.
fn turns_of<'a, F: Files>(
    alloc: Global,
    files: &mut F,
    harts: u16,
    path: &'a str,
) -> Result<Vec<Turn>, Fault<'a>>
    ensures turns { IfOk result (λ turns. IsSchedule (F.content files.old) harts path.entry (Ok turns.items)) }
    ensures fault { IfErr result
        (λ why. (why ≡ Fault.Memory) ⊎ IsSchedule (F.content files.old) harts path.entry (Err why)) }
{
    let bytes = start_of(files, path, Some(LARGEST_SCHEDULE + 1))?;
    if bytes.len() > LARGEST_SCHEDULE {
        return Err(Fault::Own(LogReason::LargeSchedule));
    }
    match read_schedule(alloc, harts, bytes.as_slice()) {
        Ok(turns) => Ok(turns),
        Err(why) => Err(of_schedule(why)),
    }
}

/// What is received of the logs. No packets are kept.
fn outcome_of<'a>(
    alloc: Global,
    logs: &[LegalLog<'_>],
    asked: &Replay<'a>,
    turns: &[Turn],
) -> Result<Outcome, Fault<'a>>
    ensures setting { IfOk result (λ _.
        IsSetting (most_harts Two) (length logs.now) (config_at asked.now.period asked.now.mode asked.now.capacity)
        (Ok tt)) }
    ensures count { IfOk result (λ outcome. length logs.now ≡ length outcome.harts.items) }
    ensures came { IfOk result (λ outcome. AreGot asked.now.period asked.now.mode logs.now
        (replayed asked.now.period asked.now.mode asked.now.capacity logs.now turns.now).taken outcome.stop
        (map got_of outcome.harts.items)) }
    ensures fault { IfErr result (λ why. (why ≡ Fault.Memory)
        ⊎ IsSetting (most_harts Two) (length logs.now) (config_at asked.now.period asked.now.mode asked.now.capacity)
        (Err why)) }
{
    let config = Config {
        period: asked.period,
        mode: asked.mode,
        capacity: asked.capacity,
        keep: false,
    };
    match bench::replay(alloc, logs, config, turns) {
        Ok(outcome) => Ok(outcome),
        Err(why) => Err(of_setup(why)),
    }
}
