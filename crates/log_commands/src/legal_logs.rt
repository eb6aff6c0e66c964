//! The steps of each subcommand that needs legal logs.

ghost use Rattle.std.specs.Prelude.{◌≡◌, ◌≤◌, ℕ, Err, IfSome, List, length};
ghost use Rattle.legalpath.specs.ProgramLog.{ProgramLog};
ghost use Rattle.command_inputs.specs.FurtherPieces.{base_number};
ghost use Rattle.command_inputs.specs.Begun.{IsCutOf};
ghost use Rattle.command_inputs.specs.FoundLogs.{AreAskedLogs};
ghost use Rattle.log_streams.specs.Known.{Content};
ghost use Rattle.command_inputs.specs.Order.{logs_fault};
ghost use Rattle.command_inputs.specs.Printed.{First, PrintsUnlessDenied};
ghost use Rattle.log_commands.specs.Faults.{Once, Printed, final_status};
ghost use Rattle.command_inputs.specs.declared.fault.Fault.TheVariants as Fault;

use crate::reason::Fault;
use command_inputs::{Files, ProgramArgs, Status, asked_program, legal_logs_of};
use legalpath::LegalLog;
use retire::Event;
use side_by_side::drop_side_by_side;
use std::alloc::Global;
use std::io::Write;
use std::thread::Threads;

/// Which logs are asked for.
#[derive(Clone, Copy)]
pub(crate) struct AskedLogs<'a, 'b> {
    /// The most logs that there may be.
    pub(crate) most: u16,
    /// The program that the logs are of.
    pub(crate) program: &'b ProgramArgs<'a>,
    /// The paths of the logs.
    pub(crate) paths: &'b Vec<&'a str>,
    /// Whether it is shown how far the logs are read.
    pub(crate) progress: bool,
}

/// What a subcommand does with legal logs.
pub(crate) trait OnLogs<'a> {
    /// How many logs it takes.
    ghost Takes: { Self → ℕ → Type 0 };
    /// What it prints of legal logs, and how it ends, by what is known of the files.
    ghost Prints: { Self → Content → List ProgramLog → Printed → Type 0 };
    /// What it has found once it writes.
    ghost CanWrite: { Self → Content → List ProgramLog → Type 0 };

    /// Goes on with legal logs.
    fn go_on<F: Files, O: Write>(
        &self,
        alloc: Global,
        files: &mut F,
        logs: &[LegalLog<'_>],
        out: &mut O,
    ) -> Result<Status, Fault<'a>>
        requires { Takes self.now (length logs.now) }
        ensures refused { final_status result ≡ Status.Refused → out.new ≡ out.old }
        ensures untouched { result ≡ Err Fault.Memory → out.new ≡ out.old }
        ensures printed { PrintsUnlessDenied (Prints self.now (F.content files.old) logs.now)
            (CanWrite self.now (F.content files.old) logs.now) result (O.contents out.old) (O.contents out.new) }
        ensures cut { IsCutOf (Prints self.now (F.content files.old) logs.now) (O.contents out.old)
            (O.contents out.new) };
}

/// Finds the program and the legal logs that are asked for, and goes on with these.
pub(crate) fn over_legal_logs<'a, F: Files + Sync, O: Write, T: OnLogs<'a>, R: Threads + Sync>(
    alloc: Global,
    rt: &R,
    files: &mut F,
    asked: &AskedLogs<'a, '_>,
    task: &T,
    out: &mut O,
) -> Result<Status, Fault<'a>>
where
    F::Reader: Send,
    requires { (count : ℕ) → 1 ≤ count → count ≤ asked.now.most → T.Takes task.now count }
    ensures early { IfSome (logs_fault asked.now.most (base_number asked.now.program.now)
        (length asked.now.paths.now.items)) (λ fault. result ≡ Err fault) }
    ensures refused { final_status result ≡ Status.Refused → out.new ≡ out.old }
    ensures untouched { result ≡ Err Fault.Memory → out.new ≡ out.old }
    ensures printed { PrintsUnlessDenied
        (First (AreAskedLogs (F.content files.old) asked.now.most asked.now.program.now asked.now.paths.now.items)
        (T.Prints task.now (F.content files.old)))
        (Once (AreAskedLogs (F.content files.old) asked.now.most asked.now.program.now asked.now.paths.now.items)
        (T.CanWrite task.now (F.content files.old))) result (O.contents out.old) (O.contents out.new) }
    ensures cut { IsCutOf
        (First (AreAskedLogs (F.content files.old) asked.now.most asked.now.program.now asked.now.paths.now.items)
        (T.Prints task.now (F.content files.old))) (O.contents out.old) (O.contents out.new) }
{
    let program = asked_program(alloc, files, asked.most, asked.program, asked.paths)?;
    let paths = asked.paths.as_slice();
    let logs = legal_logs_of(alloc, rt, files, &program, paths, asked.progress)?;
    let ended = task.go_on(alloc, files, logs.as_slice(), out);
    let bytes = bytes_of(logs.as_slice());
    drop_side_by_side(rt, logs, bytes);
    ended
}

/// About how many bytes logs take, or what is decoded of them again.
pub(crate) fn bytes_of(logs: &[LegalLog<'_>]) -> usize {
    let mut events = 0usize;
    for log in logs {
        events = events.saturating_add(log.events().len());
    }
    events.saturating_mul(size_of::<Event>())
}
