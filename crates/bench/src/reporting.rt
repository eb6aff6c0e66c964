//! The outcome of each hart, as text.

ghost use Rattle.std.specs.Prelude.{◌≡◌, ◌≤◌, ◌<◌, ◌^◌, IfErr, IfOk, OnOk, length, map, slice_get, Some};
ghost use Rattle.std.specs.Io.KnownBytes.{Appends};
ghost use Rattle.output.specs.Begun.{AppendsBeginning};
ghost use Rattle.legalpath.specs.ProgramLog.{ProgramLog};
ghost use Rattle.bench.specs.Got.{got_of};
ghost use Rattle.bench.specs.Report.{are_whole, report_line, report_lines, is_whole, is_whole_verdict, report_text};
ghost use Rattle.bench.specs.Report.{result_line, stop_line};
ghost use Rattle.bench.specs.Verdict.{verdict};

use crate::hart_line::ComparedHart;
use crate::outcome::{HartOutcome, Outcome};
use crate::stop::Stop;
use crate::verdict::{Verdict, compare};
use legalpath::LegalLog;
use output::{write_bytes, write_text};
use retire::WriteFault;
use std::alloc::Allocator;
use std::io::Write;

/// Writes a line for each hart, one for the stop where there is one, and one for the result.
///
/// The logs are those of the outcome's harts, in order. The only fault is [`WriteFault::Write`], where the writer
/// failed; what was written then is a prefix of the text. No memory is taken, and the writer is not flushed.
pub fn report<W: Write, A: Allocator, B: Allocator>(
    outcome: &Outcome<A>,
    logs: &[LegalLog<'_, B>],
    sink: &mut W,
) -> Result<(), WriteFault>
    requires { length logs.now ≡ length outcome.now.harts.items }
    ensures text { OnOk result (Appends (W.contents sink.old) (W.contents sink.new)
        (report_text outcome.now.stop (map got_of outcome.now.harts.items) logs.now)) }
    ensures begun { AppendsBeginning (report_text outcome.now.stop (map got_of outcome.now.harts.items) logs.now)
        (W.contents sink.old) (W.contents sink.new) }
    ensures fault { IfErr result (λ fault. fault ≡ WriteFault.Write) }
{
    write_report(outcome, logs, sink)?;
    Ok(())
}

/// Writes what [`report`] writes, and returns whether every log came back whole, and there is no stop.
pub fn write_report<W: Write, A: Allocator, B: Allocator>(
    outcome: &Outcome<A>,
    logs: &[LegalLog<'_, B>],
    sink: &mut W,
) -> Result<bool, WriteFault>
    requires { length logs.now ≡ length outcome.now.harts.items }
    ensures whole { IfOk result (λ whole.
        whole ≡ is_whole outcome.now.stop (map got_of outcome.now.harts.items) logs.now) }
    ensures text { OnOk result (Appends (W.contents sink.old) (W.contents sink.new)
        (report_text outcome.now.stop (map got_of outcome.now.harts.items) logs.now)) }
    ensures begun { AppendsBeginning (report_text outcome.now.stop (map got_of outcome.now.harts.items) logs.now)
        (W.contents sink.old) (W.contents sink.new) }
    ensures fault { IfErr result (λ fault. fault ≡ WriteFault.Write) }
{
    let all_whole = write_harts(outcome.harts.as_slice(), logs, sink)?;
    write_stop(outcome.stop, sink)?;
    let whole = outcome.stop.is_none() & all_whole;
    write_result(whole, sink)?;
    Ok(whole)
}

/// Whether every log came back whole, and there is no stop. The logs are those of the outcome's harts, in order.
pub fn is_whole<A: Allocator, B: Allocator>(outcome: &Outcome<A>, logs: &[LegalLog<'_, B>]) -> bool
    requires { length logs.now ≡ length outcome.now.harts.items }
    ensures { result ≡ is_whole outcome.now.stop (map got_of outcome.now.harts.items) logs.now }
{
    outcome.stop.is_none() && are_whole(outcome.harts.as_slice(), logs)
}

/// Whether the log of each hart came back whole.
fn are_whole<A: Allocator, B: Allocator>(harts: &[HartOutcome<A>], logs: &[LegalLog<'_, B>]) -> bool
    requires { length logs.now ≡ length harts.now }
    ensures { result ≡ are_whole (map got_of harts.now) logs.now }
{
    let mut whole = true;
    for hart in 0..harts.len() {
        let verdict = verdict_of(&harts[hart], &logs[hart]);
        whole &= verdict.is_whole();
    }
    whole
}

/// How a hart's outcome compares with its log.
fn verdict_of<A: Allocator, B: Allocator>(
    outcome: &HartOutcome<A>,
    log: &LegalLog<'_, B>,
) -> Verdict
    ensures { result ≡ verdict outcome.now.closed outcome.now.decoded.items log.now.events }
{
    compare(outcome.closed, outcome.decoded.as_slice(), log.events())
}

/// Writes a line for each hart, and returns whether every log came back whole.
fn write_harts<W: Write, A: Allocator, B: Allocator>(
    harts: &[HartOutcome<A>],
    logs: &[LegalLog<'_, B>],
    sink: &mut W,
) -> Result<bool, WriteFault>
    requires { length logs.now ≡ length harts.now }
    ensures whole { IfOk result (λ whole. whole ≡ are_whole (map got_of harts.now) logs.now) }
    ensures text { OnOk result (Appends (W.contents sink.old) (W.contents sink.new)
        (report_lines 0 (map got_of harts.now) logs.now)) }
    ensures begun { AppendsBeginning (report_lines 0 (map got_of harts.now) logs.now)
        (W.contents sink.old) (W.contents sink.new) }
    ensures fault { IfErr result (λ fault. fault ≡ WriteFault.Write) }
{
    let mut whole = true;
    for hart in 0..harts.len() {
        whole &= write_hart(hart, &harts[hart], &logs[hart], sink)?;
    }
    Ok(whole)
}

/// Writes the line of a hart, and returns whether its log came back whole.
fn write_hart<W: Write, A: Allocator, B: Allocator>(
    hart: usize,
    outcome: &HartOutcome<A>,
    log: &LegalLog<'_, B>,
    sink: &mut W,
) -> Result<bool, WriteFault>
    ensures whole { IfOk result (λ whole.
        whole ≡ is_whole_verdict (verdict outcome.now.closed outcome.now.decoded.items log.now.events)) }
    ensures text { OnOk result (Appends (W.contents sink.old) (W.contents sink.new)
        (report_line hart (got_of outcome.now) log.now)) }
    ensures begun { AppendsBeginning (report_line hart (got_of outcome.now) log.now)
        (W.contents sink.old) (W.contents sink.new) }
    ensures fault { IfErr result (λ fault. fault ≡ WriteFault.Write) }
{
    let verdict = verdict_of(outcome, log);
    let line = ComparedHart {
        hart,
        events: log.events().len(),
        taken: outcome.taken,
        bytes: outcome.bytes,
        decoded: outcome.decoded.len(),
        verdict,
    };
    write_text(sink, format_args!("{line}\n"))?;
    Ok(verdict.is_whole())
}

/// Writes the line of a stop, where there is one.
fn write_stop<W: Write>(stop: Option<Stop>, sink: &mut W) -> Result<(), WriteFault>
    ensures text { OnOk result (Appends (W.contents sink.old) (W.contents sink.new) (stop_line stop)) }
    ensures begun { AppendsBeginning (stop_line stop) (W.contents sink.old) (W.contents sink.new) }
    ensures fault { IfErr result (λ fault. fault ≡ WriteFault.Write) }
{
    let Some(why) = stop else {
        return Ok(());
    };
    write_text(sink, format_args!("stop: {why}\n"))?;
    Ok(())
}

/// Writes the line of the result. The only fault is [`WriteFault::Write`], where the writer failed; what was written then
/// is a prefix of the line.
pub fn write_result<W: Write>(whole: bool, sink: &mut W) -> Result<(), WriteFault>
    ensures text { OnOk result (Appends (W.contents sink.old) (W.contents sink.new) (result_line whole)) }
    ensures begun { AppendsBeginning (result_line whole) (W.contents sink.old) (W.contents sink.new) }
    ensures fault { IfErr result (λ fault. fault ≡ WriteFault.Write) }
{
    let result = if whole {
        "result: whole\n"
    } else {
        "result: not whole\n"
    };
    write_bytes(sink, result.as_bytes())?;
    Ok(())
}
