//! Two harts of one program: their logs to a capture and back, and then through a funnel by a schedule.

ghost use Rattle.std.specs.Prelude.{◌≡◌, All, IfOk, map};
ghost use Rattle.etrace.specs.capture.Received.{events_in};

use anyhow::{Result, bail};
use etrace::capture::{Version, decode_capture, encode_capture};
use etrace::logs::{Event, LegalLog, Program, read_log_from_slice, write_log};
use etrace::packets::Mode;
use etrace::runs::{Config, is_whole, read_schedule, replay, report};
use std::alloc::Global;
use std::fs;
use std::io::Write;
use std::rt::Files;

/// The address of the image's first byte.
const BASE: u64 = 0x8000_0000;

/// How the logs are encoded, and how many messages the funnel holds.
const CONFIG: Config = Config {
    period: 1024,
    mode: Mode::Differential,
    capacity: 2,
    keep: false,
};

/// Prints how long the capture of the logs is, the logs that it decodes to, and the report of the replay. A log that
/// does not come back complete from the replay is an error.
pub(crate) fn print_two_harts<R: Files + AllocGlobal, W: Write>(
    rt: &R,
    image: &str,
    logs: [&str; 2],
    schedule: &str,
    out: &mut W,
) -> Result<()> {
    let program = Program::new(BASE, fs::read(rt, image)?)?;
    let logs = [
        log_of(rt, &program, logs[0])?,
        log_of(rt, &program, logs[1])?,
    ];
    print_decoded(rt.alloc(), &program, &logs, out)?;
    print_replayed(rt, schedule, &logs, out)
}

/// The log at a path, which a hart can have retired.
fn log_of<'p, R: Files + AllocGlobal>(
    rt: &R,
    program: &'p Program,
    path: &str,
) -> Result<LegalLog<'p>>
    ensures { IfOk result (λ log. log.program ≡ program.now) }
{
    let text = fs::read(rt, path)?;
    let events = read_log_from_slice(rt.alloc(), rt.alloc(), text.as_slice())?;
    Ok(LegalLog::new(program, events).map_err(|(fault, _)| fault)?)
}

/// Prints how long the capture of the logs is, and the logs that it decodes to.
fn print_decoded<W: Write>(
    alloc: Global,
    program: &Program,
    logs: &[LegalLog<'_>; 2],
    out: &mut W,
) -> Result<()>
    requires { All (λ log. log.program ≡ program.now) logs.now }
{
    let lists = there_and_back(alloc, program, logs, out)?;
    for (hart, events) in lists.iter().enumerate() {
        writeln!(out, "hart {hart}")?;
        write_log(alloc, out, events.as_slice())?;
    }
    Ok(())
}

/// Writes the logs to a capture, prints how long it is, and decodes it. What comes back are the events of the logs.
fn there_and_back<W: Write>(
    alloc: Global,
    program: &Program,
    logs: &[LegalLog<'_>; 2],
    out: &mut W,
) -> Result<Vec<Vec<Event>>>
    requires { All (λ log. log.program ≡ program.now) logs.now }
    ensures { IfOk result (λ lists. events_in lists.items ≡ map (λ log. log.events) logs.now) }
{
    let mut capture = Vec::new(alloc);
    encode_capture(logs, CONFIG.period, CONFIG.mode, Version::Two, &mut capture)?;
    let events = logs[0].events().len() + logs[1].events().len();
    writeln!(out, "capture: {events} events in {} bytes", capture.len())?;
    let decoded = decode_capture(alloc, program, 2, capture.as_slice())?;
    match decoded.fault {
        Some((_, fault)) => Err(fault.into()),
        None => Ok(decoded.harts),
    }
}

/// Sends the logs through a funnel as the schedule at a path says, and prints the report.
fn print_replayed<R: Files + AllocGlobal, W: Write>(
    rt: &R,
    schedule: &str,
    logs: &[LegalLog<'_>; 2],
    out: &mut W,
) -> Result<()> {
    let text = fs::read(rt, schedule)?;
    let turns = read_schedule(rt.alloc(), 2, text.as_slice())?;
    let outcome = replay(rt.alloc(), logs, CONFIG, turns.as_slice())?;
    report(&outcome, logs, out)?;
    if !is_whole(&outcome, logs) {
        bail!("a log does not come back complete from the replay");
    }
    Ok(())
}
