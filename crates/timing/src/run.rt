//! All phases, one after the other.

use crate::fault::Fault;
use crate::input::Input;
use crate::least::Meter;
use crate::log_phases::{LogPhases, STEPS, log_of};
use crate::replaying::Runs;
use crate::sending::{FUNNELS, IN_ONE_THREAD, OneThread, least_over_threads};
use legalpath::LegalLog;
use std::env::Env;
use std::io::Write;
use std::rt::{Clock, Files};
use std::sync::Wait;
use std::thread::Threads;

/// The runs over threads: a name, and how many messages the funnel holds.
const RUNS: [(&str, u32); 3] = [("bench 1", 1), ("bench 16", 16), ("bench 1024", 1024)];

/// Measures each phase over each log that the arguments name, then a replay and runs of all of them, and then a funnel.
/// Returns why not all is measured, if something failed.
pub(crate) fn run<R: Env + Files + Clock + AllocGlobal + Threads + Wait + Sync, E: Write>(
    rt: &R,
    err: &mut E,
) -> Option<Fault> {
    match Input::read(rt) {
        Ok(input) => {
            let mut meter = Meter::new(rt, err);
            measure_input(&mut meter, &input);
            measure_funnels(&mut meter);
            meter.fault()
        }
        Err(fault) => Some(fault),
    }
}

/// Measures each phase over each log, and then a replay and runs of all.
fn measure_input<R: Clock + AllocGlobal + Threads + Wait + Sync, E: Write>(
    meter: &mut Meter<'_, R, E>,
    input: &Input,
) {
    let logs = logs_of(meter, input);
    for (text, log) in input.texts.iter().zip(logs.iter()) {
        measure_log(meter, text.as_slice(), log);
    }
    measure_runs(meter, logs.as_slice());
}

/// The logs of all texts.
fn logs_of<'p, R: AllocGlobal, E>(
    meter: &mut Meter<'_, R, E>,
    input: &'p Input,
) -> Vec<LegalLog<'p>> {
    let alloc = meter.rt.alloc();
    let mut logs = Vec::new(alloc);
    for text in &input.texts {
        match log_of(alloc, &input.program, text.as_slice()) {
            Ok(log) => {
                if logs.push(log).is_err() {
                    meter.stop(Fault::Memory);
                }
            }
            Err(fault) => meter.stop(fault),
        }
    }
    logs
}

/// Measures each phase over a log and its text.
fn measure_log<R: Clock + AllocGlobal, E: Write>(
    meter: &mut Meter<'_, R, E>,
    text: &[u8],
    log: &LegalLog<'_>,
) {
    let mut phases = LogPhases::new(meter.rt.alloc(), text, log);
    if let Err(fault) = phases.fill() {
        meter.stop(fault);
    }
    for (name, step) in STEPS {
        phases.step = step;
        meter.measure(name, phases.items(), &mut phases);
    }
}

/// Measures a replay and runs of all logs, a hart each.
fn measure_runs<R: Clock + AllocGlobal + Threads + Wait + Sync, E: Write>(
    meter: &mut Meter<'_, R, E>,
    logs: &[LegalLog<'_>],
) {
    let mut runs = Runs::new(meter.rt, meter.rt.alloc(), logs);
    if let Err(fault) = runs.add_turns() {
        meter.stop(fault);
    }
    let events = runs.event_count();
    meter.measure("replay", events, &mut runs);
    for (name, capacity) in RUNS {
        if meter.is_stopped() {
            return;
        }
        let least = runs.least_over_threads(capacity);
        meter.write_least(name, events, least);
    }
}

/// Measures a message through a funnel: in one thread, on a bare channel, and with senders in threads of their own.
fn measure_funnels<R: Clock + AllocGlobal + Threads + Wait + Sync, E: Write>(
    meter: &mut Meter<'_, R, E>,
) {
    let (rt, alloc) = (meter.rt, meter.rt.alloc());
    for (name, bare) in [("funnel alone", false), ("bare channel", true)] {
        let mut phase = OneThread { rt, alloc, bare };
        meter.measure(name, IN_ONE_THREAD as usize, &mut phase);
    }
    for (name, harts, capacity, messages) in FUNNELS {
        if meter.is_stopped() {
            return;
        }
        let least = least_over_threads(rt, harts, capacity, messages);
        meter.write_least(name, messages as usize, least);
    }
}
