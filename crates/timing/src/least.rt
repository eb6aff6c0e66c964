//! The least time of several runs.

use crate::fault::Fault;
use std::io::Write;
use std::rt::Clock;

/// How often a phase is run.
pub(crate) const RUNS: u32 = 9;

/// What is measured in one thread.
pub(crate) trait Phase {
    /// Runs once, and returns a number that the work gives. What it makes is kept.
    fn run(&mut self) -> Result<u64, Fault>;

    /// Frees what the run made. The clock was read.
    fn free(&mut self) {}
}

/// A clock, and where times go. Where something fails the meter notes the first reason, and then measures no more. So what
/// measures has no result.
#[derive(Drop)]
pub(crate) struct Meter<'r, R, E> {
    pub(crate) rt: &'r R,
    err: &'r mut E,
    fault: Option<Fault>,
}

impl<'r, R, E> Meter<'r, R, E> {
    /// A meter that has measured nothing.
    pub(crate) fn new(rt: &'r R, err: &'r mut E) -> Meter<'r, R, E> {
        Meter {
            rt,
            err,
            fault: None,
        }
    }

    /// Notes why no more is measured, where nothing was noted before.
    pub(crate) fn stop(&mut self, fault: Fault) {
        if self.fault.is_none() {
            self.fault = Some(fault);
        }
    }

    /// Why no more is measured, if something failed.
    pub(crate) fn fault(&self) -> Option<Fault> {
        self.fault
    }

    /// Whether no more is measured.
    pub(crate) fn is_stopped(&self) -> bool {
        self.fault.is_some()
    }
}

impl<R: Clock, E: Write> Meter<'_, R, E> {
    /// Runs a phase several times, and writes its name, its least time for each of its items, of which there are `items`,
    /// and the number that it gives.
    pub(crate) fn measure<P: Phase>(&mut self, name: &str, items: usize, phase: &mut P) {
        if !self.is_stopped() {
            let least = least(self.rt, phase);
            self.write_least(name, items, least);
        }
    }
}

impl<R, E: Write> Meter<'_, R, E> {
    /// Writes a line: a name, the least time for each of this count of items in nanoseconds, and the number. Or notes why
    /// there is none.
    pub(crate) fn write_least(
        &mut self,
        name: &str,
        items: usize,
        least: Result<(u128, u64), Fault>,
    ) {
        match least {
            Ok((time, number)) => self.write_time(name, items, time, number),
            Err(fault) => self.stop(fault),
        }
    }

    fn write_time(&mut self, name: &str, items: usize, time: u128, number: u64) {
        let hundredths = time.saturating_mul(100) / (items.max(1) as u128);
        let whole = hundredths / 100;
        let part = hundredths % 100;
        let done = writeln!(self.err, "{name:<18} {whole:>6}.{part:02} ns  ({number})");
        if let Err(error) = done {
            self.stop(Fault::Io(error.kind()));
        }
    }
}

/// The clock's time in nanoseconds.
pub(crate) fn nanos<R: Clock>(rt: &R) -> Result<u128, Fault> {
    match rt.monotonic() {
        Ok(time) => Ok(time.as_nanos()),
        Err(error) => Err(Fault::Io(error.kind())),
    }
}

/// The least time of several runs in nanoseconds, and the number that the last one gave.
fn least<R: Clock, P: Phase>(rt: &R, phase: &mut P) -> Result<(u128, u64), Fault> {
    let mut least = u128::MAX;
    let mut number = 0;
    for _ in 0..RUNS {
        let start = nanos(rt)?;
        number = phase.run()?;
        let time = nanos(rt)?.saturating_sub(start);
        phase.free();
        least = least.min(time);
    }
    Ok((least, number))
}
