//! The phases of logs through the funnel: by a schedule, and over threads.

use crate::fault::Fault;
use crate::least::{Phase, RUNS, nanos};
use crate::log_phases::{MODE, PERIOD};
use bench::{Config, Open, Outcome, Turn, replay, run};
use encoder::Source;
use legalpath::LegalLog;
use std::alloc::Global;
use std::rt::Clock;
use std::sync::Wait;
use std::thread::Threads;

/// How many messages the funnel of a replay holds.
const REPLAY_CAPACITY: u32 = 16;

/// Logs, a hart each, that go through the funnel to the events that are decoded, in lists that grow.
#[derive(Drop)]
pub(crate) struct Runs<'a, 'p, R> {
    rt: &'a R,
    alloc: Global,
    logs: &'a [LegalLog<'p>],
    turns: Vec<Turn>,
    outcome: Option<Outcome>,
}

/// How many payloads a log has.
fn payload_count(log: &LegalLog<'_>) -> usize {
    let mut source = Source::new(log, PERIOD, MODE);
    let mut count = 0usize;
    for _ in 0..log.events().len() + 2 {
        if source.next().is_none() {
            break;
        }
        count = count.wrapping_add(1);
    }
    count
}

/// Adds a turn by which each hart that still has messages sends, and one after it by which a message is taken.
fn add_round(turns: &mut Vec<Turn>, counts: &[usize], number: usize) -> Result<(), Fault> {
    let mut hart = 0u16;
    for count in counts {
        if number < *count
            && turns
                .extend_from_slice(&[Turn::Hart(hart), Turn::Collect])
                .is_err()
        {
            return Err(Fault::Memory);
        }
        hart = hart.wrapping_add(1);
    }
    Ok(())
}

/// Logs go through a funnel of this capacity, in messages, and no packets are kept.
fn config_of(capacity: u32) -> Config {
    Config {
        period: PERIOD,
        mode: MODE,
        capacity,
        keep: false,
    }
}

impl<'a, 'p, R> Runs<'a, 'p, R> {
    /// A replay with no turns yet.
    pub(crate) fn new(rt: &'a R, alloc: Global, logs: &'a [LegalLog<'p>]) -> Runs<'a, 'p, R> {
        Runs {
            rt,
            alloc,
            logs,
            turns: Vec::new(alloc),
            outcome: None,
        }
    }

    /// Adds turns that go round the harts until each has sent all: one sends, and a message is taken.
    pub(crate) fn add_turns(&mut self) -> Result<(), Fault> {
        let mut counts = Vec::new(self.alloc);
        let mut longest = 0;
        for log in self.logs {
            let count = payload_count(log);
            longest = longest.max(count);
            if counts.push(count).is_err() {
                return Err(Fault::Memory);
            }
        }
        for number in 0..longest {
            add_round(&mut self.turns, counts.as_slice(), number)?;
        }
        Ok(())
    }

    /// How many events the logs have.
    pub(crate) fn event_count(&self) -> usize {
        let mut count = 0usize;
        for log in self.logs {
            count = count.wrapping_add(log.events().len());
        }
        count
    }

    /// How many events were decoded of all harts.
    fn decoded(&self) -> u64 {
        let mut events = 0u64;
        if let Some(outcome) = &self.outcome {
            for hart in &outcome.harts {
                events = events.wrapping_add(hart.decoded.len() as u64);
            }
        }
        events
    }
}

impl<R> Phase for Runs<'_, '_, R> {
    fn run(&mut self) -> Result<u64, Fault> {
        let config = config_of(REPLAY_CAPACITY);
        match replay(self.alloc, self.logs, config, self.turns.as_slice()) {
            Ok(outcome) => {
                self.outcome = Some(outcome);
                Ok(self.decoded())
            }
            Err(_) => Err(Fault::Log),
        }
    }

    fn free(&mut self) {
        self.outcome = None;
    }
}

impl<R: Threads + Wait + Sync> Runs<'_, '_, R> {
    fn run_over_threads(&mut self, capacity: u32) -> Result<u64, Fault> {
        let (rt, alloc) = (self.rt, self.alloc);
        match run(alloc, alloc, self.logs, config_of(capacity), &Open, rt) {
            Ok(outcome) => {
                self.outcome = Some(outcome);
                Ok(self.decoded())
            }
            Err(_) => Err(Fault::Log),
        }
    }
}

impl<R: Clock + Threads + Wait + Sync> Runs<'_, '_, R> {
    /// The least time of several runs over threads in nanoseconds, and how many events the last one decoded. The funnel
    /// holds this many messages.
    pub(crate) fn least_over_threads(&mut self, capacity: u32) -> Result<(u128, u64), Fault> {
        let mut least = u128::MAX;
        let mut decoded = 0;
        for _ in 0..RUNS {
            let start = nanos(self.rt)?;
            decoded = self.run_over_threads(capacity)?;
            let time = nanos(self.rt)?.saturating_sub(start);
            self.outcome = None;
            least = least.min(time);
        }
        Ok((least, decoded))
    }
}
