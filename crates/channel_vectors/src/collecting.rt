//! Messages that are taken in by hand.

ghost use Rattle.std.specs.Prelude.{◌≤◌};

use crate::logs::{config_of, logs_in};
use crate::memory::{Memory, put_requests};
use crate::outcomes::{put_counts, put_outcome};
use bench::{Collector, Config};
use cases::{Case, Refusing, message_of};
use encoder::Source;
use legalpath::LegalLog;
use message::Message;
use rvclass::Program;

/// Takes in the first messages of a log, at most this many. Returns how many there are, and of how many bytes.
fn take_log(
    collector: &mut Collector<'_, '_, &Memory>,
    log: &LegalLog<'_>,
    config: Config,
    hart: u16,
    most: u64,
) -> (u64, u64)
    requires { 1 ≤ config.period }
{
    let mut source = Source::new(log, config.period, config.mode);
    let mut sent = (0u64, 0u64);
    for number in 0..most {
        let Some(payload) = source.next() else {
            break;
        };
        let bytes = payload.bytes().len() as u64;
        let message = Message {
            hart,
            number,
            payload,
        };
        if collector.take_in(message).is_ok() {
            sent = (sent.0.saturating_add(1), sent.1.saturating_add(bytes));
        }
    }
    sent
}

/// Takes in all messages of each log, and appends how many there are.
fn take_all(
    case: &Case,
    collector: &mut Collector<'_, '_, &Memory>,
    logs: &[LegalLog<'_>],
    config: Config,
)
    requires { 1 ≤ config.period }
{
    let mut counts = Vec::new(case.alloc);
    for (hart, log) in logs.iter().enumerate() {
        let hart = hart.min(65_535) as u16;
        let (count, _) = take_log(collector, log, config, hart, u64::MAX);
        case.push(&mut counts, count);
    }
    put_counts(case, "messages", counts.as_slice());
}

/// Takes in a message, and appends why not, or that it is taken in.
fn take_message(case: &Case, collector: &mut Collector<'_, '_, &Memory>, word: &str) {
    if let Some(message) = message_of(case, word) {
        match collector.take_in(message) {
            Ok(()) => case.put_part("taken in"),
            Err(fault) => case.put_part(fault),
        }
    }
}

/// Takes in the first messages of a log, `MOST*HART`, and appends how many there are.
fn take_some(
    case: &Case,
    collector: &mut Collector<'_, '_, &Memory>,
    logs: &[LegalLog<'_>],
    config: Config,
    step: &str,
)
    requires { 1 ≤ config.period }
{
    let (most, hart) = case.times(step);
    let hart = case.short(hart);
    let Some(log) = logs.get(usize::from(hart)) else {
        return case.unread();
    };
    let (count, bytes) = take_log(collector, log, config, hart, most);
    case.put_part(count);
    case.put(" messages of ");
    case.put_shown(bytes);
    case.put(" bytes");
}

/// Takes in what the steps of `take` say.
fn take_steps(
    case: &Case,
    collector: &mut Collector<'_, '_, &Memory>,
    logs: &[LegalLog<'_>],
    config: Config,
)
    requires { 1 ≤ config.period }
{
    for step in case.named("take").split(',') {
        if step == "all" {
            take_all(case, collector, logs, config);
        } else if step.contains(':') {
            take_message(case, collector, step);
        } else {
            take_some(case, collector, logs, config, step);
        }
    }
}

/// `collect SETTINGS`: what comes of each step of `take`, which have commas between them, and of the harts then. A step
/// is `all`, by which all messages of each log are taken in, `MOST*HART`, the first messages of a log, at most so many,
/// or a message. For the hart `refuse` an allocation has failed before.
pub(crate) fn collected(case: &Case, program: &Program) {
    let config = config_of(case);
    let logs = logs_in(case, program);
    let refused = case.number("refuse", u64::MAX);
    if logs.len() > 65_535 || config.period == 0 {
        return case.unread();
    }
    let memory = Refusing::new(case.alloc, case.number("fails", u64::MAX));
    let Ok(mut collector) = Collector::new(&memory, logs.as_slice(), config.keep) else {
        return case.no_memory();
    };
    if refused < logs.len() as u64 && refused < 65_535 {
        collector.refuse(refused as u16);
    } else if refused != u64::MAX {
        case.unread();
    }
    take_steps(case, &mut collector, logs.as_slice(), config);
    let outcome = collector.finish();
    if case.named("report") == "yes" {
        case.put("\n");
    }
    put_outcome(case, &outcome, logs.as_slice());
    put_requests(case, &memory, 0);
}
