//! Logs through the funnel: by turns, and over threads.

use crate::calls::Calls;
use crate::logs::{config_of, logs_in};
use crate::memory::{Memory, memory_of, put_requests};
use crate::outcomes::{put_counts, put_outcome};
use bench::{Config, HartOutcome, Open, Outcome, Setup, Turn, replay, run, run_in_rooms, run_on};
use cases::{Case, Refusing};
use command_inputs::{Bench, ProgramArgs};
use funnel::{Ended, Outlet, open};
use legalpath::LegalLog;
use linked_list_allocator::LocalHeap;
use log_commands::bench_logs;
use retire::Event;
use rvclass::Program;
use std::alloc::{Allocator, Global};
use std::sync::atomic::AtomicU64;
use std::sync::{Arc, Wait};
use std::thread::Threads;

/// Lists for the events of harts.
type Rooms<'m> = Vec<Vec<Event, &'m Memory>, &'m Memory>;

/// What a run returns.
type Answer<'m> = Result<Outcome<&'m Memory>, Setup>;

/// Turns, with commas between them: `c` by which a message is taken, or `HART` that sends.
fn single_turns(case: &Case) -> Vec<Turn> {
    let mut turns = Vec::new(case.alloc);
    for word in case.named("turns").split(',') {
        let turn = match word {
            "c" => Turn::Collect,
            _ => Turn::Hart(case.short(word)),
        };
        case.push(&mut turns, turn);
    }
    turns
}

/// Adds turns by which a hart sends this many messages and each is taken at once.
fn add_turns(case: &Case, turns: &mut Vec<Turn>, hart: u16, count: u64) {
    for _ in 0..count {
        case.push(turns, Turn::Hart(hart));
        case.push(turns, Turn::Collect);
    }
}

/// The turns of a case: those that are named, or of each hart in turn as many as it sends messages.
fn turns_of(case: &Case) -> Vec<Turn> {
    let each = case.named("each");
    if each.is_empty() {
        return single_turns(case);
    }
    let harts = case.small("harts", 4);
    let mut turns = Vec::new(case.alloc);
    for hart in 0..harts {
        let count = each.split(',').nth(usize::from(hart % 4)).unwrap_or("");
        let count = case.decimal(count);
        add_turns(case, &mut turns, hart, count);
    }
    let last = case.number("last", 0);
    add_turns(case, &mut turns, harts, last);
    turns
}

/// Adds lists of one size, `COUNT*SIZE`, of an event that no hart retires.
fn add_rooms<'m>(case: &Case, memory: &'m Memory, rooms: &mut Rooms<'m>, word: &str) {
    let (count, size) = case.times(word);
    let size = case.decimal(size) as usize;
    let event = Event::Retire {
        addr: 2,
        itype: 0,
        privilege: 3,
    };
    for _ in 0..count {
        let added = match Vec::from_elem(memory, event, size) {
            Ok(room) => rooms.push(room).is_ok(),
            Err(_) => false,
        };
        if !added {
            case.no_memory();
        }
    }
}

/// The lists that a run is handed, of the sizes `rooms`, with commas between them.
fn rooms_of<'m>(case: &Case, memory: &'m Memory) -> Rooms<'m> {
    let mut rooms = Vec::new(memory);
    for word in case.named("rooms").split(',') {
        if !word.is_empty() {
            add_rooms(case, memory, &mut rooms, word);
        }
    }
    rooms
}

/// Appends what comes of a replay or a run, or why nothing is sent.
fn put_answer<A: Allocator>(case: &Case, answer: Result<Outcome<A>, Setup>, logs: &[LegalLog<'_>]) {
    match answer {
        Ok(outcome) => put_outcome(case, &outcome, logs),
        Err(fault) => case.put_part(fault),
    }
}

/// `replay SETTINGS`: what comes of a replay, or why nothing is sent.
pub(crate) fn replayed(case: &Case, program: &Program) {
    let config = config_of(case);
    let logs = logs_in(case, program);
    let turns = turns_of(case);
    let memory = Refusing::new(case.alloc, case.number("fails", u64::MAX));
    let answer = replay(&memory, logs.as_slice(), config, turns.as_slice());
    put_answer(case, answer, logs.as_slice());
    put_requests(case, &memory, 0);
}

/// What is run, with which gate.
#[derive(Drop)]
struct Plan<'l, 'p> {
    logs: &'l [LegalLog<'p>],
    config: Config,
    gate: &'l Calls,
}

/// Notes where a message is left in a funnel, or it has not ended.
fn check_end<R: Wait>(case: &Case, rt: &R, outlet: &mut Outlet) {
    if outlet.take(rt) != Err(Ended) {
        case.put_part("a message is left");
    }
}

/// A run over the ends of a funnel that is opened before, of `room` messages.
fn run_over_ends<'m, R: Threads + Wait + Sync>(
    case: &Case,
    rt: &R,
    memory: &'m Memory,
    plan: &Plan<'_, '_>,
) -> Answer<'m> {
    let room = case.number("room", 0).min(1 << 16) as u32;
    let logs = plan.logs;
    let config = plan.config;
    if logs.len() > 64 || config.period == 0 {
        case.unread();
        return Err(Setup::TooManyHarts);
    }
    let Ok((ports, mut outlet)) = open(case.alloc, logs.len() as u16, room) else {
        case.unread();
        return Err(Setup::Capacity);
    };
    let answer = run_on(memory, logs, config, plan.gate, ports, &mut outlet, rt);
    check_end(case, rt, &mut outlet);
    match answer {
        Ok(outcome) => Ok(outcome),
        Err(_) => Err(Setup::Memory),
    }
}

/// A run with the lists `rooms`.
fn run_with_lists<'m, R: Threads + Wait + Sync>(
    case: &Case,
    rt: &R,
    memory: &'m Memory,
    plan: &Plan<'_, '_>,
    rooms: Rooms<'m>,
) -> Answer<'m> {
    let logs = plan.logs;
    let config = plan.config;
    match run_in_rooms(memory, case.alloc, logs, config, plan.gate, rt, rooms) {
        Ok((outcome, mut outlet)) => {
            check_end(case, rt, &mut outlet);
            Ok(outcome)
        }
        Err(fault) => Err(fault),
    }
}

/// Appends what comes of a run: over the ends of a funnel of `room` messages, with the lists `rooms`, or of its own.
fn put_run<R: Threads + Wait + Sync>(case: &Case, rt: &R, memory: &Memory, plan: &Plan<'_, '_>) {
    let rooms = rooms_of(case, memory);
    let before = memory.requests();
    let answer = if case.value("room").is_some() {
        run_over_ends(case, rt, memory, plan)
    } else if case.value("rooms").is_some() {
        run_with_lists(case, rt, memory, plan, rooms)
    } else {
        let logs = plan.logs;
        let config = plan.config;
        run(memory, case.alloc, logs, config, plan.gate, rt)
    };
    put_answer(case, answer, plan.logs);
    put_requests(case, memory, before);
}

/// A count that the gate of a run adds to, and that its memory looks at.
fn counter(case: &Case) -> Option<(Arc<AtomicU64>, Arc<AtomicU64>)> {
    let Ok(sent) = Arc::new(case.alloc, AtomicU64::new(0)) else {
        case.no_memory();
        return None;
    };
    match Arc::try_clone(&sent) {
        Ok(theirs) => Some((sent, theirs)),
        Err(_) => {
            case.no_memory();
            None
        }
    }
}

/// The gate of a run, which counts what is sent. The second hart sends after `first` messages of the first one, or both
/// wait for one another.
fn gate_of(case: &Case, sent: Arc<AtomicU64>, harts: usize) -> Calls {
    let first = case.number("first", 0);
    Calls::new(case, sent, harts, first)
}

/// `run SETTINGS`: what comes of a run over threads, or why nothing is sent; and how many calls of the gate each hart
/// makes.
pub(crate) fn run_over_threads<R: Threads + Wait + Sync>(case: &Case, rt: &R, program: &Program) {
    let config = config_of(case);
    let logs = logs_in(case, program);
    let Some((sent, theirs)) = counter(case) else {
        return;
    };
    let memory = memory_of(case, theirs, config.capacity);
    let gate = gate_of(case, sent, logs.len());
    let plan = Plan {
        logs: logs.as_slice(),
        config,
        gate: &gate,
    };
    put_run(case, rt, &memory, &plan);
    let calls = gate.made(case);
    put_counts(case, "calls", calls.as_slice());
}

/// The arguments of the subcommand `bench` with these settings, and with no paths.
fn asked_with<'a>(case: &Case, config: Config) -> Bench<'a> {
    Bench {
        program: ProgramArgs {
            base: "",
            also: Vec::new(case.alloc),
            image: "",
        },
        logs: Vec::new(case.alloc),
        period: config.period,
        mode: config.mode,
        capacity: config.capacity,
        progress: false,
    }
}

/// `bench SETTINGS`: what the subcommand `bench` prints of the logs, and how it ends; and how many calls of the gate each
/// hart makes.
pub(crate) fn benched<R: Threads + Wait + Sync>(case: &Case, rt: &R, program: &Program) {
    let config = config_of(case);
    let logs = logs_in(case, program);
    let Some((sent, _)) = counter(case) else {
        return;
    };
    let gate = gate_of(case, sent, logs.len());
    let mut text = Vec::new(case.alloc);
    let asked = asked_with(case, config);
    match bench_logs(case.alloc, rt, &asked, &gate, logs.as_slice(), &mut text) {
        Ok(status) => {
            case.put_text(text.as_slice());
            case.put_debug(status);
        }
        Err(fault) => case.put_part(fault),
    }
    let calls = gate.made(case);
    put_counts(case, "calls", calls.as_slice());
}

/// `heap SIZE replay|run SETTINGS`: what comes of a replay or a run in a heap of so many bytes, and how many are used
/// then.
pub(crate) fn in_heap<R: Threads + Wait + Sync>(case: &Case, rt: &R, program: &Program) {
    let (size, way) = (case.word(), case.word());
    let size = case.decimal(size) as usize;
    let config = config_of(case);
    let logs = logs_in(case, program);
    let turns = turns_of(case);
    let Ok(heap) = LocalHeap::new(case.alloc, size) else {
        return case.no_memory();
    };
    let answer = match way {
        "replay" => replay(&heap, logs.as_slice(), config, turns.as_slice()),
        _ => run(&heap, case.alloc, logs.as_slice(), config, &Open, rt),
    };
    put_answer(case, answer, logs.as_slice());
    case.put_part(heap.used());
    case.put(" bytes used");
}

/// Whether the outcomes of a hart are the same.
fn is_alike(one: &HartOutcome, other: &HartOutcome) -> bool {
    (one.taken, one.bytes, one.closed, one.refused)
        == (other.taken, other.bytes, other.closed, other.refused)
        && one.packets.as_slice() == other.packets.as_slice()
        && one.decoded.as_slice() == other.decoded.as_slice()
}

/// Whether outcomes are the same.
fn are_alike(one: &Outcome, other: &Outcome) -> bool {
    let mut alike = one.stop == other.stop && one.harts.len() == other.harts.len();
    for (one, other) in one.harts.iter().zip(&other.harts) {
        alike = alike && is_alike(one, other);
    }
    alike
}

/// Appends what comes of a run over threads, and whether the same comes of a replay.
fn put_both<R: Threads + Wait + Sync>(
    case: &Case,
    rt: &R,
    by_turns: &Outcome,
    logs: &[LegalLog<'_>],
    config: Config,
) {
    let Ok(by_threads) = run(case.alloc, case.alloc, logs, config, &Open, rt) else {
        return case.unread();
    };
    put_outcome(case, &by_threads, logs);
    case.put_part(if are_alike(by_turns, &by_threads) {
        "as by turns"
    } else {
        "otherwise by turns"
    });
}

/// `alike SETTINGS`: what comes of a run over threads, and whether the same comes of a replay.
pub(crate) fn alike<R: Threads + Wait + Sync>(case: &Case, rt: &R, program: &Program) {
    let config = config_of(case);
    let logs = logs_in(case, program);
    let turns = turns_of(case);
    match replay(case.alloc, logs.as_slice(), config, turns.as_slice()) {
        Ok(by_turns) => put_both(case, rt, &by_turns, logs.as_slice(), config),
        Err(_) => case.unread(),
    }
}
