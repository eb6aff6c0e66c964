//! A program of five instructions, the logs of harts that run it, and how they are sent.

use bench::Config;
use cases::{Case, Refusing, cut, events_of, mode_of, piece_of};
use legalpath::LegalLog;
use rvclass::Program;
use std::alloc::Global;

/// Two `nop`, a jump to the address in `ra`, a branch to itself, and a jump to itself.
pub(crate) const WORDS: &str = "00000013 00000013 00008067 00000063 0000006f";

/// The rows of logs of four kinds: branches, a jump to `ra`, traps, and jumps of an instruction to itself.
const KINDS: [&str; 4] = [
    "33*8000000c,5,3,,",
    "80000000,0,3,, 80000004,0,3,, 80000008,6,3,, 80000004,0,3,,",
    "80000000,0,3,, 80000004,1,3,b,0 80000000,0,3,, 80000004,2,3,7,",
    "3*80000010,0,3,,",
];

/// The program of these words.
pub(crate) fn program_of(alloc: Global, words: &str) -> Option<Program> {
    let (base, image) = piece_of(&Case::new(alloc, ""), words);
    Program::new(base, image).ok()
}

/// Adds the log of these rows.
fn add_log<'p>(case: &Case, program: &'p Program, rows: &str, logs: &mut Vec<LegalLog<'p>>) {
    let own = case.over(rows);
    let events = events_of(&own);
    case.join(&own);
    if events.len() <= 1 << 24 {
        if let Ok(log) = LegalLog::new(program, events) {
            return case.push(logs, log);
        }
    }
    case.unread();
}

/// The logs of this many harts, of the four kinds in turn, and then one of these rows if there are some.
pub(crate) fn logs_of<'p>(
    case: &Case,
    program: &'p Program,
    harts: u16,
    long: &str,
) -> Vec<LegalLog<'p>> {
    let mut logs = Vec::new(case.alloc);
    for hart in 0..usize::from(harts) {
        add_log(case, program, KINDS[hart % 4], &mut logs);
    }
    if !long.is_empty() {
        add_log(case, program, long, &mut logs);
    }
    logs
}

/// The logs of a case: as many as its harts, and then one more if there is one. A setting that is not known is noted.
pub(crate) fn logs_in<'p>(case: &Case, program: &'p Program) -> Vec<LegalLog<'p>> {
    check_names(case);
    let harts = case.small("harts", 4);
    let long = case.named("long");
    logs_of(case, program, harts, long)
}

/// The names of settings.
const SETTINGS: [&str; 18] = [
    "harts", "long", "period", "mode", "capacity", "keep", "rooms", "room", "turns", "each",
    "last", "take", "refuse", "fails", "held", "requests", "first", "report",
];

/// Notes an argument that has not the name of a setting.
fn check_names(case: &Case) {
    for word in case.text().split_whitespace() {
        let name = cut(word, '=').0;
        let mut known = false;
        for setting in SETTINGS {
            known = known || setting == name;
        }
        if !known {
            case.unread();
        }
    }
}

/// How a case sends messages.
pub(crate) fn config_of(case: &Case) -> Config {
    let mode = case.value("mode").unwrap_or("diff");
    let capacity = case.number("capacity", 1);
    if capacity > 0xffff_ffff {
        case.unread();
    }
    Config {
        period: case.small("period", 1024),
        mode: mode_of(case, mode),
        capacity: (capacity & 0xffff_ffff) as u32,
        keep: case.named("keep") == "yes",
    }
}

/// `legal ROWS`: whether these events are kept as a legal log or given back, with how many requests for memory.
pub(crate) fn kept(case: &Case, program: &Program) {
    let events = events_of(case);
    let memory = Refusing::new(case.alloc, u64::MAX);
    let Ok(list) = events.to_vec(&memory) else {
        return case.no_memory();
    };
    if list.len() > 1 << 24 {
        return case.unread();
    }
    let before = memory.requests();
    let same = match LegalLog::new(program, list) {
        Ok(log) => {
            case.put_part("kept");
            log.events() == events.as_slice()
        }
        Err((_, back)) => {
            case.put_part("given back");
            back.as_slice() == events.as_slice()
        }
    };
    if !same {
        case.put_part("others");
    }
    case.put_part(memory.requests().saturating_sub(before));
    case.put(" requests");
}
