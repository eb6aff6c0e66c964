//! Cases of logs and the paths that they take through a program (`legalpath`, `explaining`).

use cases::{Case, events_of, put_quoted};
use explaining::{explain, explain_row};
use legalpath::{LegalLog, Next, PathCheck, PathFault, Why, check, successor};
use retire::Event;
use rvclass::Program;
use symbols::Symbols;

/// The most events of a log that is also checked in two pieces.
pub(crate) const MOST_CUT: usize = 100;

/// Appends what a log is found to be.
fn put_found(case: &Case, log: &[Event], found: Result<(), PathFault>) {
    match found {
        Ok(()) => case.put_filled("legal, # events", &[log.len() as u64]),
        Err(fault) => case.put_shown(fault),
    }
}

/// What a checker finds of a log that comes in two pieces.
fn checked_in_pieces(program: &Program, front: &[Event], back: &[Event]) -> Result<(), PathFault> {
    let mut checker = PathCheck::new();
    if front.len() > MOST_CUT || back.len() > MOST_CUT {
        return Ok(());
    }
    checker.pass(program, front)?;
    checker.pass(program, back)
}

/// Appends what a list that is kept with its program is found to be, and where it is not given back.
fn put_kept(case: &Case, program: &Program, log: &[Event]) {
    let list = case.copied(log);
    if list.len() > 1 << 24 {
        return case.unread();
    }
    let (found, is_kept) = match LegalLog::new(program, list) {
        Ok(legal) => {
            let is_kept = legal.events() == log && legal.program().base() == program.base();
            (Ok(()), is_kept)
        }
        Err((fault, back)) => (Err(fault), back.as_slice() == log),
    };
    put_found(case, log, found);
    if !is_kept {
        case.put(", not given back");
    }
}

/// `check ROWS`: whether a log is legal, and the first fault of one that is not; so in two pieces, wherever it is cut, and
/// where it is kept with its program.
pub(crate) fn check_case(case: &Case, program: &Program) {
    let log = events_of(case);
    let log = log.as_slice();
    if log.len() > 1 << 24 {
        return case.unread();
    }
    put_found(case, log, check(program, log));
    case.end_first_way();
    if log.len() <= MOST_CUT {
        for count in 0..log.len().saturating_add(1) {
            let (front, back) = log.split_at(count.min(log.len()));
            put_found(case, log, checked_in_pieces(program, front, back));
            case.end_way("cut");
        }
    }
    put_kept(case, program, log);
    case.end_way("kept");
}

/// `successor ROW`: where an event leads.
pub(crate) fn successor_case(case: &Case, program: &Program) {
    let log = events_of(case);
    let Some(event) = log.first() else {
        return case.unread();
    };
    match successor(program, event) {
        Next::One(addr) => case.put_hex(addr),
        Next::Any => case.put("any"),
        Next::NoneInside => case.put("none"),
    }
}

/// Appends the lines that explain a fault of a log, and whether they are others by its row and the one before it alone.
fn put_explained(case: &Case, program: &Program, log: &[Event], fault: PathFault) {
    let mut lines = Vec::new(case.alloc);
    let written = explain(program, log, fault, None::<&Symbols>, &mut lines);
    case.granted(written);
    let row = fault.row as usize;
    let mut own = Vec::new(case.alloc);
    if let Some(event) = log.get(row.wrapping_sub(1)) {
        let before = log.get(row.wrapping_sub(2)).copied();
        let written = explain_row(program, before, event, fault, None::<&Symbols>, &mut own);
        case.granted(written);
    }
    put_quoted(case, lines.as_slice());
    if own.as_slice() != lines.as_slice() {
        case.put(", others by its row");
    }
}

/// `explain ROWS`: why a log is not legal, and the lines that explain it.
pub(crate) fn explain_case(case: &Case, program: &Program) {
    let log = events_of(case);
    let log = log.as_slice();
    if log.len() > 1 << 24 {
        return case.unread();
    }
    let Err(fault) = check(program, log) else {
        return case.put("legal");
    };
    case.put_word(fault);
    put_explained(case, program, log, fault);
}

/// `explain-types ROWS`: the lines that explain a row as one of a wrong type. Those of the first two rows come, and those
/// that are not as two rows before.
pub(crate) fn explain_types_case(case: &Case, program: &Program) {
    let log = events_of(case);
    let mut texts = [String::new(case.alloc), String::new(case.alloc)];
    for row in 1..log.len().saturating_add(1) {
        let fault = PathFault {
            row: row.min(1 << 24) as u32,
            why: Why::WrongType,
        };
        let own = case.over("");
        put_explained(&own, program, log.as_slice(), fault);
        case.join(&own);
        let text = own.taken();
        let before = &mut texts[row % 2];
        if before.as_str() != text.as_str() {
            case.put_word(text.as_str());
            *before = text;
        }
    }
}
