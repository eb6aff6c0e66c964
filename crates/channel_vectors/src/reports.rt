//! Reports of outcomes that are made by hand.

use crate::logs::logs_of;
use crate::outcomes::put_outcome;
use bench::{HartOutcome, Outcome, Stop, report};
use cases::{Case, FailingWriter, Refusing, events_of};
use legalpath::LegalLog;
use retire::WriteFault;
use rvclass::Program;
use std::io::Write;

/// The stop of a word `REASON:HART`, or none.
fn stop_of(case: &Case, word: &str) -> Option<Stop> {
    let (reason, hart) = word.split_once(':').unwrap_or((word, "0"));
    let hart = case.short(hart);
    match reason {
        "memory" => Some(Stop::Memory(hart)),
        "back" => Some(Stop::HandedBack(hart)),
        "ended" => Some(Stop::Ended(hart)),
        "whole" => None,
        _ => {
            case.unread();
            None
        }
    }
}

/// The outcome of a hart, by `PACKETS BYTES closed|open` and then its events.
fn hart_of(case: &Case, words: &str) -> HartOutcome {
    let own = case.over(words.trim());
    let (taken, bytes, closed) = (own.word(), own.word(), own.word());
    let hart = HartOutcome {
        packets: Vec::new(case.alloc),
        taken: own.decimal(taken),
        bytes: own.decimal(bytes),
        decoded: events_of(&own),
        closed: closed == "closed",
        refused: false,
    };
    case.join(&own);
    hart
}

/// The outcome of two harts, by `STOP | HART | HART`.
fn outcome_in(case: &Case) -> Outcome {
    let (stop, first, second) = (case.part('|'), case.part('|'), case.text());
    let mut harts = Vec::new(case.alloc);
    for words in [first, second] {
        let hart = hart_of(case, words);
        case.push(&mut harts, hart);
    }
    Outcome {
        harts,
        stop: stop_of(case, stop.trim()),
    }
}

/// `report STOP | HART | HART`: the report of these outcomes of two harts, whose logs are the first two.
pub(crate) fn reported(case: &Case, program: &Program) {
    let logs = logs_of(case, program, 2, "");
    let outcome = outcome_in(case);
    let own = case.over("report=yes");
    put_outcome(&own, &outcome, logs.as_slice());
    case.put_first(&own);
}

/// `grown FAILS STOP | HART | HART`: what is written of such a report where memory for more of it is refused, and why.
pub(crate) fn grown(case: &Case, program: &Program) {
    let fails = case.word();
    let fails = case.decimal(fails);
    let logs = logs_of(case, program, 2, "");
    let outcome = outcome_in(case);
    let memory = Refusing::new(case.alloc, fails);
    let mut text = Vec::new(&memory);
    let answer = put_report(&outcome, logs.as_slice(), &mut text);
    case.put_text(text.as_slice());
    match answer {
        Ok(()) => case.put_word("no such request"),
        Err(fault) => case.put_word(fault),
    }
}

/// Writes the report of as many harts as there are logs.
fn put_report<W: Write>(
    outcome: &Outcome,
    logs: &[LegalLog<'_>],
    sink: &mut W,
) -> Result<(), WriteFault> {
    if logs.len() != outcome.harts.len() {
        return Err(WriteFault::Write);
    }
    report(outcome, logs, sink)
}

/// Whether a writer that takes a byte at each call and fails at one, after so many, holds as many of the first bytes of
/// a report, and its fault is returned; or, where no call fails, all of the report.
fn is_cut(
    case: &Case,
    outcome: &Outcome,
    logs: &[LegalLog<'_>],
    text: &[u8],
    calls: usize,
) -> bool {
    let mut sink = FailingWriter {
        held: Vec::new(case.alloc),
        most: 1,
        calls,
    };
    let answer = put_report(outcome, logs, &mut sink);
    let wanted = if calls < text.len() {
        Err(WriteFault::Write)
    } else {
        Ok(())
    };
    answer == wanted && sink.held.as_slice() == &text[..calls.min(text.len())]
}

/// `cut STOP | HART | HART`: such a report, which is cut where a write fails, at each byte.
pub(crate) fn cut_at_each(case: &Case, program: &Program) {
    let logs = logs_of(case, program, 2, "");
    let outcome = outcome_in(case);
    let mut text = Vec::new(case.alloc);
    if put_report(&outcome, logs.as_slice(), &mut text).is_err() {
        case.no_memory();
    }
    case.put_text(text.as_slice());
    let mut cut = true;
    for calls in 0..=text.len() {
        cut = cut && is_cut(case, &outcome, logs.as_slice(), text.as_slice(), calls);
    }
    case.put_word(if cut { "cut at each byte" } else { "not cut" });
}
