//! What comes of the harts of a replay, of a run, or of messages that were taken in by hand, as text.

use bench::{Outcome, is_whole, report};
use cases::Case;
use legalpath::LegalLog;
use std::alloc::Allocator;

/// Appends a name, and the number of each hart. A number that is that of the hart four places before is left out.
pub(crate) fn put_counts(case: &Case, name: &str, counts: &[u64]) {
    case.put_part("");
    case.put(name);
    for (hart, count) in counts.iter().enumerate() {
        if hart < 4 {
            case.put_word(*count);
        } else if counts.get(hart - 4) != Some(count) {
            case.put_filled(", hart # #", &[hart as u64, *count]);
        }
    }
}

/// Appends what comes of each hart, where that is asked for its report first: whether every log came back whole, how many
/// packets of each hart are kept, and which harts are closed and refused.
pub(crate) fn put_outcome<A: Allocator>(case: &Case, outcome: &Outcome<A>, logs: &[LegalLog<'_>]) {
    if logs.len() != outcome.harts.len() {
        return case.unread();
    }
    if case.named("report") == "yes" {
        let mut text = Vec::new(case.alloc);
        if report(outcome, logs, &mut text).is_err() {
            case.no_memory();
        }
        case.put_text(text.as_slice());
    } else {
        case.put_part("");
    }
    case.put(if is_whole(outcome, logs) {
        "whole"
    } else {
        "not whole"
    });
    put_harts(case, outcome);
}

/// Appends how many packets of each hart are kept, which of the first four harts are open and refused, and how many harts
/// are open where there are more.
fn put_harts<A: Allocator>(case: &Case, outcome: &Outcome<A>) {
    let mut kept = Vec::new(case.alloc);
    let mut open: u64 = 0;
    for hart in &outcome.harts {
        case.push(&mut kept, hart.packets.len() as u64);
        open = open.saturating_add(u64::from(!hart.closed));
    }
    put_counts(case, "kept", kept.as_slice());
    for (number, hart) in outcome.harts.iter().take(4).enumerate() {
        if !hart.closed {
            case.put_part(number);
            case.put(" open");
        }
        if hart.refused {
            case.put_part(number);
            case.put(" refused");
        }
    }
    if outcome.harts.len() > 4 && open > 0 {
        case.put_part(open);
        case.put(" open in all");
    }
}
