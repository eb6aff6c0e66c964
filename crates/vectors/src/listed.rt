//! Cases of captures as text: dumps (`captures`), listings (`listing`) and audits (`auditing`).

use crate::captured::{Captured, put_fault};
use crate::lossy::{is_lost, join_harts};
use auditing::{Audit, Fate};
use captures::{dump_capture, read_messages};
use cases::{Case, text_of};
use listing::{Form, ListInput, list_capture};
use message::{HartRange, NoProgress};
use symbols::Symbols;

/// `dump-capture`: the text of the capture.
pub(crate) fn dump_capture_case(case: &Case, bytes: &[u8]) {
    let mut text = Vec::new(case.alloc);
    match dump_capture(bytes, &mut text) {
        Ok(dumped) => {
            case.put_text(text.as_slice());
            if dumped.bad {
                case.put("bad payloads");
            }
            if let Some((number, fault)) = dumped.fault {
                case.put_filled("message #: ", &[number]);
                case.put_shown(fault);
            }
        }
        Err(_) => case.no_memory(),
    }
}

/// Appends the listing of a capture, and how many of its harts are closed.
fn put_listing(case: &Case, captured: Captured<'_>, harts: u16, symbols: Option<&Symbols>) {
    let input = ListInput {
        program: captured.program,
        harts,
        only: HartRange::ALL,
        capture: captured.bytes,
        symbols,
        form: Form::Lines { rows: false },
    };
    let mut text = Vec::new(case.alloc);
    let listed = list_capture(case.alloc, &input, &mut text, &NoProgress);
    let Some(listed) = case.granted(listed) else {
        return;
    };
    case.put_text(text.as_slice());
    let mut closed: u64 = 0;
    for is_closed in &listed.closed {
        if *is_closed {
            closed = closed.saturating_add(1);
        }
    }
    case.put_filled("# of # closed", &[closed, listed.closed.len() as u64]);
    put_fault(case, listed.fault);
}

/// `list-capture HARTS`, `list-capture HARTS "SYMBOLS"`: the listing of the capture, with places named by symbols where
/// there are some, and how many harts are closed.
pub(crate) fn list_capture_case(case: &Case, captured: Captured<'_>) {
    let harts = case.next_short();
    if case.text().is_empty() {
        return put_listing(case, captured, harts, None);
    }
    let symbols = Symbols::new(case.alloc, text_of(case));
    if let Some(symbols) = case.read(symbols) {
        put_listing(case, captured, harts, Some(&symbols));
    }
}

/// Appends how many messages of a hart were sent, came and are lost, what else became of them, and the runs of those that are
/// lost.
fn put_hart(case: &Case, audit: &Audit<'_>, hart: usize) {
    if hart < audit.harts() {
        let tally = audit.tally(hart);
        let counts = [tally.sent, tally.came, tally.lost];
        case.put_filled("# sent, # came, # lost:", &counts);
        let others = tally.repeated.max(tally.late).max(tally.changed);
        if others > 0 || tally.whole {
            case.put(" and others");
        }
        let mut runs = audit.lost(hart);
        for _ in 0..tally.sent.saturating_add(1) {
            if let Some(run) = runs.next() {
                case.put_word(run.first);
                if run.first != run.last {
                    case.put_filled("-#", &[run.last]);
                }
            }
        }
    }
    case.put("\n");
}

/// `audit-capture LOST`: what an audit finds where all messages of the capture come in order but for those that are
/// lost, for each hart.
pub(crate) fn audit_capture_case(case: &Case, bytes: &[u8]) {
    let lost = case.text();
    let read = read_messages(case.alloc, bytes);
    let Some(read) = case.read(read) else {
        return;
    };
    let audit = Audit::new(case.alloc, bytes);
    let Some(mut audit) = case.read(audit) else {
        return;
    };
    for message in &read.messages {
        if !is_lost(case, lost, message.number) && audit.take(message) != Fate::InOrder {
            case.put("not in order ");
        }
    }
    for hart in 0..audit.harts() {
        put_hart(case, &audit, hart);
    }
    join_harts(case);
    if audit.strangers() > 0 {
        case.put("; strangers");
    }
}
