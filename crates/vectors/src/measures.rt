//! Cases of what traces cost (`captures`).

ghost use Rattle.std.specs.Prelude.{◌≤◌, All, length};
ghost use Rattle.captures.specs.Bounds.{AreWithin, most_counted};

use crate::encoding::{legal_log, settings_of};
use captures::{LogMeasures, Measures, measure, write_measures, write_measures_of};
use cases::{Case, events_of};
use legalpath::LegalLog;
use payload::Mode;
use retire::Event;
use rvclass::Program;

/// The most events of a log that is counted in pieces.
const MOST_CUT: usize = 100;

/// A log, and how it is counted.
#[derive(Clone, Copy)]
struct Asked<'a> {
    program: &'a Program,
    log: &'a [Event],
    period: u16,
    mode: Mode,
}

/// What is counted of a log that comes in these pieces, each of which has at most [`MOST_CUT`] events.
fn counted(asked: Asked<'_>, pieces: [&[Event]; 3]) -> Measures
    ensures { AreWithin most_counted result }
{
    let mut measures = LogMeasures::new(asked.period.max(1), asked.mode);
    for piece in pieces {
        if piece.len() <= MOST_CUT && measures.rows() <= 1_000 {
            measures.add(asked.program, piece);
        }
    }
    measures.finish(asked.program)
}

/// What is counted of the events of a log one at a time.
fn counted_singly(case: &Case, asked: Asked<'_>) -> Measures {
    let mut measures = LogMeasures::new(asked.period.max(1), asked.mode);
    for event in asked.log {
        if measures.rows() <= 1_000 {
            measures.add(asked.program, &[*event]);
        }
    }
    if measures.rows() != asked.log.len() as u64 {
        case.unread();
    }
    measures.finish(asked.program)
}

/// Appends something else that is counted in another way.
fn put_other(case: &Case, way: &str, found: Measures, wanted: Measures) {
    if found != wanted {
        case.put_word(way);
        case.put_word("");
        case.put_debug(found);
    }
}

/// Appends what else is counted of a log that is cut in two, of which the back is also cut.
fn put_cut(case: &Case, asked: Asked<'_>, first: usize, wanted: Measures) {
    let (front, rest) = asked.log.split_at(first.min(asked.log.len()));
    put_other(case, "in two", counted(asked, [front, rest, &[]]), wanted);
    put_other(
        case,
        "after none",
        counted(asked, [&[], front, rest]),
        wanted,
    );
    for second in 0..rest.len().saturating_add(1) {
        let (mid, back) = rest.split_at(second.min(rest.len()));
        put_other(case, "in three", counted(asked, [front, mid, back]), wanted);
    }
}

/// Appends what else is counted of a log in other ways: where it is legal, and in pieces, wherever it is cut.
fn put_others(case: &Case, asked: Asked<'_>, wanted: Measures) {
    if let Some(legal) = legal_log(case, asked.program, asked.log) {
        let whole = measure(&legal, asked.period.max(1), asked.mode);
        put_other(case, "of a legal log", whole, wanted);
    }
    for first in 0..asked.log.len().saturating_add(1) {
        put_cut(case, asked, first, wanted);
    }
}

/// `count PERIOD MODE ROWS`: what is counted of a log, one event at a time; so of it as a whole, and in two and three
/// pieces, wherever it is cut.
pub(crate) fn count_case(case: &Case, program: &Program) {
    let (period, mode) = settings_of(case);
    let log = events_of(case);
    if period == 0 || log.len() > MOST_CUT {
        return case.unread();
    }
    let asked = Asked {
        program,
        log: log.as_slice(),
        period,
        mode,
    };
    let found = counted_singly(case, asked);
    case.put_debug(found);
    put_others(case, asked, found);
}

/// `count-alike ROWS`: what differs between the ways to count a log, at several periods and in both modes.
pub(crate) fn count_alike_case(case: &Case, program: &Program) {
    let log = events_of(case);
    if log.len() > MOST_CUT {
        return case.unread();
    }
    for period in [1u16, 4, 1_024] {
        for mode in [Mode::Differential, Mode::Full] {
            let asked = Asked {
                program,
                log: log.as_slice(),
                period,
                mode,
            };
            let found = counted_singly(case, asked);
            put_others(case, asked, found);
        }
    }
}

/// Reads the events of the next log, up to a `|`.
fn next_log(case: &Case) -> Vec<Event> {
    let own = case.over(case.part('|'));
    let events = events_of(&own);
    case.join(&own);
    events
}

/// The legal logs of so many harts: two, one after the other, over and over.
fn logs_of<'p>(
    case: &Case,
    program: &'p Program,
    harts: u16,
    (even, odd): (&[Event], &[Event]),
) -> Vec<LegalLog<'p>> {
    let mut logs = Vec::new(case.alloc);
    for hart in 0..harts {
        let log = if hart % 2 == 0 { even } else { odd };
        if let Some(legal) = legal_log(case, program, log) {
            case.push(&mut logs, legal);
        }
    }
    logs
}

/// Appends the table of these measures.
fn put_table(case: &Case, each: &[Measures])
    requires few { length each.now ≤ 2 }
    requires within { All (AreWithin most_counted) each.now }
{
    let mut table = Vec::new(case.alloc);
    let written = write_measures_of(each, &mut table);
    case.granted(written);
    case.put_text(table.as_slice());
}

/// Appends the table of the logs of harts.
fn put_logs(case: &Case, logs: &[LegalLog<'_>], (period, mode): (u16, Mode)) {
    if period == 0 || logs.len() > 1_024 {
        return case.unread();
    }
    let mut table = Vec::new(case.alloc);
    let written = write_measures(logs, period, mode, &mut table);
    case.granted(written);
    case.put_text(table.as_slice());
}

/// What is counted of a log that comes in one piece.
fn counted_whole(program: &Program, log: &[Event], settings: (u16, Mode)) -> Measures
    ensures { AreWithin most_counted result }
{
    let (period, mode) = settings;
    let asked = Asked {
        program,
        log,
        period,
        mode,
    };
    counted(asked, [log, &[], &[]])
}

/// `measure PERIOD MODE HARTS LOG | LOG`: the table of harts, of which each second one has the second log.
/// `measure-counted`: of at most two harts, by what is counted of their logs.
pub(crate) fn measure_case(case: &Case, program: &Program, verb: &str) {
    let settings = settings_of(case);
    let harts = case.next_short();
    let (even, odd) = (next_log(case), next_log(case));
    if verb == "measure" {
        let logs = logs_of(case, program, harts, (even.as_slice(), odd.as_slice()));
        return put_logs(case, logs.as_slice(), settings);
    }
    let one = counted_whole(program, even.as_slice(), settings);
    let other = counted_whole(program, odd.as_slice(), settings);
    match harts {
        0 => put_table(case, &[]),
        1 => put_table(case, &[one]),
        _ => put_table(case, &[one, other]),
    }
}
