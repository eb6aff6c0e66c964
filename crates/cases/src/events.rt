//! Events of logs, as rows.

use crate::case::{Case, cut};
use retire::Event;

/// The most events of a log.
const MOST_EVENTS: usize = 1 << 24;

/// The event of a row's fields after the address.
fn event_at(case: &Case, place: u64, fields: &str) -> Event {
    let (itype, rest) = cut(fields, ',');
    let (privilege, rest) = cut(rest, ',');
    let (cause, tval) = cut(rest, ',');
    let itype = case.byte_or_0(itype);
    let privilege = case.byte_or_0(privilege);
    let cause = case.byte_or_0(cause);
    let tval = case.hex_or_0(tval);
    if itype == 1 || itype == 2 {
        return Event::Trap {
            epc: place,
            privilege,
            interrupt: itype == 2,
            cause,
            tval,
        };
    }
    Event::Retire {
        addr: place,
        itype,
        privilege,
    }
}

/// The event at another place.
fn moved(event: &Event, to: u64) -> Event {
    match *event {
        Event::Retire {
            itype,
            privilege,
            ..
        } => Event::Retire {
            addr: to,
            itype,
            privilege,
        },
        Event::Trap {
            privilege,
            interrupt,
            cause,
            tval,
            ..
        } => Event::Trap {
            epc: to,
            privilege,
            interrupt,
            cause,
            tval,
        },
    }
}

/// Adds the events of rows, `ADDR,ITYPE,PRIV,CAUSE,TVAL` with a `/` between two of them, at a time of several: each further
/// time comes so far after the one before it as the step of `ADDR+STEP` says.
fn add_events(case: &Case, events: &mut Vec<Event>, rows: &str, time: u64) {
    for row in rows.split('/') {
        let (place, fields) = cut(row, ',');
        let (first, step) = cut(place, '+');
        let (first, step) = (case.hex(first), case.hex_or_0(step));
        let place = first.wrapping_add(step.wrapping_mul(time));
        let event = event_at(case, place, fields);
        case.push(events, event);
    }
}

/// The events of the arguments that are left, as many as a log may have.
pub fn events_of(case: &Case) -> Vec<Event> {
    let mut events = Vec::new(case.alloc);
    for word in case.text().split_whitespace() {
        let (count, rows) = case.times(word);
        for time in 0..count {
            add_events(case, &mut events, rows, time);
        }
    }
    if events.len() > MOST_EVENTS {
        case.unread();
        events.clear();
    }
    events
}

/// How many of these events are the first one again, each so far after the one before it.
fn run_of(events: &[Event], first: &Event, step: u64) -> usize {
    let mut to = first.place();
    for (i, event) in events.iter().enumerate() {
        if *event != moved(first, to) {
            return i;
        }
        to = to.wrapping_add(step);
    }
    events.len()
}

/// Appends numbers in hexadecimal, with a comma before each.
fn put_numbers(case: &Case, numbers: &[u64]) {
    for number in numbers {
        case.put(",");
        case.put_hex(*number);
    }
}

/// Appends the fields of an event's row after the address.
fn put_fields(case: &Case, event: &Event) {
    let (itype, cause, tval) = match *event {
        Event::Retire { itype, .. } => (itype, None, None),
        Event::Trap {
            interrupt: true,
            cause,
            ..
        } => (2, Some(u64::from(cause)), None),
        Event::Trap { cause, tval, .. } => (1, Some(u64::from(cause)), Some(tval)),
    };
    put_numbers(case, &[u64::from(itype), u64::from(event.privilege())]);
    for field in [cause, tval] {
        match field {
            Some(number) => put_numbers(case, &[number]),
            None => case.put(","),
        }
    }
}

/// Appends the first of these events, or as many as make a run of three or more, as a word. Returns how many they are.
fn put_run(case: &Case, events: &[Event], first: &Event) -> usize {
    let second = events.get(1).unwrap_or(first);
    let step = second.place().saturating_sub(first.place());
    let mut count = run_of(events, first, step);
    if count < 3 {
        count = 1;
        case.put_word("");
    } else {
        case.put_word(count);
        case.put("*");
    }
    case.put_hex(first.place());
    if count > 1 && step > 0 {
        case.put("+");
        case.put_hex(step);
    }
    put_fields(case, first);
    count
}

/// Appends the rows of events. Three or more that follow one another by the same step are one word.
pub fn put_rows(case: &Case, events: &[Event]) {
    let mut rest = events;
    for _ in 0..events.len() {
        if let Some(first) = rest.first() {
            let count = put_run(case, rest, first);
            rest = rest.get(count..).unwrap_or(&[]);
        }
    }
}
