//! Verbs that make buffers.
//!
//! - `bytes NAME BYTES`: these bytes. `add NAME BYTES` adds them.
//! - `let NAME TEXT`: the text, as of an event.
//! - `line NAME TEXT`: adds the text and a line's end.
//! - `log NAME ROW..`: the text of a log of these rows; `N*` before a row stands for N of it.
//! - `capture NAME mode=M period=P harts=H`: what a capture of version 2 begins with.
//! - `sent NAME HART.NUMBER:BYTES..`: adds messages.
//! - `messages NAME hart=H payloads=BYTES,..`: adds the messages with which a hart sends payloads, numbered from 0, or
//!   from `from`, and each by `by` more than the one before. `harts=A..B` does so for each of these harts, or with
//!   `every=N` each Nth of them, one after the other, or with `turns=1` number by number. `after` is what comes after
//!   each message.
//! - `count NAME from=A step=S times=N text=TEXT`: adds N lines of the text, in which `%d` is the number, `%x` the number
//!   in hexadecimal.

use crate::arguments::{add_bytes, number_of, number_or};
use crate::fields::low_16;
use crate::store::Store;
use cases::{Case, cut};

/// The names of columns of a log.
const COLUMNS: &str = "addr,itype,priv,cause,tval\n";

/// What a header begins with.
const MARK: &[u8] = b"\xff\xffrvtrace2\0";

/// Adds bytes.
fn add(case: &Case, bytes: &mut Vec<u8>, more: &[u8]) {
    let done = bytes.extend_from_slice(more);
    case.note(done);
}

/// Adds a row of a log so often.
fn add_row(case: &Case, bytes: &mut Vec<u8>, row: &str, times: u64) {
    for _ in 0..times {
        add(case, bytes, row.as_bytes());
        add(case, bytes, b"\n");
    }
}

/// Adds the text of a log.
fn add_log(case: &Case, bytes: &mut Vec<u8>) {
    add(case, bytes, COLUMNS.as_bytes());
    for one in case.text().split(' ') {
        let (times, row) = case.times(one);
        if !row.is_empty() {
            add_row(case, bytes, row, times);
        }
    }
}

/// Adds a header.
fn add_header(case: &Case, bytes: &mut Vec<u8>) {
    add(case, bytes, MARK);
    let mode = number_or(case, "mode", 0);
    case.push(bytes, (mode & 0xff) as u8);
    for name in ["period", "harts"] {
        let number = number_or(case, name, 0);
        add(case, bytes, &low_16(number).to_le_bytes());
    }
}

/// Adds a message.
fn add_message(case: &Case, bytes: &mut Vec<u8>, hart: u64, number: u64, payload: &[u8]) {
    add(case, bytes, &low_16(hart).to_le_bytes());
    add(case, bytes, &number.to_le_bytes());
    case.push(bytes, payload.len().min(255) as u8);
    add(case, bytes, payload);
}

/// Adds the messages of arguments.
fn add_sent(case: &Case, store: &Store, bytes: &mut Vec<u8>) {
    for word in case.text().split_whitespace() {
        let (hart, rest) = cut(word, '.');
        let (number, text) = cut(rest, ':');
        let (hart, number) = (number_of(case, hart), number_of(case, number));
        let mut payload = Vec::new(case.alloc);
        add_bytes(case, store, text, &mut payload);
        add_message(case, bytes, hart, number, payload.as_slice());
    }
}

/// What messages have in common.
#[derive(Clone, Copy)]
struct Sending<'a> {
    /// The first hart, and the one after the last.
    low: u64,
    high: u64,
    /// By how much the number grows.
    by: u64,
    /// What comes after each message.
    after: &'a [u8],
}

/// Adds a message of each hart.
fn add_turn(case: &Case, bytes: &mut Vec<u8>, sending: Sending<'_>, number: u64, payload: &[u8]) {
    for hart in sending.low..sending.high {
        add_message(case, bytes, hart, number, payload);
        add(case, bytes, sending.after);
    }
}

/// Adds messages number by number.
fn add_turns(case: &Case, store: &Store, sending: Sending<'_>, bytes: &mut Vec<u8>) {
    let mut number = number_or(case, "from", 0);
    for one in case.named("payloads").split(',') {
        let (times, text) = case.times(one);
        let mut payload = Vec::new(case.alloc);
        add_bytes(case, store, text, &mut payload);
        for _ in 0..times {
            add_turn(case, bytes, sending, number, payload.as_slice());
            number = number.wrapping_add(sending.by);
        }
    }
}

/// The harts that send messages.
fn harts_of(case: &Case) -> (u64, u64) {
    let hart = number_or(case, "hart", 0);
    match case.named("harts").split_once("..") {
        Some((low, high)) => (number_of(case, low), number_of(case, high)),
        None => (hart, hart.saturating_add(1)),
    }
}

/// Adds the messages of harts.
fn add_messages(case: &Case, store: &Store, bytes: &mut Vec<u8>) {
    let mut after = Vec::new(case.alloc);
    let text = case.named("after");
    add_bytes(case, store, text, &mut after);
    let (low, high) = harts_of(case);
    let mut sending = Sending {
        low,
        high,
        by: number_or(case, "by", 1),
        after: after.as_slice(),
    };
    if number_or(case, "turns", 0) == 1 {
        return add_turns(case, store, sending, bytes);
    }
    let every = number_or(case, "every", 1) as usize;
    for hart in (low..high).step_by(every.max(1)) {
        sending.low = hart;
        sending.high = hart.saturating_add(1);
        add_turns(case, store, sending, bytes);
    }
}

/// Adds numbered lines.
fn add_count(case: &Case, bytes: &mut Vec<u8>) {
    let text = case.text().split_once(" text=").unwrap_or(("", "")).1;
    let (before, after) = text.split_once('%').unwrap_or((text, ""));
    let (form, rest) = after.split_at_checked(1).unwrap_or(("", ""));
    let mut number = number_or(case, "from", 0);
    let step = number_or(case, "step", 1);
    let lines = case.over("");
    for _ in 0..number_or(case, "times", 0) {
        lines.put(before);
        match form {
            "x" => lines.put_hex(number),
            "d" => lines.put_shown(number),
            _ => lines.unread(),
        }
        lines.put(rest);
        lines.put("\n");
        number = number.wrapping_add(step);
    }
    case.join(&lines);
    add(case, bytes, lines.taken().as_bytes());
}

/// Whether a verb makes a buffer.
pub(crate) fn builds(verb: &str) -> bool {
    matches!(
        verb,
        "bytes" | "add" | "let" | "line" | "log" | "capture" | "sent" | "messages" | "count"
    )
}

/// Plays a verb that makes a buffer.
pub(crate) fn build(case: &Case, store: &mut Store, verb: &str) {
    let name = case.word();
    let rest = case.text();
    let mut bytes = if matches!(verb, "add" | "line" | "sent" | "messages" | "count") {
        store.take(case.alloc, name)
    } else {
        Vec::new(case.alloc)
    };
    case.sets();
    match verb {
        "bytes" | "add" => add_bytes(case, store, rest, &mut bytes),
        "let" => add(case, &mut bytes, rest.as_bytes()),
        "line" => add_row(case, &mut bytes, rest, 1),
        "log" => add_log(case, &mut bytes),
        "capture" => add_header(case, &mut bytes),
        "sent" => add_sent(case, store, &mut bytes),
        "messages" => add_messages(case, store, &mut bytes),
        _ => add_count(case, &mut bytes),
    }
    store.put(case, name, bytes);
}
