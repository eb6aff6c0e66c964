//! Cases of logs in files that are read side by side (`log_streams`): logs of a loop of two instructions.

use crate::files_in_memory::{Kind, Table};
use crate::log_tasks::{Collected, Collecting};
use crate::logs::program_of;
use cases::{Case, cut, put_rows};
use log_streams::{Files, IllegalRow, LogsFault, Stop, made_of_logs};
use retire::{Event, MOST_ROWS};
use std::sync::atomic::Ordering;
use std::thread::Threads;

/// The loop: a `nop`, and a jump back to it.
const WORDS: &str = "00000013 ffdff06f";

/// Where the loop begins.
const BASE: u64 = 0x8000_0000;

/// The first line of a log.
const HEADER: &str = "addr,itype,priv,cause,tval\n";

/// The two rows of the loop, and one that is no row of a log.
const ROWS: [&str; 3] = ["80000000,0,3,,\n", "80000004,0,3,,\n", "x,0,3,,\n"];

/// A log of so many rows of the loop. The row with the number `twice` is there twice, and the loop goes on after it. In
/// place of the row with the number `bad` is one that is no row of a log. The first row has number 1. One more row may come
/// last.
#[derive(Clone, Copy)]
struct Log<'t> {
    rows: u64,
    twice: u64,
    bad: u64,
    last: &'t str,
}

/// The value of a part `NAME=VALUE` of a word, or an empty text.
fn value_in<'t>(word: &'t str, name: &str) -> &'t str {
    for part in word.split(':') {
        if let Some(value) = part.strip_prefix(name) {
            return value;
        }
    }
    ""
}

/// The same as a number, or 0 where there is none.
fn number_in(case: &Case, word: &str, name: &str) -> u64 {
    let digits = value_in(word, name);
    if digits.is_empty() {
        return 0;
    }
    case.decimal(digits)
}

/// The log of `ROWS`, `ROWS:twice=N`, `ROWS:bad=N` and the like.
fn log_in<'t>(case: &Case, word: &'t str) -> Log<'t> {
    Log {
        rows: case.decimal(cut(word, ':').0),
        twice: number_in(case, word, "twice="),
        bad: number_in(case, word, "bad="),
        last: value_in(word, "last="),
    }
}

/// The text of a log.
fn text_of(case: &Case, log: Log<'_>) -> String {
    let text = case.over("");
    text.put(HEADER);
    let mut second = 0;
    for row in 1..log.rows.saturating_add(1) {
        let kind = if row == log.bad { 2 } else { second };
        text.put(ROWS[kind % 3]);
        if row != log.twice {
            second = 1 - second % 2;
        }
    }
    if !log.last.is_empty() {
        text.put(log.last);
        text.put("\n");
    }
    case.join(&text);
    text.taken()
}

/// The kind of a file with this name.
fn kind_of(case: &Case, name: &str) -> Kind {
    match name {
        "regular" => Kind::Regular,
        "pipe" => Kind::Pipe,
        "failing" => Kind::Failing,
        "refused" => Kind::Refused,
        "locked" => Kind::Locked,
        _ => {
            if name != "lacking" {
                case.unread();
            }
            Kind::Lacking
        }
    }
}

/// Adds a file, `KIND:LOG`.
fn add_file(case: &Case, table: &mut Table, file: &str) {
    let (name, rest) = cut(file, ':');
    let kind = kind_of(case, name);
    let log = log_in(case, rest);
    let text = text_of(case, log);
    table.put(case, kind, text);
}

/// The files of arguments, each `KIND:LOG`.
fn table_of(case: &Case) -> Table {
    let mut table = Table::new(case.alloc);
    for word in case.text().split_whitespace() {
        if !word.starts_with("most=") {
            let (count, file) = case.times(word);
            for _ in 0..count {
                add_file(case, &mut table, file);
            }
        }
    }
    table
}

/// The paths of so many files, as words.
fn names_of(case: &Case, count: usize) -> String {
    let names = case.over("");
    for number in 0..count {
        names.put_word(number);
    }
    case.join(&names);
    names.taken()
}

/// The paths as they are handed over.
fn paths_of<'n>(case: &Case, names: &'n str) -> Vec<&'n str> {
    let mut paths = Vec::new(case.alloc);
    for name in names.split_whitespace() {
        case.push(&mut paths, name);
    }
    paths
}

/// Appends the path and the fault of the first log of which nothing is made, if there is one.
fn put_end(case: &Case, end: Result<(), LogsFault<'_>>) {
    let Err(LogsFault { path, why }) = end else {
        return;
    };
    case.put_word(path);
    case.put(": ");
    match why {
        Stop::Unread(fault) => case.put_shown(fault),
        Stop::Illegal(fault) => case.put_shown(fault),
    }
}

/// Appends which files were not opened as they have to be where something was made of so many logs: each of them and the
/// next one once, no other twice, and if the next one is in no regular file, no later one that is in none. Appends whether
/// pipes were not opened in their order, each once the one before it was read to its end.
fn put_opens(case: &Case, table: &Table, made: usize) {
    let mut is_over = false;
    let mut after = 0;
    for (number, file) in table.files.iter().enumerate() {
        let count = file.opens.load(Ordering::SeqCst);
        let place = file.place.load(Ordering::SeqCst);
        let least = u64::from(number <= made);
        let most = u64::from(file.kind.is_regular() || !is_over);
        if count < least || most < count {
            case.put_word(number);
            case.put(" is opened otherwise");
        }
        if file.kind == Kind::Pipe && count > 0 {
            if place < after {
                case.put_word("pipes in another order");
            }
            after = place;
        }
        is_over = is_over || number == made && !file.kind.is_regular();
    }
    if table.early.load(Ordering::SeqCst) > 0 {
        case.put_word("pipes that are opened early");
    }
}

/// The most rows that a log may have.
fn most_of(case: &Case) -> u32 {
    case.number("most", u64::from(MOST_ROWS))
        .min(u64::from(u32::MAX)) as u32
}

/// Whether events are those of the loop.
fn are_of_loop(events: &[Event]) -> bool {
    for (place, event) in events.iter().enumerate() {
        let wanted = Event::Retire {
            addr: if place % 2 == 0 { BASE } else { BASE + 4 },
            itype: 0,
            privilege: 3,
        };
        if *event != wanted {
            return false;
        }
    }
    true
}

/// Appends a fault, the event of its row and the one before it.
fn put_illegal(case: &Case, row: &IllegalRow) {
    case.put_word(row.fault);
    put_rows(case, &[row.event]);
    if let Some(before) = row.before {
        case.put_word("after");
        put_rows(case, &[before]);
    }
}

/// Appends how many events of the loop a log has, or its first illegal row.
fn put_collected(case: &Case, hart: usize, one: &Collected) {
    match &one.row {
        Some(row) => put_illegal(case, row),
        None => {
            case.put_word(one.events.len());
            if one.hart != hart || !are_of_loop(one.events.as_slice()) {
                case.put_word("others");
            }
        }
    }
}

/// `logs [most=N] FILES` and `logs-collected FILES`: how many events of the loop the logs of files have, and the first fault;
/// or illegal rows by a task that refuses no log. Where a file is opened otherwise than it has to be, that is said.
pub(crate) fn made<R: Threads + Sync>(case: &Case, rt: &R, verb: &str) {
    let table = table_of(case);
    let most = most_of(case);
    let names = names_of(case, table.files.len());
    let paths = paths_of(case, names.as_str());
    let Some(program) = program_of(case.alloc, WORDS) else {
        return case.unread();
    };
    let alloc = case.alloc;
    let task = Collecting {
        alloc,
        refuses: verb == "logs",
    };
    let paths = paths.as_slice();
    let found = made_of_logs(alloc, rt, &table, &program, most, paths, &task);
    for (hart, one) in found.made.iter().enumerate() {
        put_collected(case, hart, one);
    }
    put_end(case, found.end);
    put_opens(case, &table, found.made.len());
}

/// `early STEPS`: how many of three pipes are counted as opened before the one before is read to its end. Steps are
/// `open=N`, `read=N` and, to its end, `end=N`.
pub(crate) fn early(case: &Case) {
    let mut table = Table::new(case.alloc);
    for _ in 0..3u32 {
        let text = String::new(case.alloc);
        table.put(case, Kind::Pipe, text);
    }
    for step in case.text().split_whitespace() {
        match step.split_once('=') {
            Some(("open", path)) => {
                if table.open_file(path).is_err() {
                    case.unread();
                }
            }
            Some(("read", path)) => table.note_read(path, 42),
            Some(("end", path)) => table.note_read(path, 0),
            _ => case.unread(),
        }
    }
    case.put_shown(table.early.load(Ordering::SeqCst));
}
