//! Calls of what shows progress, over a clock and a terminal in memory.

use crate::parts::add;
use cases::Case;
use commands::{Amount, ProgressLine, is_due, is_looked_at};
use std::fmt::Display;
use std::io;
use std::io::ErrorKind;
use std::rt::Clock;
use std::sync::atomic::{AtomicU64, Ordering};
use std::time::Duration;

/// A clock that is set by hand. At time 0 it cannot be read.
#[derive(Drop)]
struct HandClock {
    millis: AtomicU64,
}

impl Clock for HandClock {
    fn monotonic(&self) -> io::Result<Duration> {
        match self.millis.load(Ordering::SeqCst) {
            0 => Err(io::Error::from(ErrorKind::TimedOut)),
            millis => Ok(Duration::from_millis(millis)),
        }
    }

    fn since_1970(&self) -> io::Result<Duration> {
        self.monotonic()
    }
}

/// A line of `--progress` and the clock that it is over.
#[derive(Drop)]
pub(crate) struct Progress {
    line: ProgressLine,
    clock: HandClock,
}

impl Progress {
    /// A line that is not begun, and a clock that cannot be read.
    pub(crate) fn new() -> Progress {
        Progress {
            line: ProgressLine::new(),
            clock: HandClock {
                millis: AtomicU64::new(0),
            },
        }
    }

    /// Makes a call, a verb and up to two numbers, and appends what it gives or brings to the terminal:
    ///
    /// - `amount READ TOTAL`: how much is read, in words;
    /// - `due LAST NOW`: whether the line may be written again;
    /// - `looked BEFORE NOW`: whether the clock is looked at;
    /// - `new`: another line, which is not begun;
    /// - `begin MILLIS TOTAL`, `read MILLIS COUNT`, `messages MILLIS COUNT`, `end`: a call of the line at this time.
    pub(crate) fn call(&mut self, case: &Case, text: &str, out: &mut Vec<u8>) {
        let mut words = text.split_whitespace();
        let verb = words.next().unwrap_or("");
        let first = case.decimal(words.next().unwrap_or("0"));
        let second = case.decimal(words.next().unwrap_or("0"));
        match verb {
            "amount" => add_shown(case, out, Amount::of(first, second)),
            "due" => add_shown(case, out, is_due(first, second)),
            "looked" => add_shown(case, out, is_looked_at(first, second)),
            "new" => *self = Progress::new(),
            "end" => self.line.end(out),
            _ => self.call_at(case, verb, (first, second), out),
        }
    }

    /// Makes a call of the line at a time.
    fn call_at(&mut self, case: &Case, verb: &str, (millis, count): (u64, u64), out: &mut Vec<u8>) {
        let Progress { line, clock } = self;
        clock.millis.store(millis, Ordering::SeqCst);
        match verb {
            "begin" => line.begin(clock, count),
            "read" => line.add(clock, case.alloc, out, count as usize),
            "messages" => line.add_messages(clock, case.alloc, out, count),
            _ => case.unread(),
        }
    }
}

/// Appends a line with what has a text.
pub(crate) fn add_shown<D: Display + Drop>(case: &Case, out: &mut Vec<u8>, shown: D) {
    let line = case.over("");
    line.put_shown(shown);
    line.put("\n");
    case.join(&line);
    add(case, out, line.taken().as_bytes());
}
