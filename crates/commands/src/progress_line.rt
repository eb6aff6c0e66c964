//! A line on a terminal that says how much of some files is read, or how many of their messages are worked through.

use crate::progress::{Amount, is_due, is_looked_at};
use std::alloc::Global;
use std::io;
use std::io::Write;
use std::rt::Clock;
use std::sync::atomic::{AtomicBool, AtomicU64, Ordering};

/// Blanks over the longest line, which has 20 digits and ` bytes`.
const BLANKS: &[u8] = b"\r                          \r";

/// A line on a terminal that says how much of some files is read, or how many of their messages are worked through.
/// Threads that read the files share it.
#[derive(Drop)]
pub struct ProgressLine {
    /// Whether the line may be written.
    is_begun: AtomicBool,
    /// Whether the line is on the terminal.
    is_shown: AtomicBool,
    /// Whether a thread is at the line. No other thread writes it then.
    is_taken: AtomicBool,
    /// When the line was written last, or begun, in milliseconds of the clock.
    written: AtomicU64,
    /// How many bytes were read, or messages worked through.
    read: AtomicU64,
    /// How many bytes or messages there are, or 0 where that is not known.
    total: AtomicU64,
}

/// The time of a clock in milliseconds.
fn millis<C: Clock>(clock: &C) -> io::Result<u64> {
    let time = clock.monotonic()?;
    let whole = time.as_secs().saturating_mul(1000);
    Ok(whole.saturating_add(u64::from(time.subsec_millis())))
}

impl ProgressLine {
    /// No line yet.
    pub fn new() -> ProgressLine {
        ProgressLine {
            is_begun: AtomicBool::new(false),
            is_shown: AtomicBool::new(false),
            is_taken: AtomicBool::new(false),
            written: AtomicU64::new(0),
            read: AtomicU64::new(0),
            total: AtomicU64::new(0),
        }
    }

    /// Begins a line about files that have so many bytes or messages; 0 says that this is not known. Nothing is written
    /// until bytes were read, or messages worked through, for a while.
    pub fn begin<C: Clock>(&self, clock: &C, total: u64) {
        let Ok(now) = millis(clock) else {
            return;
        };
        self.total.store(total, Ordering::SeqCst);
        self.read.store(0, Ordering::SeqCst);
        self.written.store(now, Ordering::SeqCst);
        self.is_begun.store(true, Ordering::SeqCst);
    }

    /// Notes that so many bytes more were read, and writes the line again where it was begun and that is due.
    pub fn add<C: Clock, E: Write>(&self, clock: &C, alloc: Global, err: &mut E, count: usize) {
        if !self.is_begun.load(Ordering::SeqCst) {
            return;
        }
        self.read.fetch_add(count as u64, Ordering::SeqCst);
        if self.is_taken.swap(true, Ordering::SeqCst) {
            return;
        }
        self.write_if_due(clock, alloc, err);
        self.is_taken.store(false, Ordering::SeqCst);
    }

    /// Notes that so many messages more were worked through, by one thread at a time, and writes the line again where
    /// it was begun and that is due. Most calls do not look at the clock.
    pub fn add_messages<C: Clock, E: Write>(
        &self,
        clock: &C,
        alloc: Global,
        err: &mut E,
        count: u64,
    ) {
        if !self.is_begun.load(Ordering::Relaxed) {
            return;
        }
        let before = self.read.load(Ordering::Relaxed);
        let now = before.saturating_add(count);
        self.read.store(now, Ordering::Relaxed);
        if is_looked_at(before, now) {
            self.add(clock, alloc, err, 0);
        }
    }

    /// Writes the line again where that is due. One call of `write_all` is made, so that no other text parts the line.
    fn write_if_due<C: Clock, E: Write>(&self, clock: &C, alloc: Global, err: &mut E) {
        let Ok(now) = millis(clock) else {
            return;
        };
        if !is_due(self.written.load(Ordering::SeqCst), now) {
            return;
        }
        let read = self.read.load(Ordering::SeqCst);
        let amount = Amount::of(read, self.total.load(Ordering::SeqCst));
        let Ok(line) = format!(in alloc; "\r{amount}") else {
            return;
        };
        self.written.store(now, Ordering::SeqCst);
        self.is_shown.store(true, Ordering::SeqCst);
        let _ = err.write_all(line.as_bytes());
    }

    /// Erases the line, if there is one. No thread reads any more.
    pub fn end<E: Write>(&self, err: &mut E) {
        self.is_begun.store(false, Ordering::SeqCst);
        if self.is_shown.swap(false, Ordering::SeqCst) {
            let _ = err.write_all(BLANKS);
        }
    }
}
