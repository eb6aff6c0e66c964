//! A gate that counts, and at which harts wait for one another.

use bench::Gate;
use cases::Case;
use std::sync::atomic::{AtomicBool, AtomicU64, Ordering};
use std::sync::{Arc, Wait};
use std::thread::yield_now;

/// How often a hart looks whether another one made its calls.
const LOOKS: u32 = 1_000_000;

/// Counts the calls of each hart, and notes one that is not the hart's next: the call before its first send, the one
/// after it, the one before its second send, and so on. The first two harts wait for one another before they send.
#[derive(Drop)]
pub(crate) struct Calls {
    made: Vec<AtomicU64>,
    /// How many messages are sent, of all harts.
    sent: Arc<AtomicU64>,
    /// How many calls of hart 1 come before the first message of hart 0, and how many of hart 0 before that of hart 1.
    before: [u64; 2],
    strange: AtomicBool,
    /// Whether a hart waited in vain.
    alone: AtomicBool,
}

impl Calls {
    /// No call of so many harts yet. The second hart sends nothing before so many messages of the first one, or, where
    /// there are none, before the first hart is about to send, as the first one waits for the second.
    pub(crate) fn new(case: &Case, sent: Arc<AtomicU64>, harts: usize, first: u64) -> Calls {
        let mut made = Vec::new(case.alloc);
        for _ in 0..harts {
            case.push(&mut made, AtomicU64::new(0));
        }
        let before = match first {
            0 => [1, 1],
            _ => [0, first.saturating_mul(2)],
        };
        Calls {
            made,
            sent,
            before,
            strange: AtomicBool::new(false),
            alone: AtomicBool::new(false),
        }
    }

    /// Counts a call of a hart, before which it should have made so many.
    fn count(&self, hart: u16, before: u64) {
        let found = match self.made.get(usize::from(hart)) {
            Some(made) => Some(made.fetch_add(1, Ordering::SeqCst)),
            None => None,
        };
        if found != Some(before) {
            self.strange.store(true, Ordering::SeqCst);
        }
    }

    /// Waits until a hart made so many calls, where there is such a hart.
    fn wait_for(&self, hart: usize, calls: u64) {
        let Some(made) = self.made.get(hart) else {
            return;
        };
        for _ in 0..LOOKS {
            if made.load(Ordering::SeqCst) >= calls {
                return;
            }
            yield_now();
        }
        self.alone.store(true, Ordering::SeqCst);
    }

    /// How many calls each hart made. A call that was not the next of its hart is said, and a hart that waited in vain.
    pub(crate) fn made(&self, case: &Case) -> Vec<u64> {
        if self.strange.load(Ordering::SeqCst) {
            case.put_part("a call that is not the next");
        }
        if self.alone.load(Ordering::SeqCst) {
            case.put_part("a hart that waits in vain");
        }
        let mut counts = Vec::new(case.alloc);
        for made in &self.made {
            case.push(&mut counts, made.load(Ordering::SeqCst));
        }
        counts
    }
}

impl Gate for Calls {
    fn before_send<R: Wait>(&self, _rt: &R, hart: u16, number: u64) {
        self.count(hart, number.saturating_mul(2));
        match (hart, number) {
            (0, 0) => self.wait_for(1, self.before[0]),
            (1, 0) => self.wait_for(0, self.before[1]),
            _ => {}
        }
    }

    fn after_send<R: Wait>(&self, _rt: &R, hart: u16, number: u64) {
        self.count(hart, number.saturating_mul(2).saturating_add(1));
        self.sent.fetch_add(1, Ordering::SeqCst);
    }
}
