//! A request that is held back.

use std::cell::Cell;
use std::sync::Arc;
use std::sync::atomic::{AtomicU64, Ordering};
use std::thread::yield_now;

/// How often a count is looked at before a request is granted though the count is not there.
const LOOKS: u32 = 2_000_000;

/// How often other threads may go on once the count is there. Where all processors are busy, each time takes as long as
/// these threads are let run.
const MORE: u32 = 50;

/// Holds a request back until a count that other threads add to is as wanted, and then for some time more, in which
/// they may add to it.
#[derive(Drop)]
pub(crate) struct Hold {
    pub(crate) count: Arc<AtomicU64>,
    pub(crate) wanted: u64,
    /// What the count was when the request was granted; `None` before.
    pub(crate) seen: Cell<Option<u64>>,
}

impl Hold {
    /// Holds the request back.
    pub(crate) fn wait(&self) {
        for _ in 0..LOOKS {
            if self.count.load(Ordering::SeqCst) >= self.wanted {
                break;
            }
            yield_now();
        }
        for _ in 0..MORE {
            yield_now();
        }
        self.seen.set(Some(self.count.load(Ordering::SeqCst)));
    }
}
