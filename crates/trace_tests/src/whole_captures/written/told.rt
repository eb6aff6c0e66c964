//! What is told of a first pass.

use message::ProgressSink;
use parallel_decode::WatchSurvey;
use std::cell::Cell;

/// Counts the messages that are told of, and the ends.
#[derive(Drop)]
pub(crate) struct Told {
    /// How many messages were told of.
    pub(crate) messages: Cell<u64>,
    /// How often an end was.
    pub(crate) ends: Cell<u64>,
}

impl Told {
    /// Nothing is told yet.
    pub(crate) fn new() -> Told {
        Told {
            messages: Cell::new(0),
            ends: Cell::new(0),
        }
    }
}

impl ProgressSink for Told {
    fn note(&self, messages: usize) {
        let told = self.messages.get().saturating_add(messages as u64);
        self.messages.set(told);
    }
}

impl WatchSurvey for Told {
    fn surveyed(&self) {
        self.ends.set(self.ends.get().saturating_add(1));
    }
}
