//! What is told of a first pass over a capture.

use message::ProgressSink;
use parallel_decode::WatchSurvey;
use std::cell::Cell;

/// Counts the messages that are told of, and the ends.
#[derive(Drop)]
pub(crate) struct Told {
    pub(crate) messages: Cell<u64>,
    pub(crate) ends: Cell<u64>,
}

impl ProgressSink for Told {
    fn note(&self, messages: usize) {
        let told = self.messages.get().saturating_add(messages as u64);
        self.messages.set(told);
    }
}

impl WatchSurvey for Told {
    fn surveyed(&self) {
        self.ends.set(self.ends.get().saturating_add(1));
    }
}
