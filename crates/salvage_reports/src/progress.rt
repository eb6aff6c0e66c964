//! Who is told how far salvaging a capture is.

use message::{NoProgress, ProgressSink};

/// Who is told how far the messages of a capture's frames are salvaged.
pub trait WatchSalvage: ProgressSink {
    /// This many messages were found. This is called once, before the first [`note`](ProgressSink::note).
    fn begun(&self, messages: usize);

    /// All of them were salvaged, or an allocation failed. This is called once, after the last
    /// [`note`](ProgressSink::note), and before anything is written.
    fn ended(&self, has_failed: bool);
}

impl WatchSalvage for NoProgress {
    fn begun(&self, messages: usize) {
        let _ = messages;
    }

    fn ended(&self, has_failed: bool) {
        let _ = has_failed;
    }
}
