//! Who is told of the first pass over a capture's messages.

use message::ProgressSink;

/// Who is told how far the first pass over the messages of a capture is, and that it ended.
pub trait WatchSurvey: ProgressSink {
    /// The first pass ended, whether or not an allocation failed in it. This is called once, after the last
    /// [`note`](ProgressSink::note) and before anything is written.
    fn surveyed(&self);
}
