//! Who is told how far messages are worked through.

/// Who is told how far the messages of a capture are worked through, for instance to show it. What the call that tells
/// it does and returns does not depend on it.
pub trait ProgressSink {
    /// So many messages more are worked through. This is called often, so it should cost little.
    fn note(&self, messages: usize);
}

/// Nobody is told.
#[derive(Clone, Copy)]
pub struct NoProgress;

impl ProgressSink for NoProgress {
    fn note(&self, messages: usize) {
        let _ = messages;
    }
}
