//! How much of a hart there is in a capture.

/// How many messages a hart has before decoding stops, and how many bytes their payloads have.
#[derive(Clone, Copy)]
pub struct HartCount {
    /// How many messages there are.
    pub taken: u64,
    /// How many bytes their payloads have together.
    pub bytes: u64,
}

impl HartCount {
    /// No message.
    pub const NONE: HartCount = HartCount { taken: 0, bytes: 0 };
}
