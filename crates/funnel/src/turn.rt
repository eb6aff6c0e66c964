//! The order in which harts send and messages are taken.

/// One turn of a schedule: a hart sends, or a message is taken.
#[derive(Clone, Copy, PartialEq, Eq)]
pub enum Turn {
    /// The hart sends its next message.
    Hart(u16),
    /// The front message is taken.
    Collect,
}
