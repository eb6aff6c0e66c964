//! A message that came.

use message::Message;

/// A message of RECEIVED, and its place there.
#[derive(Drop)]
pub struct Arrived {
    /// How many messages of RECEIVED come before it.
    pub place: u64,
    /// The message.
    pub message: Message,
}
