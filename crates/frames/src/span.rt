//! What is at a place of damaged bytes.

use message::Message;

/// What is at a place of damaged bytes. The offset counts from the first of all bytes, from 0.
#[derive(Drop)]
pub enum Span {
    /// A message that is taken.
    Frame {
        /// Where its first byte is.
        offset: usize,
        /// The message.
        message: Message,
    },
    /// A longest run of bytes that belong to no message that is taken.
    Bytes {
        /// Where the first of them is.
        offset: usize,
        /// How many there are, 1 or more.
        count: usize,
    },
}
