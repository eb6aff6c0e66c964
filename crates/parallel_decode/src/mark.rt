//! States of decoders, kept on the way through a hart's messages.

use decoder::Decoder;

/// The decoder of a hart after some of the hart's messages. Decoding can go on from it.
#[derive(Clone, Copy)]
pub struct Mark {
    /// How many of the hart's messages were decoded.
    pub taken: usize,
    /// How many events they settle, or 2^64 - 1 if there are more.
    pub events: u64,
    /// The decoder after them.
    pub decoder: Decoder,
}
