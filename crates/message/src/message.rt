//! One payload on its way.

ghost use Rattle.std.specs.Prelude.{◌≡◌, ◌+◌, length};
ghost use Rattle.message.specs.Capture.{message_bytes};

use crate::head::HEAD;
use payload::Payload;

/// A payload of a hart.
#[derive(Debug, PartialEq, Eq, Drop)]
pub struct Message {
    /// The hart whose trace the payload belongs to.
    pub hart: u16,
    /// How many payloads of that hart come before this one.
    pub number: u64,
    /// The bytes of one packet.
    pub payload: Payload,
}

impl Message {
    /// How many bytes of a capture the message takes: 11, and those of its payload.
    pub fn size(&self) -> usize
        ensures bytes { result ≡ length (message_bytes self.now) }
        ensures count { result ≡ 11 + length self.now.payload }
    {
        HEAD + self.payload.bytes().len()
    }
}
