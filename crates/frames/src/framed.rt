//! Bytes that are messages to their end.

ghost use Rattle.std.specs.Prelude.{◌≡◌, All, IsTrue, List};
ghost use Rattle.frames.specs.Framed.{is_framed};
ghost use Rattle.message.specs.Capture.{capture};
ghost use Rattle.message.specs.Cut.{IsMessage};
ghost use Rattle.message.specs.declared.message.Message.{Message as AnyMessage};

use crate::message_size;

/// Whether bytes are complete messages, one after the other, to their end, whatever their harts and numbers. Takes no
/// memory.
pub fn is_framed(bytes: &[u8]) -> bool
    ensures value { result ≡ is_framed bytes.now }
    ensures messages { (messages : List AnyMessage) → All IsMessage messages → bytes.now ≡ capture messages
        → IsTrue result }
    ensures only { IsTrue result → (messages : List AnyMessage) × All IsMessage messages × (bytes.now ≡ capture messages) }
{
    let mut left = bytes;
    while let Some(size) = message_size(left) {
        left = &left[size..];
    }
    left.is_empty()
}
