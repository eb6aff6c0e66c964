//! The bytes of a message before its payload.

ghost use Rattle.std.specs.Prelude.{◌≡◌, ◌≤◌, length, slice_index, IfOk, IfErr};
ghost use Rattle.payload.specs.Limits.{most_bytes};
ghost use Rattle.message.specs.Cut.{IsBadLength, IsMessage};
ghost use Rattle.message.specs.steps.Front.{message_of};

use crate::{Message, MessageFault};
use byteorder::{ByteOrder, LittleEndian};
use payload::{MOST_BYTES, Payload};

/// How many bytes of a message come before its payload: the hart, the number and the payload's length.
pub const HEAD: usize = 11;

/// The payload's length in a head.
pub(crate) fn payload_length(head: &[u8]) -> Result<usize, MessageFault>
    requires { length head.now ≡ 11 }
    ensures length { IfOk result (λ n. (n ≡ slice_index head.now 10) × (1 ≤ n) × (n ≤ most_bytes)) }
    ensures fault { IfErr result (λ fault. (fault ≡ MessageFault.BadLength) × IsBadLength (slice_index head.now 10)) }
{
    let length = usize::from(head[10]);
    if length == 0 || length > MOST_BYTES {
        return Err(MessageFault::BadLength);
    }
    Ok(length)
}

/// The message of a head and a payload.
pub(crate) fn message_of(head: &[u8], payload: &[u8]) -> Message
    requires whole { length head.now ≡ 11 }
    requires some { 1 ≤ length payload.now }
    requires few { length payload.now ≤ most_bytes }
    ensures value { result ≡ message_of head.now payload.now }
    ensures ranges { IsMessage result }
{
    match Payload::new(payload) {
        Ok(payload) => Message {
            hart: LittleEndian::read_u16(head),
            number: LittleEndian::read_u64(&head[2..]),
            payload,
        },
        Err(_) => unreachable!(),
    }
}
