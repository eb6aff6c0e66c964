//! Messages and their bytes.

ghost use Rattle.std.specs.Prelude.{◌≡◌, ◌<◌, ◌≤◌, ◌++◌, ◌∷◌, [], ℕ, List, length};
ghost use Rattle.byteorder.specs.Endian.{little_bytes};
ghost use Rattle.message.specs.Capture.{message_bytes};
ghost use Rattle.message.specs.Cut.{IsMessage};
ghost use Rattle.message.specs.declared.message.Message.{Message as AnyMessage};
ghost use Rattle.payload.specs.Limits.{most_bytes};
ghost use Rattle.ffi.specs.Handed.{IsHandedOut};
ghost use Rattle.ffi.specs.Sending.{IsMessageRead, numbers_of_message, padded};
ghost use Rattle.ffi.specs.declared.status.TheConstants.{DONE, EMPTY, TOO_LONG};

use crate::dumping::message_status;
use crate::handing::hand_out_both;
use crate::status::{DONE, EMPTY, TOO_LONG};
use byteorder::{ByteOrder, LittleEndian};
use message::{HEAD, Message, Messages};
use payload::MOST_BYTES;

/// A message in numbers.
#[repr(C)]
#[derive(Clone, Copy)]
pub struct MessageNumbers {
    /// How many messages of its hart come before it.
    pub number: u64,
    /// How many bytes its payload has, 1 to 18.
    pub payload_length: u64,
    /// The hart whose trace the payload belongs to.
    pub hart: u16,
    /// The bytes of its payload, and then 0.
    pub payload: [u8; MOST_BYTES],
}

/// Writes the bytes of a message to a buffer: at most 29 are wanted. The hart and the number may be any.
///
/// The status is [`DONE`], [`TOO_SMALL`](crate::status::TOO_SMALL), [`EMPTY`] where the payload has no byte, or
/// [`TOO_LONG`] where it has more than 18. The last two write nothing. No memory is taken.
pub fn tracebench_write_message(
    hart: u16,
    number: u64,
    payload: &[u8],
    buffer: &mut [u8],
    wanted: &mut u64,
) -> u32
    ensures written { 1 ≤ length payload.now → length payload.now ≤ most_bytes
        → IsHandedOut (message_bytes (record { hart = hart; number = number; payload = payload.now })) result wanted.new
        buffer.old buffer.new }
    ensures empty { length payload.now ≡ 0
        → (result ≡ EMPTY) × (wanted.new ≡ wanted.old) × (buffer.new ≡ buffer.old) }
    ensures too_long { most_bytes < length payload.now
        → (result ≡ TOO_LONG) × (wanted.new ≡ wanted.old) × (buffer.new ≡ buffer.old) }
{
    if payload.is_empty() {
        return EMPTY;
    }
    if payload.len() > MOST_BYTES {
        return TOO_LONG;
    }
    let head = head_of(hart, number, payload.len() as u8);
    hand_out_both(&head, payload, buffer, wanted)
}

/// The bytes of a message before its payload, which has so many bytes.
fn head_of(hart: u16, number: u64, count: u8) -> [u8; HEAD]
    ensures { result ≡ little_bytes 2 hart ++ (little_bytes 8 number ++ (count ∷ [])) }
{
    let mut head = [0; HEAD];
    LittleEndian::write_u16(&mut head, hart);
    LittleEndian::write_u64(&mut head[2..], number);
    head[10] = count;
    head
}

/// Writes the numbers of the message that bytes begin with. `taken` is how many of the bytes are the message's, 0 where
/// there is none.
///
/// The status is [`DONE`], also where there is no byte at all, [`SHORT`](crate::status::SHORT) where the bytes end
/// inside the message, or [`BAD_LENGTH`](crate::status::BAD_LENGTH) where the byte for its payload's length is 0 or
/// above 18. Only a message is written. No memory is taken.
pub fn tracebench_read_message(bytes: &[u8], message: &mut MessageNumbers, taken: &mut u64) -> u32
    ensures read { IsMessageRead bytes.now result taken.new message.old message.new }
    ensures reads_back { (sent : AnyMessage) (rest : List ℕ) → IsMessage sent
        → bytes.now ≡ message_bytes sent ++ rest
        → (result ≡ DONE) × (taken.new ≡ length (message_bytes sent)) × (message.new ≡ numbers_of_message sent) }
{
    *taken = 0;
    match Messages::new(bytes).next() {
        Ok(Some(found)) => {
            *taken = found.size() as u64;
            *message = numbers_of_message(&found);
            DONE
        }
        Ok(None) => DONE,
        Err(why) => message_status(why),
    }
}

/// The numbers of a message.
fn numbers_of_message(message: &Message) -> MessageNumbers
    ensures { result ≡ numbers_of_message message.now }
{
    let bytes = message.payload.bytes();
    MessageNumbers {
        number: message.number,
        payload_length: bytes.len() as u64,
        hart: message.hart,
        payload: padded(bytes),
    }
}

/// The bytes of a payload, and then 0.
fn padded(bytes: &[u8]) -> [u8; MOST_BYTES]
    requires { length bytes.now ≤ most_bytes }
    ensures { result ≡ padded bytes.now }
{
    let mut all = [0; MOST_BYTES];
    all[..bytes.len()].copy_from_slice(bytes);
    all
}
