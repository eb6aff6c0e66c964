//! A message that is known again.

ghost use Rattle.std.specs.Prelude.{◌≡◌, ◌↔◌, ◌≤◌, IfSome, IsTrue, Some, length};
ghost use Rattle.frames.specs.Frame.{BeginsFrame, BeginsMessage, frame_in, frame_size, is_complete, is_frame, length_in};
ghost use Rattle.frames.specs.Frame.{message_in, message_size};
ghost use Rattle.message.specs.declared.message.Message.{Message as AnyMessage};
ghost use Rattle.payload.specs.Limits.{most_bytes};
ghost use Rattle.message.specs.steps.Filling.{AreBytes};

use byteorder::{ByteOrder, LittleEndian};
use message::{HEAD, Message};
use payload::{MOST_BYTES, Payload};

/// The number from which on no message is known again: 2^32.
pub const END_OF_FRAMES: u64 = 1 << 32;

/// Whether bytes begin with a frame: a complete message of a hart below `known`, with a number below
/// [`END_OF_FRAMES`]. Takes no memory.
#[inline(always)]
pub fn begins_frame(bytes: &[u8], known: u16) -> bool
    ensures frame { IsTrue result ↔ BeginsFrame known bytes.now }
    ensures value { result ≡ is_frame known bytes.now }
{
    is_frame(bytes, known)
}

/// The same, as a function of the bytes.
#[inline(always)]
fn is_frame(bytes: &[u8], known: u16) -> bool
    ensures value { result ≡ is_frame known bytes.now }
    ensures bytes { AreBytes bytes.now }
{
    is_complete(bytes)
        && LittleEndian::read_u16(bytes) < known
        && LittleEndian::read_u64(&bytes[2..]) < END_OF_FRAMES
}

/// Whether bytes begin with a complete message.
#[inline(always)]
fn is_complete(bytes: &[u8]) -> bool
    ensures value { result ≡ is_complete bytes.now }
    ensures enough { IsTrue result → 11 ≤ length bytes.now }
{
    if bytes.len() <= HEAD {
        return false;
    }
    let length = usize::from(bytes[10]);
    length > 0 && length <= MOST_BYTES && bytes.len() >= HEAD + length
}

/// The complete message that bytes begin with, whatever its hart and its number; `None` where they begin with none. Takes
/// no memory.
#[inline(always)]
pub fn message_in(bytes: &[u8]) -> Option<Message>
    ensures message { (message : AnyMessage) → (result ≡ Some message) ↔ BeginsMessage message bytes.now }
    ensures value { result ≡ message_in bytes.now }
{
    first_message(bytes)
}

/// The same, as a function of the bytes.
#[inline(always)]
fn first_message(bytes: &[u8]) -> Option<Message>
    ensures value { result ≡ message_in bytes.now }
    ensures bytes { AreBytes bytes.now }
{
    if is_complete(bytes) {
        Some(frame_in(bytes))
    } else {
        None
    }
}

/// How many bytes the complete message has that bytes begin with; `None` where they begin with none. Takes no memory.
#[inline(always)]
pub fn message_size(bytes: &[u8]) -> Option<usize>
    ensures value { result ≡ message_size bytes.now }
    ensures within { IfSome result (λ size. size ≤ length bytes.now) }
{
    if is_complete(bytes) {
        Some(frame_size(bytes))
    } else {
        None
    }
}

/// How many bytes the frame has that bytes begin with.
#[inline(always)]
pub(crate) fn frame_size(bytes: &[u8]) -> usize
    requires enough { 11 ≤ length bytes.now }
    ensures { result ≡ frame_size bytes.now }
{
    HEAD + usize::from(bytes[10])
}

/// The message of the frame that bytes begin with.
pub(crate) fn frame_in(bytes: &[u8]) -> Message
    requires enough { frame_size bytes.now ≤ length bytes.now }
    requires some { 1 ≤ length_in bytes.now }
    requires few { length_in bytes.now ≤ most_bytes }
    ensures { result ≡ frame_in bytes.now }
{
    match Payload::new(&bytes[HEAD..frame_size(bytes)]) {
        Ok(payload) => Message {
            hart: LittleEndian::read_u16(bytes),
            number: LittleEndian::read_u64(&bytes[2..]),
            payload,
        },
        Err(_) => unreachable!(),
    }
}
