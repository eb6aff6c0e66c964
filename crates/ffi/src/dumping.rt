//! The text of a capture.

ghost use Rattle.std.specs.Prelude.{◌≡◌, ◌≢◌};
ghost use Rattle.ffi.specs.Dumped.{IsDumpHandedOut, dump_end};
ghost use Rattle.ffi.specs.Statuses.{header_fault, message_status};
ghost use Rattle.ffi.specs.declared.status.TheConstants.{MEMORY};

use crate::handing::hand_out;
use crate::status::{BAD_HEADER, BAD_LENGTH, DONE, MEMORY, SHORT, UNREAD, UNWRITTEN};
use captures::{Dumped, dump_capture};
use message::MessageFault;
use std::alloc::Global;

/// How a dump ends.
#[repr(C)]
#[derive(Clone, Copy)]
pub struct DumpEnd {
    /// After how many messages the text ends before the capture does. It is 0 where `fault` is 0, and at a header that
    /// is cut short or bad.
    pub place: u64,
    /// Why there is no message, as a status; 0 where the text ends with the capture.
    pub fault: u32,
    /// 1 where the payload of some message is no packet, and else 0.
    pub bad: u32,
}

/// Writes a capture as text to a buffer: a line for its header, if it has one, and a line for each message.
///
/// The status is [`DONE`], [`TOO_SMALL`](crate::status::TOO_SMALL) or [`MEMORY`]. The last writes nothing.
pub fn tracebench_dump(
    alloc: Global,
    capture: &[u8],
    buffer: &mut [u8],
    wanted: &mut u64,
    ended: &mut DumpEnd,
) -> u32
    ensures dumped { result ≢ MEMORY
        → IsDumpHandedOut capture.now result wanted.new ended.new buffer.old buffer.new }
    ensures memory { result ≡ MEMORY → (buffer.new ≡ buffer.old) × (wanted.new ≡ wanted.old) × (ended.new ≡ ended.old) }
{
    let mut text = Vec::new(alloc);
    match dump_capture(capture, &mut text) {
        Ok(dumped) => {
            *ended = end_of(&dumped);
            hand_out(text.as_slice(), buffer, wanted)
        }
        Err(_) => MEMORY,
    }
}

/// How a dump ends, in numbers.
fn end_of(dumped: &Dumped) -> DumpEnd
    ensures { result ≡ dump_end dumped.now.bad dumped.now.fault }
{
    let (place, fault) = match dumped.fault {
        None => (0, DONE),
        Some((place, why)) => (place, message_status(why)),
    };
    DumpEnd {
        place,
        fault,
        bad: u32::from(dumped.bad),
    }
}

/// Why there is no message or header.
pub(crate) fn message_status(why: MessageFault) -> u32
    ensures { result ≡ message_status why }
{
    match why {
        MessageFault::Short => SHORT,
        MessageFault::BadLength => BAD_LENGTH,
        MessageFault::Read => UNREAD,
        MessageFault::Write => UNWRITTEN,
        MessageFault::BadHeader => BAD_HEADER,
    }
}

/// Why a capture that begins as one of version 2 does has no valid header, as a status; 0 where it has.
pub(crate) fn header_fault(why: Option<MessageFault>) -> u32
    ensures { result ≡ header_fault why }
{
    match why {
        None => DONE,
        Some(why) => message_status(why),
    }
}
