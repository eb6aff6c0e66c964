//! From the bytes of a capture to all of its messages.

ghost use Rattle.std.specs.Prelude.{◌≡◌, IfErr, IfOk, List, [], Option, Some};
ghost use Rattle.message.specs.declared.header.Header.{Header as AnyHeader};
ghost use Rattle.message.specs.declared.message.Message.{Message as AnyMessage};
ghost use Rattle.captures.specs.FaultText.{read_fault_text};
ghost use Rattle.captures.specs.Whole.{IsFront, IsReadFault, IsWhole};
ghost use Rattle.captures.specs.steps.Reading.{AreReadUpTo};

use message::{Header, Message, MessageFault, Messages};
use std::alloc::{AllocError, Allocator, Global};
use std::error::Error;
use std::fmt;
use std::fmt::Display;

/// All that a capture holds.
#[derive(Drop)]
pub struct WholeCapture<A: Allocator = Global> {
    /// The header. A capture of version 1 has none.
    pub header: Option<Header>,
    /// The messages of all harts, in the order of the capture. They are not checked.
    pub messages: Vec<Message, A>,
}

/// What a capture holds before the first place where there is no complete message.
#[derive(Drop)]
pub struct CaptureFront<A: Allocator = Global> {
    /// The header. A capture of version 1 has none, nor has one whose header is cut short or bad.
    pub header: Option<Header>,
    /// The messages of all harts, in the order of the capture. They are not checked.
    pub messages: Vec<Message, A>,
    /// Why no complete message or no header follows them, or `None` where the capture ends there.
    pub stop: Option<MessageFault>,
}

/// Why a capture is not read to its end.
#[derive(Clone, Copy, Debug, PartialEq, Eq)]
pub enum ReadFault {
    /// After so many messages there is no complete message, for this reason. The number is 0 where the header is cut
    /// short or bad.
    Message(u64, MessageFault),
    /// An allocation failed.
    Memory,
}

impl fmt::Display for ReadFault {
    ghost output = { λ fault. Some (read_fault_text fault) };

    fn fmt<W: fmt::Write>(&self, f: &mut fmt::Formatter<W>) -> fmt::Result {
        match *self {
            ReadFault::Message(_, fault) => fault.fmt(f),
            ReadFault::Memory => f.write_str("out of memory"),
        }
    }
}

impl Error for ReadFault {}

/// Reads all messages of a capture, of either version, and the header where it has one.
///
/// Messages are not checked: a hart may be unknown, a number wrong, a payload no packet. Where the capture ends inside
/// its header or a message, or the header or a payload's length is bad, that is the fault, and nothing of what was read
/// before is returned. The time and the memory that are taken grow with the capture.
pub fn read_messages<A: Allocator>(alloc: A, bytes: &[u8]) -> Result<WholeCapture<A>, ReadFault>
    ensures read { IfOk result (λ whole. IsWhole bytes.now whole.header whole.messages.items) }
    ensures fault { IfErr result (IsReadFault bytes.now) }

    // A capture of messages is read to its end, unless an allocation failed.
    ensures reads_back { (header : Option AnyHeader) (messages : List AnyMessage) → IsWhole bytes.now header messages
        → IfOk result (λ whole. (whole.header ≡ header) × (whole.messages.items ≡ messages)) }
    ensures memory { (header : Option AnyHeader) (messages : List AnyMessage) → IsWhole bytes.now header messages
        → IfErr result (λ fault. fault ≡ ReadFault.Memory) }
{
    let Ok(front) = read_front(alloc, bytes) else {
        return Err(ReadFault::Memory);
    };
    match front.stop {
        Some(why) => Err(ReadFault::Message(front.messages.len() as u64, why)),
        None => Ok(WholeCapture {
            header: front.header,
            messages: front.messages,
        }),
    }
}

/// Reads the messages of a capture, of either version, up to the first place where there is no complete message, and
/// the header where it has one. Where the header is cut short or bad, neither a header nor a message is read, and that
/// is why reading stops.
///
/// Messages are not checked. The time and the memory that are taken grow with the capture.
pub fn read_front<A: Allocator>(alloc: A, bytes: &[u8]) -> Result<CaptureFront<A>, AllocError>
    ensures { IfOk result (λ front. IsFront bytes.now front.header front.messages.items front.stop) }
{
    let mut left = Messages::new(bytes);
    let mut messages = Vec::new(alloc);
    let header = match left.header() {
        Ok(header) => header,
        Err(fault) => {
            return Ok(CaptureFront {
                header: None,
                messages,
                stop: Some(fault),
            });
        }
    };
    let stop = read_into(&mut messages, left)?;
    Ok(CaptureFront {
        header,
        messages,
        stop,
    })
}

/// Appends the messages that these bytes begin with, up to the first place where there is no complete message. Returns
/// why there is none, or `None` at the end of the bytes.
fn read_into<A: Allocator>(
    messages: &mut Vec<Message, A>,
    mut left: Messages<'_>,
) -> Result<Option<MessageFault>, AllocError>
    requires { messages.old.items ≡ [] }
    ensures { IfOk result (AreReadUpTo left.entry messages.new.items) }
{
    loop {
        match left.next() {
            Ok(Some(message)) => messages.push(message)?,
            Ok(None) => return Ok(None),
            Err(fault) => return Ok(Some(fault)),
        }
    }
}
