//! Why SENT is not read.

use log_streams::FileFault;
use message::{DemuxFault, MessageFault};

/// Why the next message of SENT is not read.
#[derive(Clone, Copy)]
pub enum ReadFault {
    /// The last message in view is a window after the front, or this is the next message of its hart with number 2^64 - 1.
    Full,
    /// There is a place for the message, but it is not the next one of its hart.
    Misplaced(DemuxFault),
}

/// Why a source of SENT does not give the next message.
#[derive(Clone, Copy)]
pub enum SourceFault {
    /// What the messages come from cannot be read.
    Read,
    /// Allocation failed.
    Memory,
    /// There is no complete message.
    Unread(MessageFault),
}

/// Why SENT is not read on.
#[derive(Clone, Copy)]
pub enum LookFault {
    /// Its source does not give its next message.
    Source(SourceFault),
    /// Its next message is not the next one of its hart.
    Sent(ReadFault),
}

/// Why RECEIVED is not read on.
#[derive(Clone, Copy)]
pub enum ReceivedFault {
    /// Its file does not give its next bytes.
    File(FileFault),
    /// SENT is not read on, to look up a message of it.
    Sent(LookFault),
}
