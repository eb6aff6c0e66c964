//! The message of a capture that a row of a hart comes from.

ghost use Rattle.std.specs.Prelude.{◌≡◌, Some};
ghost use Rattle.comparing.specs.SourceTexts.{message_at, settled_text, source_text, stop_text, stopped_text, waited_text};
ghost use Rattle.comparing.specs.declared.source.SourcingFault.TheVariants.{Memory};

use captures::{CaptureFault, Offset};
use message::MessageFault;
use std::alloc::AllocError;
use std::fmt;
use std::fmt::Display;

/// Why it is not found where rows come from.
#[derive(Clone, Copy)]
pub enum SourcingFault {
    /// An allocation failed, or a hart has more events than a list can hold.
    Memory,
    /// Decoding a hart stops before the message at which it is said to.
    Stops,
}

impl From<AllocError> for SourcingFault {
    ghost from_gives = { λ _ fault. fault ≡ Memory };

    fn from(_error: AllocError) -> SourcingFault {
        SourcingFault::Memory
    }
}

/// Which message of a capture it is.
#[derive(Clone, Copy)]
pub struct SourceMessage {
    /// How many messages of all harts come before it.
    pub place: u64,
    /// How many payloads of its hart come before its own.
    pub number: u64,
    /// The offset of its first byte.
    pub offset: u64,
}

/// Where a row of a hart comes from, or why it is not decoded.
#[derive(Clone, Copy)]
pub enum RowSource {
    /// The row is decoded: this is the first message of its hart after which it is.
    Settles {
        /// The message.
        message: SourceMessage,
        /// How many events its hart has with those that it adds.
        rows: usize,
        /// How many events it adds, one at least.
        added: usize,
        /// The number of the message before it, if the packet of that one waited for it.
        waited: Option<u64>,
    },
    /// It is not: this message closes the hart.
    Closes(SourceMessage),
    /// It is not: decoding stops at this message of the hart.
    Stops {
        /// The message.
        message: SourceMessage,
        /// Why it is refused.
        why: CaptureFault,
        /// The number of the hart's message before it, if the packet of that one waits.
        waited: Option<u64>,
    },
    /// It is not: this is the hart's last message before the capture ends or decoding stops.
    Last {
        /// The message.
        message: SourceMessage,
        /// Whether its packet waits.
        waits: bool,
    },
    /// It is not: the hart has no message before that.
    Nothing,
}

/// A message, as the line of a source has it.
#[derive(Clone, Copy)]
struct MessageAt(SourceMessage);

impl fmt::Display for MessageAt {
    ghost output = { λ at. Some (message_at at.0) };

    fn fmt<W: fmt::Write>(&self, f: &mut fmt::Formatter<W>) -> fmt::Result {
        let SourceMessage {
            place,
            number,
            offset,
        } = self.0;
        let offset = Offset(offset);
        write!(f, "message {place}, number {number} at {offset}")
    }
}

/// The rows that a message settles.
#[derive(Clone, Copy)]
struct Settled {
    rows: usize,
    added: usize,
}

impl fmt::Display for Settled {
    ghost output = { λ settled. Some (settled_text settled.rows settled.added) };

    fn fmt<W: fmt::Write>(&self, f: &mut fmt::Formatter<W>) -> fmt::Result {
        let last = self.rows;
        let first = last.saturating_sub(self.added.saturating_sub(1));
        write!(f, ", settles rows {first} to {last}")
    }
}

/// Which message waited, if one did.
#[derive(Clone, Copy)]
struct Waited(Option<u64>);

impl fmt::Display for Waited {
    ghost output = { λ waited. Some (waited_text waited.0) };

    fn fmt<W: fmt::Write>(&self, f: &mut fmt::Formatter<W>) -> fmt::Result {
        match self.0 {
            Some(number) => write!(f, ", number {number} waited"),
            None => f.write_str(""),
        }
    }
}

/// Where decoding stops, and why, as an error line has it.
#[derive(Clone, Copy)]
struct StopText {
    place: u64,
    why: CaptureFault,
}

impl fmt::Display for StopText {
    ghost output = { λ stop. Some (stop_text stop.place stop.why) };

    fn fmt<W: fmt::Write>(&self, f: &mut fmt::Formatter<W>) -> fmt::Result {
        match self.why {
            CaptureFault::Message(MessageFault::BadHeader) => MessageFault::BadHeader.fmt(f),
            _ => write!(f, "message {}: {}", self.place, self.why),
        }
    }
}

/// Where decoding stops, if it does.
#[derive(Clone, Copy)]
struct Stopped(Option<(u64, CaptureFault)>);

impl fmt::Display for Stopped {
    ghost output = { λ stopped. Some (stopped_text stopped.0) };

    fn fmt<W: fmt::Write>(&self, f: &mut fmt::Formatter<W>) -> fmt::Result {
        match self.0 {
            Some((place, why)) => write!(f, ", stopped: {}", StopText { place, why }),
            None => f.write_str(""),
        }
    }
}

/// The text of a source, where decoding stops there.
#[derive(Clone, Copy)]
pub(crate) struct SourceText {
    pub(crate) source: RowSource,
    pub(crate) stop: Option<(u64, CaptureFault)>,
}

impl fmt::Display for SourceText {
    ghost output = { λ text. Some (source_text text.stop text.source) };

    fn fmt<W: fmt::Write>(&self, f: &mut fmt::Formatter<W>) -> fmt::Result {
        let stopped = Stopped(self.stop);
        match self.source {
            RowSource::Settles {
                message,
                rows,
                added,
                waited,
            } => {
                let message = MessageAt(message);
                let settled = Settled { rows, added };
                let waited = Waited(waited);
                write!(f, "{message}{settled}{waited}")
            }
            RowSource::Closes(message) => write!(f, "{}, closes", MessageAt(message)),
            RowSource::Stops {
                message,
                why,
                waited,
            } => {
                let message = MessageAt(message);
                let waited = Waited(waited);
                write!(f, "{message}, stops: {why}{waited}")
            }
            RowSource::Last { message, waits } => {
                let message = MessageAt(message);
                let waits = if waits { ", waits" } else { "" };
                write!(f, "{message}, is the last{waits}{stopped}")
            }
            RowSource::Nothing => write!(f, "no message{stopped}"),
        }
    }
}
