//! Why a message is not read, written or accepted.

ghost use Rattle.std.specs.Prelude.{Some};
ghost use Rattle.message.specs.FaultText.{demux_fault_text, message_fault_text};

use payload::PackFault;
use std::error::Error;
use std::fmt;

/// Why a message or a header is not read or not written. The place in a stream is then unknown.
#[derive(Clone, Copy, Debug, PartialEq, Eq)]
pub enum MessageFault {
    /// The input ends inside a message, or inside a header.
    Short,
    /// The byte for the payload's length is 0 or above 18.
    BadLength,
    /// The reader failed.
    Read,
    /// The writer failed.
    Write,
    /// The input begins as a capture of version 2 does, but the mode, the period or the count of harts in its header is
    /// out of range.
    BadHeader,
}

impl fmt::Display for MessageFault {
    ghost output = { λ fault. Some (message_fault_text fault) };

    fn fmt<W: fmt::Write>(&self, f: &mut fmt::Formatter<W>) -> fmt::Result {
        f.write_str(match *self {
            MessageFault::Short => "the capture ends inside a message",
            MessageFault::BadLength => "payload length is not 1 to 18",
            MessageFault::Read => "cannot be read",
            MessageFault::Write => "cannot be written",
            MessageFault::BadHeader => "capture header is not valid",
        })
    }
}

impl Error for MessageFault {}

/// Why a demultiplexer does not accept a message. It tests `Stranger`, `AfterClose`, `Repeat`, `Gap` and `Packet` in
/// this order, and returns the first that applies.
#[derive(Clone, Copy, Debug, PartialEq, Eq)]
pub enum DemuxFault {
    /// The demultiplexer does not know the hart.
    Stranger,
    /// The number is below the one that is expected.
    Repeat,
    /// The number is above the one that is expected, or, where messages may be lost, 2^63 or more.
    Gap {
        /// The number that is expected.
        expected: u64,
    },
    /// The hart's closing packet was accepted, or the number that it expects is 2^63.
    AfterClose,
    /// The payload is no packet.
    Packet(PackFault),
}

impl fmt::Display for DemuxFault {
    ghost output = { λ fault. Some (demux_fault_text fault) };

    fn fmt<W: fmt::Write>(&self, f: &mut fmt::Formatter<W>) -> fmt::Result {
        match *self {
            DemuxFault::Stranger => f.write_str("stranger"),
            DemuxFault::Repeat => f.write_str("repeat"),
            DemuxFault::Gap { expected } => write!(f, "gap, expected number {expected}"),
            DemuxFault::AfterClose => f.write_str("after close"),
            DemuxFault::Packet(why) => write!(f, "bad packet: {why}"),
        }
    }
}

impl Error for DemuxFault {}
