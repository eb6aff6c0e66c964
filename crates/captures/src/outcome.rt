//! What a capture decodes to.

ghost use Rattle.std.specs.Prelude.{◌≡◌, Some};
ghost use Rattle.captures.specs.Decoded.{as_capture_fault};
ghost use Rattle.captures.specs.FaultText.{capture_fault_text};

use decoder::DecodeFault;
use message::{DemuxFault, MessageFault};
use receiver::ReceiveFault;
use retire::Event;
use std::alloc::{Allocator, Global};
use std::error::Error;
use std::fmt;
use std::fmt::Display;

/// Why decoding a capture stops before its end.
#[derive(Clone, Copy, Debug, PartialEq, Eq)]
pub enum CaptureFault {
    /// There is no complete message; or, at the start of a capture that begins as one of version 2 does, no valid
    /// header.
    Message(MessageFault),
    /// The demultiplexer refuses the message.
    Demux(DemuxFault),
    /// The message is accepted, and its packet is not decoded.
    Decode(DecodeFault),
    /// The message is accepted, and its packet opens a trace in another mode than the header's.
    Mode,
}

impl fmt::Display for CaptureFault {
    ghost output = { λ fault. Some (capture_fault_text fault) };

    fn fmt<W: fmt::Write>(&self, f: &mut fmt::Formatter<W>) -> fmt::Result {
        match *self {
            CaptureFault::Message(fault) => fault.fmt(f),
            CaptureFault::Demux(fault) => fault.fmt(f),
            CaptureFault::Decode(fault) => fault.fmt(f),
            CaptureFault::Mode => f.write_str("open of another mode"),
        }
    }
}

impl Error for CaptureFault {}

impl From<ReceiveFault> for CaptureFault {
    ghost from_gives = { λ why fault. fault ≡ as_capture_fault why };

    fn from(why: ReceiveFault) -> CaptureFault {
        match why {
            ReceiveFault::Demux(why) => CaptureFault::Demux(why),
            ReceiveFault::Mode => CaptureFault::Mode,
            ReceiveFault::Decode(why) => CaptureFault::Decode(why),
        }
    }
}

/// What the messages of a capture decode to.
#[derive(Drop)]
pub struct CaptureOutcome<A: Allocator = Global> {
    /// The events of each hart, as far as its messages settle them.
    pub harts: Vec<Vec<Event, A>, A>,
    /// Whether the closing packet of each hart was decoded.
    pub closed: Vec<bool, A>,
    /// Where decoding stopped before the end: at which message, counted from 0 over all harts, and why. At a header
    /// that is cut short or bad the number is 0.
    pub fault: Option<(u64, CaptureFault)>,
}
