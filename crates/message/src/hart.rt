//! What a demultiplexer expects of one hart.
ghost use Rattle.std.specs.Prelude.{◌≡◌, ◌<◌, IsFalse};
ghost use Rattle.message.specs.Accepting.{answer, state_after};
ghost use Rattle.message.specs.Harts.{end_of_numbers, is_over};
ghost use Rattle.message.specs.Lossy.{answer_lossy, state_after_lossy};

use crate::{DemuxFault, Message};
use payload::{Packet, unpack};

/// The number from which on no message of a hart is accepted.
const END_OF_NUMBERS: u64 = 1 << 63;

/// What is expected of a hart. [`Demux`](crate::Demux) holds one for each hart that it knows.
#[derive(Clone, Copy)]
pub struct Hart {
    /// The number of its next message.
    pub expected: u64,
    /// Whether its closing packet was accepted.
    pub closed: bool,
}

impl Hart {
    /// A hart of which nothing was accepted.
    pub const FIRST: Hart = Hart {
        expected: 0,
        closed: false,
    };

    /// Whether nothing more of the hart is accepted.
    fn is_over(&self) -> bool
        ensures value { result ≡ is_over self.now }
        ensures few { IsFalse result → self.now.expected < end_of_numbers }
    {
        self.closed || self.expected >= END_OF_NUMBERS
    }

    /// Returns the packet of a message of this hart, where the hart is still open and the message's number is the expected
    /// one. A fault changes nothing, and is none of [`Stranger`](DemuxFault::Stranger): whose message it is, is not
    /// looked at.
    pub fn accept(&mut self, message: &Message) -> Result<Packet, DemuxFault>
        ensures result { result ≡ answer self.old message.now }
        ensures state { self.new ≡ state_after self.old message.now }
    {
        if self.is_over() {
            return Err(DemuxFault::AfterClose);
        }
        if message.number < self.expected {
            return Err(DemuxFault::Repeat);
        }
        if message.number > self.expected {
            return Err(DemuxFault::Gap {
                expected: self.expected,
            });
        }
        match unpack(message.payload.bytes()) {
            Ok(packet) => {
                self.expected += 1;
                self.closed = packet.is_closing();
                Ok(packet)
            }
            Err(fault) => Err(DemuxFault::Packet(fault)),
        }
    }

    /// The packet of the message, which may be a later one of the hart, and how many numbers are missing before it.
    pub(crate) fn accept_lossy(&mut self, message: &Message) -> Result<(Packet, u64), DemuxFault>
        ensures result { result ≡ answer_lossy self.old message.now }
        ensures state { self.new ≡ state_after_lossy self.old message.now }
    {
        if self.is_over() {
            return Err(DemuxFault::AfterClose);
        }
        let Some(missing) = message.number.checked_sub(self.expected) else {
            return Err(DemuxFault::Repeat);
        };
        if message.number >= END_OF_NUMBERS {
            return Err(DemuxFault::Gap {
                expected: self.expected,
            });
        }
        match unpack(message.payload.bytes()) {
            Ok(packet) => {
                self.expected = message.number + 1;
                self.closed = packet.is_closing();
                Ok((packet, missing))
            }
            Err(fault) => Err(DemuxFault::Packet(fault)),
        }
    }
}
