//! Why a message is bad.

ghost use Rattle.std.specs.Prelude.{Some};
ghost use Rattle.salvaging.specs.ReasonText.{reason_text};

use decoder::DecodeFault;
use message::DemuxFault;
use payload::PackFault;
use std::error::Error;
use std::fmt;

/// Why a message that is used is bad.
#[derive(Clone, Copy, Debug, PartialEq, Eq)]
pub enum Reason {
    /// Its payload does not unpack.
    Packet(PackFault),
    /// Its packet is not decoded at its place. The decoder's fault is neither Memory nor AfterClose.
    Decode(DecodeFault),
    /// Its packet closes the trace, but a greater number of its hart is used.
    Closing {
        /// The next of the greater numbers that are used.
        next: u64,
    },
}

impl fmt::Display for Reason {
    ghost output = { λ why. Some (reason_text why) };

    fn fmt<W: fmt::Write>(&self, f: &mut fmt::Formatter<W>) -> fmt::Result {
        match *self {
            Reason::Packet(why) => write!(f, "{}", DemuxFault::Packet(why)),
            Reason::Decode(why) => write!(f, "{why}"),
            Reason::Closing { next } => write!(f, "closing, but number {next} came"),
        }
    }
}

impl Error for Reason {}
