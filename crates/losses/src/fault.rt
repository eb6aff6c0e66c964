//! Why messages are not collected.

ghost use Rattle.std.specs.Prelude.{◌≡◌, Some};
ghost use Rattle.losses.specs.FaultText.{lossy_fault_text};
ghost use Rattle.losses.specs.declared.fault.LossyFault.TheVariants.{Memory};

use decoder::DecodeFault;
use message::DemuxFault;
use std::alloc::AllocError;
use std::error::Error;
use std::fmt;
use std::fmt::Display;

/// Why messages are not collected. What was collected before the fault is dropped.
#[derive(Clone, Copy, Debug, PartialEq, Eq)]
pub enum LossyFault {
    /// The demultiplexer refuses the message at this place, counted from 0.
    Demux(usize, DemuxFault),
    /// The packet of the message at this place, counted from 0, is not decoded. The decoder's fault is never Memory.
    Decode(usize, DecodeFault),
    /// An allocation failed.
    Memory,
}

impl fmt::Display for LossyFault {
    ghost output = { λ fault. Some (lossy_fault_text fault) };

    fn fmt<W: fmt::Write>(&self, f: &mut fmt::Formatter<W>) -> fmt::Result {
        match *self {
            LossyFault::Demux(_, why) => why.fmt(f),
            LossyFault::Decode(_, why) => why.fmt(f),
            LossyFault::Memory => f.write_str("out of memory"),
        }
    }
}

impl Error for LossyFault {}

impl From<AllocError> for LossyFault {
    ghost from_gives = { λ _ fault. fault ≡ Memory };

    fn from(_error: AllocError) -> LossyFault {
        LossyFault::Memory
    }
}
