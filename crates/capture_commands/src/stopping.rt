//! The fault of a subcommand that reads a capture, for each fault of what it calls.

ghost use Rattle.std.specs.Prelude.{◌≡◌, ◌≢◌};
ghost use Rattle.capture_commands.specs.Faults.{capture_fault, lossy_fault, reading_fault, status_of};

use crate::reason::{CaptureReason, Fault};
use captures::{CaptureFault, ReadFault};
use command_inputs::Status;
use decoder::DecodeFault;
use losses::LossyFault;
use message::MessageFault;

/// Why reading or decoding a capture stopped at this message.
pub(crate) fn capture_fault<'a>(number: u64, why: CaptureFault) -> Fault<'a>
    ensures value { result ≡ capture_fault number why }
    ensures never_refused { status_of result ≢ Status.Refused }
{
    match why {
        CaptureFault::Message(MessageFault::BadHeader) => Fault::Own(CaptureReason::Header),
        CaptureFault::Decode(DecodeFault::Memory) => Fault::Memory,
        _ => Fault::Own(CaptureReason::Message(number, why)),
    }
}

/// Why a capture is not read to its end.
pub(crate) fn reading_fault<'a>(why: ReadFault) -> Fault<'a>
    ensures value { result ≡ reading_fault why }
    ensures never_refused { status_of result ≢ Status.Refused }
{
    match why {
        ReadFault::Message(number, why) => capture_fault(number, CaptureFault::Message(why)),
        ReadFault::Memory => Fault::Memory,
    }
}

/// Why nothing is collected from messages of which some may be lost.
pub(crate) fn lossy_fault<'a>(why: LossyFault) -> Fault<'a>
    ensures value { result ≡ lossy_fault why }
    ensures never_refused { status_of result ≢ Status.Refused }
{
    match why {
        LossyFault::Demux(place, why) => Fault::Own(CaptureReason::Message(
            place as u64,
            CaptureFault::Demux(why),
        )),
        LossyFault::Decode(place, why) => capture_fault(place as u64, CaptureFault::Decode(why)),
        LossyFault::Memory => Fault::Memory,
    }
}
