//! What only a subcommand that reads a capture stops at.

ghost use Rattle.std.specs.Prelude.{Some, refl};
ghost use Rattle.capture_commands.specs.FaultText.{capture_reason_text};
ghost use Rattle.capture_commands.specs.Faults.{capture_reason_status};

use captures::CaptureFault;
use command_inputs::{Reason, Status};
use message::{HartRange, MessageFault};
use std::fmt;
use std::fmt::Display;

/// Why a subcommand that reads a capture stops.
pub type Fault<'a> = command_inputs::Fault<'a, CaptureReason>;

/// What only a subcommand that reads a capture stops at.
#[derive(Clone, Copy)]
pub enum CaptureReason {
    /// The capture begins as one of version 2 does, and its header is not valid.
    Header,
    /// Reading or decoding the capture stopped at the message with this number, counted from 0 over all harts.
    Message(u64, CaptureFault),
    /// The closing packet of this hart did not come.
    Unclosed(usize),
    /// So many logs are given for a capture of so many harts.
    Logs(usize, usize),
    /// The capture has none of these harts.
    NoHart(HartRange),
}

impl fmt::Display for CaptureReason {
    ghost output = { λ why. Some (capture_reason_text why) };

    fn fmt<W: fmt::Write>(&self, f: &mut fmt::Formatter<W>) -> fmt::Result {
        match self {
            CaptureReason::Header => MessageFault::BadHeader.fmt(f),
            CaptureReason::Message(number, why) => write!(f, "message {number}: {why}"),
            CaptureReason::Unclosed(hart) => write!(f, "hart {hart}: no closing packet"),
            CaptureReason::Logs(logs, harts) => write!(f, "{logs} logs for {harts} harts"),
            CaptureReason::NoHart(harts) => write!(f, "no hart of {harts}"),
        }
    }
}

impl Reason for CaptureReason {
    ghost text = { capture_reason_text };

    ghost status = { capture_reason_status };

    fn status(&self) -> Status {
        match self {
            CaptureReason::Header
            | CaptureReason::Message(..)
            | CaptureReason::Unclosed(_)
            | CaptureReason::NoHart(_) => Status::NotWhole,
            CaptureReason::Logs(..) => Status::Refused,
        }
    }

    ghost shown = { λ why. refl };
}
