//! What only `audit` stops at.

ghost use Rattle.std.specs.Prelude.{◌≡◌, ◌≢◌, Some, refl};
ghost use Rattle.path_commands.specs.FaultText.{path_reason_text};
ghost use Rattle.path_commands.specs.Faults.{path_reason_status, damaged_fault, sent_fault, status_of};

use auditing::SentFault;
use command_inputs::{Reason, Status};
use message::{HartRange, MessageFault};
use std::fmt;

/// Why `audit` stops.
pub type Fault<'a> = command_inputs::Fault<'a, PathReason<'a>>;

/// What only `audit` stops at.
#[derive(Clone, Copy)]
pub enum PathReason<'a> {
    /// RECEIVED, at this path, begins as a capture of version 2 does, and its header is cut or not valid.
    Damaged(&'a str),
    /// The capture at this path does not hold, complete and in order, what was sent.
    Sent(&'a str, SentFault),
    /// SENT, at this path, has none of these harts.
    NoHart(&'a str, HartRange),
    /// The numbers of what arrives are not to be looked at, and messages are to be compared while they come.
    LiveUnnumbered,
    /// A table is asked for, and messages are to be compared while they come.
    LiveTable,
    /// A window is given, and messages are not to be compared while they come.
    WindowAlone,
}

impl fmt::Display for PathReason<'_> {
    ghost output = { λ why. Some (path_reason_text why) };

    fn fmt<W: fmt::Write>(&self, f: &mut fmt::Formatter<W>) -> fmt::Result {
        match self {
            PathReason::Damaged(path) => write!(f, "{path}: {}", MessageFault::BadHeader),
            PathReason::Sent(path, why) => write!(f, "{path}: {why}"),
            PathReason::NoHart(path, harts) => write!(f, "{path}: no hart of {harts}"),
            PathReason::LiveUnnumbered => f.write_str("--unnumbered does not go with --live"),
            PathReason::LiveTable => f.write_str("--format csv does not go with --live"),
            PathReason::WindowAlone => f.write_str("--window needs --live"),
        }
    }
}

impl Reason for PathReason<'_> {
    ghost text = { path_reason_text };

    ghost status = { path_reason_status };

    fn status(&self) -> Status {
        match self {
            PathReason::Damaged(_) => Status::NotWhole,
            _ => Status::Refused,
        }
    }

    ghost shown = { λ why. refl };
}

/// Why the capture at a path does not hold, complete and in order, what was sent.
pub(crate) fn sent_fault<'a>(path: &'a str, why: SentFault) -> Fault<'a>
    ensures { result ≡ sent_fault path.entry why }
{
    match why {
        SentFault::Memory => Fault::Memory,
        _ => Fault::Own(PathReason::Sent(path, why)),
    }
}

/// Why the capture at a path begins with no valid header.
pub(crate) fn damaged_fault<'a>(path: &'a str) -> Fault<'a>
    ensures value { result ≡ damaged_fault path.entry }
    ensures never_refused { status_of result ≢ Status.Refused }
{
    Fault::Own(PathReason::Damaged(path))
}
