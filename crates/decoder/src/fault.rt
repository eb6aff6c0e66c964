//! Why a packet is not decoded.

ghost use Rattle.std.specs.Prelude.{Some};
ghost use Rattle.decoder.specs.FaultText.{decode_fault_text};

use std::error::Error;
use std::fmt;

/// Why a packet is not decoded. Each fault leaves the decoder and the list of events as they were.
///
/// `NotOpened` and `AfterClose` come before all others. Then the fault is the first thing on the way, where the events
/// of a packet that waits come before those of the new packet. At one event it is the first in this order that applies.
#[derive(Clone, Copy, Debug, PartialEq, Eq)]
pub enum DecodeFault {
    /// Another packet than Open comes first.
    NotOpened,
    /// At an address that is to be retired there is no complete instruction that retires.
    OffProgram,
    /// A walk would go on after a backward jump that no packet reported.
    MissedNotify,
    /// One of these:
    /// - A branch has no outcome left.
    /// - Outcomes are left over at an uninferable discontinuity.
    /// - A packet reports a taken branch where there is no branch.
    /// - A trap packet without a handler reports a taken branch.
    Branches,
    /// One of these:
    /// - Open comes again.
    /// - An address or a full map follows no retirement.
    /// - A trap with its handler follows no retirement that leads to one address.
    /// - EndedRep follows no address packet that waits.
    /// - A walk meets an uninferable discontinuity, and does not end at its target.
    /// - A synchronisation or a trap is reported at a place to which the event before does not lead.
    WrongPlace,
    /// An instruction does not retire at the privilege, or the event before does not lead to that privilege.
    WrongPrivilege,
    /// The packet that closes the trace came before.
    AfterClose,
    /// Memory for the events was refused.
    Memory,
}

impl fmt::Display for DecodeFault {
    ghost output = { λ fault. Some (decode_fault_text fault) };

    fn fmt<W: fmt::Write>(&self, f: &mut fmt::Formatter<W>) -> fmt::Result {
        f.write_str(match *self {
            DecodeFault::NotOpened => "not decoded: NotOpened",
            DecodeFault::OffProgram => "not decoded: OffProgram",
            DecodeFault::MissedNotify => "not decoded: MissedNotify",
            DecodeFault::Branches => "not decoded: Branches",
            DecodeFault::WrongPlace => "not decoded: WrongPlace",
            DecodeFault::WrongPrivilege => "not decoded: WrongPrivilege",
            DecodeFault::AfterClose => "not decoded: AfterClose",
            DecodeFault::Memory => "out of memory",
        })
    }
}

impl Error for DecodeFault {}
