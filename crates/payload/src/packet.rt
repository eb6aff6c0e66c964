//! The packets of an instruction trace.
ghost use Rattle.std.specs.Prelude.{◌≡◌, ◌↔◌, IsTrue, false};

use crate::{MOST_OUTCOMES, Mode, Outcomes};
use isa::is_privilege;

/// A packet of an instruction trace: of the E-Trace specification's packet formats, those of this project's profile.
#[derive(Clone, Copy, Debug, PartialEq, Eq)]
pub enum Packet {
    /// Where the trace is: format 3, subformat 0.
    Sync {
        /// The address holds a branch that was taken.
        taken: bool,
        /// The privilege level: 0, 1 or 3.
        privilege: u8,
        /// The address of the instruction, even.
        address: u64,
    },
    /// An exception or an interrupt: format 3, subformat 1.
    Trap {
        /// The address holds a branch that was taken.
        taken: bool,
        /// The privilege level: 0, 1 or 3.
        privilege: u8,
        /// The cause, `ecause`, below 64.
        cause: u8,
        /// The trap is an interrupt.
        interrupt: bool,
        /// Address and privilege are those of the trap handler's first instruction (`thaddr`), not of the trap.
        handler: bool,
        /// The address of the handler or else of the instruction that trapped, even.
        address: u64,
        /// The trap value, `tval`; 0 with an interrupt.
        tval: u64,
    },
    /// The trace is opened or closed: format 3, subformat 3.
    Support(Support),
    /// How far the trace has come: format 1, or format 2 without outcomes.
    Address {
        /// The outcomes of the branches that no packet reported before, the oldest first.
        outcomes: Outcomes,
        /// What names the address, even: its difference from the last reported one, modulo 2^64, or in full-address
        /// mode the address itself.
        delta: u64,
        /// Why the address is reported.
        report: Report,
    },
    /// The outcomes of 31 branches, without an address: format 1 without branches.
    Map(Outcomes),
}

/// How a support packet opens or closes a trace.
#[derive(Clone, Copy, Debug, PartialEq, Eq)]
pub enum Support {
    /// It opens the trace, and announces the mode of its address fields (`ioptions`).
    Open(Mode),
    /// It closes the trace, and the last packet's address was reported only because of that (`ended_rep`).
    EndedRep,
    /// It closes the trace, and the last packet's address would have been reported anyway (`ended_ntr`).
    EndedNtr,
}

/// Why an address is reported.
#[derive(Clone, Copy, Debug, PartialEq, Eq)]
pub enum Report {
    /// Neither of the other two: notify, updiscon and irreport repeat the address field's top bit.
    Plain,
    /// The instruction follows an uninferable discontinuity, and a sync or trap packet reports what comes after it.
    Updiscon,
    /// The instruction is a backward jump, for which this project's profile uses notify.
    Notify,
}

impl Packet {
    ghost use Rattle.payload.specs.Closing.{is_closing_packet};
    ghost use Rattle.payload.specs.Profile.{InProfile};

    /// Whether the packet is one of this project's profile: what address fields hold even, privilege 0, 1 or 3,
    /// a cause below 64, no trap value with an interrupt, a map of exactly 31 outcomes.
    pub fn in_profile(&self) -> bool
        ensures { IsTrue result ↔ InProfile self.now }
    {
        match *self {
            Packet::Sync {
                privilege,
                address,
                ..
            } => is_privilege(u64::from(privilege)) && address % 2 == 0,
            Packet::Trap {
                privilege,
                cause,
                interrupt,
                address,
                tval,
                ..
            } => {
                is_privilege(u64::from(privilege))
                    && cause < 64
                    && address % 2 == 0
                    && (!interrupt || tval == 0)
            }
            Packet::Support(_) => true,
            Packet::Address {
                outcomes,
                delta,
                ..
            } => outcomes.len() <= MOST_OUTCOMES && delta % 2 == 0,
            Packet::Map(outcomes) => outcomes.len() == MOST_OUTCOMES,
        }
    }

    /// Whether the packet closes a trace: EndedRep or EndedNtr.
    #[inline]
    pub fn is_closing(&self) -> bool
        ensures { result ≡ is_closing_packet self.now }
    {
        matches!(self, Packet::Support(Support::EndedRep | Support::EndedNtr))
    }
}

impl Default for Packet {
    /// A packet of zeros; it fills the unused places of an `ArrayVec`.
    fn default() -> Self
        ensures { result ≡ Packet.Sync false 0 0 }
    {
        Packet::Sync {
            taken: false,
            privilege: 0,
            address: 0,
        }
    }
}
