//! Packets as numbers.

ghost use Rattle.std.specs.Prelude.{◌≡◌, ◌↔◌, IfSome, IsTrue, min};
ghost use Rattle.payload.specs.Limits.{most_outcomes};
ghost use Rattle.payload.specs.Outcomes.{outcomes_in_map};
ghost use Rattle.payload.specs.Profile.{InProfile};
ghost use Rattle.payload.specs.declared.packet.Packet.{Packet as AnyPacket};
ghost use Rattle.ffi.specs.Numbers.{number_of_mode, number_of_report, numbers_of, of_kind};
ghost use Rattle.ffi.specs.steps.Reading.{mode_in, packet_in, report_in};

use payload::{MOST_OUTCOMES, Mode, Outcomes, Packet, Report, Support};

/// A synchronisation: format 3, subformat 0.
pub const SYNC: u32 = 0;
/// An exception or an interrupt: format 3, subformat 1.
pub const TRAP: u32 = 1;
/// The trace is opened: format 3, subformat 3.
pub const OPEN: u32 = 2;
/// The trace is closed, and the last packet's address was reported only because of that.
pub const ENDED_REP: u32 = 3;
/// The trace is closed, and the last packet's address would have been reported anyway.
pub const ENDED_NTR: u32 = 4;
/// An address, with outcomes or without: format 1 or 2.
pub const ADDRESS: u32 = 5;
/// The outcomes of 31 branches, without an address: format 1 without branches.
pub const MAP: u32 = 6;

/// Address fields hold differences.
pub const DIFFERENTIAL: u32 = 0;
/// Address fields hold addresses.
pub const FULL: u32 = 1;

/// Neither of the other two reports.
pub const PLAIN: u32 = 0;
/// The instruction follows an uninferable discontinuity.
pub const UPDISCON: u32 = 1;
/// The instruction is a backward jump.
pub const NOTIFY: u32 = 2;

/// A packet as numbers. A flag is 0 or 1. What a packet of this kind does not have is 0.
#[repr(C)]
#[derive(Clone, Copy, PartialEq, Eq)]
pub struct PacketNumbers {
    /// Which packet it is: [`SYNC`], [`TRAP`], [`OPEN`], [`ENDED_REP`], [`ENDED_NTR`], [`ADDRESS`] or [`MAP`].
    pub kind: u32,
    /// Of a sync or trap: the address holds a branch that was taken.
    pub taken: u32,
    /// Of a sync or trap: the privilege level, 0, 1 or 3.
    pub privilege: u32,
    /// Of a trap: the cause, below 64.
    pub cause: u32,
    /// Of a trap: it is an interrupt.
    pub interrupt: u32,
    /// Of a trap: address and privilege are those of the trap handler's first instruction.
    pub handler: u32,
    /// Of an open: the mode of the address fields, [`DIFFERENTIAL`] or [`FULL`].
    pub mode: u32,
    /// Of an address: why it is reported, [`PLAIN`], [`UPDISCON`] or [`NOTIFY`].
    pub report: u32,
    /// Of an address or a map: how many outcomes of branches there are, 0 to 31.
    pub outcomes: u32,
    /// Of an address or a map: the outcomes, the oldest in the lowest bit. A taken branch is 0.
    pub map: u32,
    /// Of a sync or trap the address; of an address what names it: the difference from the last reported address,
    /// modulo 2^64, or in full-address mode the address itself. It is even.
    pub address: u64,
    /// Of an exception: the trap value.
    pub tval: u64,
}

impl PacketNumbers {
    /// All numbers are 0, but for the kind.
    fn of_kind(kind: u32) -> PacketNumbers
        ensures { result ≡ of_kind kind }
    {
        PacketNumbers {
            kind,
            taken: 0,
            privilege: 0,
            cause: 0,
            interrupt: 0,
            handler: 0,
            mode: 0,
            report: 0,
            outcomes: 0,
            map: 0,
            address: 0,
            tval: 0,
        }
    }
}

/// The numbers of a packet.
pub(crate) fn numbers_of(packet: &Packet) -> PacketNumbers
    ensures { result ≡ numbers_of packet.now }
{
    match packet {
        Packet::Sync {
            taken,
            privilege,
            address,
        } => PacketNumbers {
            taken: u32::from(*taken),
            privilege: u32::from(*privilege),
            address: *address,
            ..PacketNumbers::of_kind(SYNC)
        },
        Packet::Trap {
            taken,
            privilege,
            cause,
            interrupt,
            handler,
            address,
            tval,
        } => PacketNumbers {
            taken: u32::from(*taken),
            privilege: u32::from(*privilege),
            cause: u32::from(*cause),
            interrupt: u32::from(*interrupt),
            handler: u32::from(*handler),
            address: *address,
            tval: *tval,
            ..PacketNumbers::of_kind(TRAP)
        },
        Packet::Support(support) => numbers_of_support(*support),
        Packet::Address {
            outcomes,
            delta,
            report,
        } => PacketNumbers {
            report: number_of_report(*report),
            outcomes: outcomes.len() as u32,
            map: outcomes.map(),
            address: *delta,
            ..PacketNumbers::of_kind(ADDRESS)
        },
        Packet::Map(outcomes) => PacketNumbers {
            outcomes: outcomes.len() as u32,
            map: outcomes.map(),
            ..PacketNumbers::of_kind(MAP)
        },
    }
}

/// The numbers of a packet that opens or closes a trace.
fn numbers_of_support(support: Support) -> PacketNumbers
    ensures { result ≡ numbers_of (Packet.Support support) }
{
    match support {
        Support::Open(mode) => PacketNumbers {
            mode: number_of_mode(mode),
            ..PacketNumbers::of_kind(OPEN)
        },
        Support::EndedRep => PacketNumbers::of_kind(ENDED_REP),
        Support::EndedNtr => PacketNumbers::of_kind(ENDED_NTR),
    }
}

/// The number of a mode.
pub(crate) fn number_of_mode(mode: Mode) -> u32
    ensures { result ≡ number_of_mode mode }
{
    match mode {
        Mode::Differential => DIFFERENTIAL,
        Mode::Full => FULL,
    }
}

/// The number of a report.
fn number_of_report(report: Report) -> u32
    ensures { result ≡ number_of_report report }
{
    match report {
        Report::Plain => PLAIN,
        Report::Updiscon => UPDISCON,
        Report::Notify => NOTIFY,
    }
}

/// The packet of the profile that has these numbers, if there is one.
pub(crate) fn packet_of(numbers: &PacketNumbers) -> Option<Packet>
    ensures found { IfSome result (λ packet. InProfile packet × (numbers.now ≡ numbers_of packet)) }
    ensures only { (packet : AnyPacket) → InProfile packet → numbers.now ≡ numbers_of packet → result ≡ Some packet }
{
    let packet = packet_in(numbers);
    if has_numbers(&packet, numbers) {
        Some(packet)
    } else {
        None
    }
}

/// Whether a packet is of the profile and has these numbers.
fn has_numbers(packet: &Packet, numbers: &PacketNumbers) -> bool
    ensures { IsTrue result ↔ (InProfile packet.now × (numbers.now ≡ numbers_of packet.now)) }
{
    packet.in_profile() && numbers_of(packet) == *numbers
}

/// A packet that has these numbers, if any has.
fn packet_in(numbers: &PacketNumbers) -> Packet
    ensures { result ≡ packet_in numbers.now }
{
    let taken = numbers.taken != 0;
    let privilege = numbers.privilege.min(255) as u8;
    let address = numbers.address;
    match numbers.kind {
        SYNC => Packet::Sync {
            taken,
            privilege,
            address,
        },
        TRAP => Packet::Trap {
            taken,
            privilege,
            cause: numbers.cause.min(255) as u8,
            interrupt: numbers.interrupt != 0,
            handler: numbers.handler != 0,
            address,
            tval: numbers.tval,
        },
        OPEN => Packet::Support(Support::Open(mode_in(numbers.mode))),
        ENDED_REP => Packet::Support(Support::EndedRep),
        ENDED_NTR => Packet::Support(Support::EndedNtr),
        ADDRESS => Packet::Address {
            outcomes: outcomes_in(numbers.outcomes, numbers.map),
            delta: address,
            report: report_in(numbers.report),
        },
        _ => Packet::Map(outcomes_in(numbers.outcomes, numbers.map)),
    }
}

/// The report that has this number, if any has.
fn report_in(number: u32) -> Report
    ensures { result ≡ report_in number }
{
    match number {
        PLAIN => Report::Plain,
        UPDISCON => Report::Updiscon,
        _ => Report::Notify,
    }
}

/// The mode that has this number, if any has.
pub(crate) fn mode_in(number: u32) -> Mode
    ensures { result ≡ mode_in number }
{
    match number {
        DIFFERENTIAL => Mode::Differential,
        _ => Mode::Full,
    }
}

/// As many outcomes of a map, at most 31. What the map has above them is not read.
pub(crate) fn outcomes_in(wanted: u32, map: u32) -> Outcomes
    ensures { result ≡ outcomes_in_map (min wanted most_outcomes) map }
{
    let count = wanted.min(MOST_OUTCOMES as u32);
    Outcomes::of_map(count, map % (1 << count))
}
