//! Packets as text.

ghost use Rattle.std.specs.Prelude.{◌≡◌, Some, codes};
ghost use Rattle.captures.specs.PacketText.{branch_text, cause_text, field_address, field_text, map_text, packet_text};
ghost use Rattle.captures.specs.PacketText.{reading_address, trap_address_text, reading_text, address_report_text, support_text};

use payload::{Mode, Outcomes, PackFault, Packet, Report, Support};
use std::fmt;
use std::fmt::Display;

/// The text of what a payload is: that of its packet, or `bad` and why it is none, as
/// [`dump_capture`](crate::dump_capture) writes it after the hart's number and the message's.
#[derive(Clone, Copy)]
pub struct ReadingText<'a> {
    /// The mode that names the address field: that of the capture's header, or [`Mode::Differential`] where there is
    /// none.
    pub mode: Mode,
    /// What [`unpack`](payload::unpack) says of the payload.
    pub read: &'a Result<Packet, PackFault>,
}

impl fmt::Display for ReadingText<'_> {
    ghost output = { λ text. Some (reading_text text.mode text.read.now) };

    fn fmt<W: fmt::Write>(&self, f: &mut fmt::Formatter<W>) -> fmt::Result {
        let mode = self.mode;
        match self.read {
            Ok(packet) => PacketText { mode, packet }.fmt(f),
            Err(why) => write!(f, "bad {why}"),
        }
    }
}

/// The text of a packet: its kind and its fields by name, their numbers in lower-case hexadecimal.
#[derive(Clone, Copy)]
struct PacketText<'a> {
    /// The mode that names the address field.
    mode: Mode,
    packet: &'a Packet,
}

impl fmt::Display for PacketText<'_> {
    ghost output = { λ text. Some (packet_text text.mode text.packet.now) };

    fn fmt<W: fmt::Write>(&self, f: &mut fmt::Formatter<W>) -> fmt::Result {
        match *self.packet {
            Packet::Sync {
                taken,
                privilege,
                address,
            } => {
                let branch = branch_text(taken);
                write!(
                    f,
                    "sync addr={address:x} priv={privilege:x} branch={branch}"
                )
            }
            Packet::Trap {
                taken,
                privilege,
                cause,
                interrupt,
                handler,
                address,
                tval,
            } => {
                let cause = CauseText {
                    interrupt,
                    cause,
                    tval,
                };
                let place = trap_address_text(handler);
                let branch = branch_text(taken);
                write!(
                    f,
                    "trap {cause} {place}={address:x} priv={privilege:x} branch={branch}"
                )
            }
            Packet::Support(support) => f.write_str(support_text(support)),
            Packet::Address {
                ref outcomes,
                delta,
                report,
            } => {
                let map = MapText(outcomes);
                let report = address_report_text(report);
                let field = field_text(self.mode);
                write!(f, "address {field}={delta:x} map={map} {report}")
            }
            Packet::Map(ref outcomes) => write!(f, "map {}", MapText(outcomes)),
        }
    }
}

/// The cause of a trap, and of an exception its value.
#[derive(Clone, Copy)]
struct CauseText {
    interrupt: bool,
    cause: u8,
    tval: u64,
}

impl fmt::Display for CauseText {
    ghost output = { λ text. Some (cause_text text.interrupt text.cause text.tval) };

    fn fmt<W: fmt::Write>(&self, f: &mut fmt::Formatter<W>) -> fmt::Result {
        let cause = self.cause;
        let tval = self.tval;
        if self.interrupt {
            write!(f, "interrupt cause={cause:x}")
        } else {
            write!(f, "exception cause={cause:x} tval={tval:x}")
        }
    }
}

/// The outcomes of branches, the oldest first, or `-` where there are none.
#[derive(Clone, Copy)]
pub struct MapText<'a>(pub &'a Outcomes);

impl fmt::Display for MapText<'_> {
    ghost output = { λ text. Some (map_text text.0.now) };

    fn fmt<W: fmt::Write>(&self, f: &mut fmt::Formatter<W>) -> fmt::Result {
        if self.0.is_empty() {
            return f.write_str("-");
        }
        for place in 0..self.0.len() {
            if let Some(taken) = self.0.get(place) {
                f.write_str(branch_text(taken))?;
            }
        }
        Ok(())
    }
}

/// A branch's bit of a branch map: 0 where it was taken.
pub fn branch_text(taken: bool) -> &'static str
    ensures { result.now ≡ branch_text taken }
{
    if taken { "0" } else { "1" }
}

/// The name of a trap packet's address: that of the handler, or the exception program counter.
fn trap_address_text(handler: bool) -> &'static str
    ensures { result.now ≡ trap_address_text handler }
{
    if handler { "handler" } else { "epc" }
}

/// The name of an address field in this mode.
fn field_text(mode: Mode) -> &'static str
    ensures { result.now ≡ field_text mode }
{
    match mode {
        Mode::Differential => "diff",
        Mode::Full => "addr",
    }
}

/// The word or words for a support packet.
fn support_text(support: Support) -> &'static str
    ensures { result.now ≡ support_text support }
{
    match support {
        Support::Open(Mode::Differential) => "open",
        Support::Open(Mode::Full) => "open full",
        Support::EndedRep => "close ended_rep",
        Support::EndedNtr => "close ended_ntr",
    }
}

/// The word for why an address is reported.
pub fn address_report_text(report: Report) -> &'static str
    ensures { result.now ≡ address_report_text report }
{
    match report {
        Report::Plain => "plain",
        Report::Updiscon => "updiscon",
        Report::Notify => "notify",
    }
}

/// The address that a payload reports, by what it unpacks to: that of a sync or a trap packet, and in full mode that of
/// an address packet.
pub(crate) fn address_of(mode: Mode, read: &Result<Packet, PackFault>) -> Option<u64>
    ensures { result ≡ reading_address mode read.now }
{
    match read {
        Ok(Packet::Sync { address, .. }) => Some(*address),
        Ok(Packet::Trap { address, .. }) => Some(*address),
        Ok(Packet::Address { delta, .. }) => field_address(mode, *delta),
        Ok(Packet::Support(_)) => None,
        Ok(Packet::Map(_)) => None,
        Err(_) => None,
    }
}

/// The address that an address field reports in this mode.
fn field_address(mode: Mode, delta: u64) -> Option<u64>
    ensures { result ≡ field_address mode delta }
{
    match mode {
        Mode::Differential => None,
        Mode::Full => Some(delta),
    }
}
