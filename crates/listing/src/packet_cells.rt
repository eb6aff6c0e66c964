//! The fields of a packet.

ghost use Rattle.std.specs.Prelude.{◌≡◌, Ok, Some};
ghost use Rattle.listing.specs.Packets.{cause_field, ended_field, hex_unless, is_full};
ghost use Rattle.listing.specs.Packets.{mode_field, packet_fields, support_field};
ghost use Rattle.listing.specs.Cells.{cells};

use captures::{MapText, address_report_text, branch_text};
use payload::{Mode, PackFault, Packet, Support};
use std::fmt;
use std::fmt::Display;

/// The fields of what a payload unpacks to, with a comma after each.
#[derive(Clone, Copy)]
pub(crate) struct PacketCells<'a> {
    /// The mode that says what an address field is.
    pub(crate) mode: Mode,
    pub(crate) read: &'a Result<Packet, PackFault>,
}

impl fmt::Display for PacketCells<'_> {
    ghost output = { λ fields. Some (cells (packet_fields fields.mode fields.read.now)) };

    fn fmt<W: fmt::Write>(&self, f: &mut fmt::Formatter<W>) -> fmt::Result {
        match self.read {
            Ok(packet) => FieldsOf {
                mode: self.mode,
                packet,
            }
            .fmt(f),
            Err(why) => write!(f, "bad,,,,,,,,,,,,,,{why},"),
        }
    }
}

/// The fields of a packet, with a comma after each.
#[derive(Clone, Copy)]
struct FieldsOf<'a> {
    mode: Mode,
    packet: &'a Packet,
}

impl fmt::Display for FieldsOf<'_> {
    ghost output = { λ fields. Some (cells (packet_fields fields.mode (Ok fields.packet.now))) };

    fn fmt<W: fmt::Write>(&self, f: &mut fmt::Formatter<W>) -> fmt::Result {
        match *self.packet {
            Packet::Sync {
                taken,
                privilege,
                address,
            } => {
                let branch = branch_text(taken);
                write!(f, "sync,{address:x},,{privilege:x},{branch},,,,,,,,,,,")
            }
            Packet::Trap {
                taken,
                privilege,
                cause,
                interrupt,
                handler,
                address,
                tval,
            } => {
                let branch = branch_text(taken);
                let trap = cause_field(interrupt);
                let tval = HexUnless(interrupt, tval);
                let at = HexUnless(!handler, address);
                let epc = HexUnless(handler, address);
                write!(
                    f,
                    "trap,,,{privilege:x},{branch},{trap},{cause:x},{tval},{at},{epc},,,,,,"
                )
            }
            Packet::Support(support) => {
                let kind = support_field(support);
                let mode = mode_field(support);
                let ended = ended_field(support);
                write!(f, "{kind},,,,,,,,,,,,{mode},{ended},,")
            }
            Packet::Address {
                ref outcomes,
                delta,
                report,
            } => {
                let full = is_full(self.mode);
                let addr = HexUnless(!full, delta);
                let diff = HexUnless(full, delta);
                let map = MapText(outcomes);
                let report = address_report_text(report);
                write!(f, "address,{addr},{diff},,,,,,,,{map},{report},,,,")
            }
            Packet::Map(ref outcomes) => write!(f, "map,,,,,,,,,,{},,,,,", MapText(outcomes)),
        }
    }
}

/// A number in hexadecimal, unless this is so.
#[derive(Clone, Copy)]
struct HexUnless(bool, u64);

impl fmt::Display for HexUnless {
    ghost output = { λ number. Some (hex_unless number.0 number.1) };

    fn fmt<W: fmt::Write>(&self, f: &mut fmt::Formatter<W>) -> fmt::Result {
        if self.0 {
            f.write_str("")
        } else {
            write!(f, "{:x}", self.1)
        }
    }
}

/// Whether a trap is an interrupt or an exception.
fn cause_field(interrupt: bool) -> &'static str
    ensures { result.now ≡ cause_field interrupt }
{
    if interrupt { "interrupt" } else { "exception" }
}

/// Whether address fields are addresses.
fn is_full(mode: Mode) -> bool
    ensures { result ≡ is_full mode }
{
    match mode {
        Mode::Differential => false,
        Mode::Full => true,
    }
}

/// What a support packet does.
fn support_field(support: Support) -> &'static str
    ensures { result.now ≡ support_field support }
{
    match support {
        Support::Open(_) => "open",
        Support::EndedRep | Support::EndedNtr => "close",
    }
}

/// The mode that an opening packet announces.
fn mode_field(support: Support) -> &'static str
    ensures { result.now ≡ mode_field support }
{
    match support {
        Support::Open(Mode::Differential) => "diff",
        Support::Open(Mode::Full) => "full",
        Support::EndedRep | Support::EndedNtr => "",
    }
}

/// How a closing packet ends a trace.
fn ended_field(support: Support) -> &'static str
    ensures { result.now ≡ ended_field support }
{
    match support {
        Support::Open(_) => "",
        Support::EndedRep => "ended_rep",
        Support::EndedNtr => "ended_ntr",
    }
}
