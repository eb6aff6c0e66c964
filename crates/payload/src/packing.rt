//! From packets to payloads.
ghost use Rattle.std.specs.Prelude.{◌≡◌, ◌+◌, ◌*◌, ◌/◌, ◌^◌, ◌<◌, ◌≤◌, [], length, Ok};
ghost use Rattle.payload.specs.Fields.{joined};
ghost use Rattle.payload.specs.Limits.{most_outcomes};
ghost use Rattle.payload.specs.PacketFields.{fields, trap_fields, address_fields, report_fields};
ghost use Rattle.payload.specs.Profile.{InProfile};
ghost use Rattle.payload.specs.Reading.{reading};
ghost use Rattle.payload.specs.Spelling.{IsShortest, payload_of};

use crate::layout::*;
use crate::outcomes::map_width;
use crate::spelling::{spell, spell_long};
use crate::{Mode, Outcomes, Packet, Payload, Report, Support};

/// The payload of a packet: the shortest bytes of its fields.
///
/// The unused bits of a branch map are written 0. [`unpack`](crate::unpack) ignores them. So fewer bytes can unpack to
/// the packet too, where all bits after the unused ones are 1.
pub fn pack(packet: &Packet) -> Payload
    requires { InProfile packet.now }
    ensures value { result ≡ payload_of packet.now }
    ensures shortest { IsShortest result (fields packet.now) }
    // Unpacking gives the packet back.
    ensures unpacks { reading result ≡ Ok packet.now }
{
    packed(packet)
}

/// The payload of a packet.
fn packed(packet: &Packet) -> Payload
    requires { InProfile packet.now }
    ensures { result ≡ payload_of packet.now }
{
    match *packet {
        Packet::Sync {
            taken,
            privilege,
            address,
        } => spell(SYNC_WIDTH, sync_bits(taken, privilege, address)),
        Packet::Trap {
            taken,
            privilege,
            cause,
            interrupt,
            handler,
            address,
            tval,
        } => {
            let head = trap_bits(taken, privilege, cause, interrupt, handler, address);
            if interrupt {
                spell(INTERRUPT_WIDTH, head)
            } else {
                spell_long(head, tval)
            }
        }
        Packet::Support(support) => spell(SUPPORT_WIDTH, support_bits(support)),
        Packet::Address {
            outcomes,
            delta,
            report,
        } => packed_address(&outcomes, delta, report),
        Packet::Map(outcomes) => spell(
            MAP_PACKET_WIDTH,
            1 + (u128::from(outcomes.map()) << MAP_FROM),
        ),
    }
}

/// The bits of `format` and `subformat` of a packet of format 3.
#[inline(always)]
fn format_3(subformat: u8) -> u128
    requires { subformat < 4 }
    ensures { result ≡ 3 + 4 * subformat }
{
    3 + (u128::from(subformat) << SUBFORMAT.from)
}

/// The bits of a sync packet: format 3, subformat 0, then branch, privilege and address.
fn sync_bits(taken: bool, privilege: u8, address: u64) -> u128
    requires { privilege < 4 }
    ensures value { result ≡ joined (fields (Packet.Sync taken privilege address)) }
    ensures below { result < 2 ^ 70 }
{
    format_3(SYNC)
        + (u128::from(!taken) << BRANCH.from)
        + (u128::from(privilege) << PRIVILEGE.from)
        + (u128::from(address >> 1) << SYNC_ADDRESS.from)
}

/// The bits of a trap packet up to the address: format 3, subformat 1, then branch and what follows it.
fn trap_bits(
    taken: bool,
    privilege: u8,
    cause: u8,
    interrupt: bool,
    handler: bool,
    address: u64,
) -> u128
    requires level { privilege < 4 }
    requires cause { cause < 64 }
    ensures value { result ≡ joined (trap_fields taken privilege cause interrupt handler address []) }
    ensures below { result < 2 ^ 78 }
{
    format_3(TRAP)
        + (u128::from(!taken) << BRANCH.from)
        + (u128::from(privilege) << PRIVILEGE.from)
        + (u128::from(cause) << ECAUSE.from)
        + (u128::from(interrupt) << INTERRUPT.from)
        + (u128::from(handler) << THADDR.from)
        + (u128::from(address >> 1) << TRAP_ADDRESS.from)
}

/// The bits of a support packet: format 3, subformat 3, then ienable, qual_status and ioptions.
fn support_bits(support: Support) -> u128
    ensures value { result ≡ joined (fields (Packet.Support support)) }
    ensures below { result < 2 ^ 13 }
{
    let (ienable, status, options) = match support {
        Support::Open(Mode::Differential) => (1, NO_CHANGE, DIFFERENTIAL),
        Support::Open(Mode::Full) => (1, NO_CHANGE, FULL),
        Support::EndedRep => (0, ENDED_REP, NO_OPTIONS),
        Support::EndedNtr => (0, ENDED_NTR, NO_OPTIONS),
    };
    format_3(SUPPORT)
        + (ienable << ENABLE.from)
        + (u128::from(status) << STATUS.from)
        + (u128::from(options) << OPTIONS.from)
}

/// The payload of an address packet.
fn packed_address(outcomes: &Outcomes, delta: u64, report: Report) -> Payload
    requires { length outcomes.now ≤ most_outcomes }
    ensures { result ≡ payload_of (Packet.Address outcomes.now delta report) }
{
    let address = address_bits(delta, report);
    if outcomes.is_empty() {
        return spell(ADDRESS_FROM + REPORTED_WIDTH, 2 + (address << ADDRESS_FROM));
    }
    let count = outcomes.len();
    let width = map_width(count);
    let behind = u128::from(outcomes.map()) + (address << width);
    spell(
        MAP_FROM + width + REPORTED_WIDTH,
        1 + ((count as u128) << BRANCHES.from) + (behind << MAP_FROM),
    )
}

/// The bits of an address field and of notify, updiscon and irreport.
fn address_bits(delta: u64, report: Report) -> u128
    ensures value { result ≡ joined (address_fields delta report) }
    ensures below { result < 2 ^ 66 }
{
    u128::from(delta >> 1) + (u128::from(report_bits(delta, report)) << NOTIFY_BIT)
}

/// The bits notify, updiscon and irreport, which follow an address field that holds this.
fn report_bits(delta: u64, report: Report) -> u8
    ensures value { result ≡ joined (report_fields (delta / 2 ^ 63) report) }
    ensures below { result < 8 }
{
    let is_top_set = delta >> 63 != 0;
    match (report, is_top_set) {
        (Report::Plain, false) | (Report::Notify, true) => 0b000,
        (Report::Plain, true) | (Report::Notify, false) => 0b111,
        (Report::Updiscon, false) => 0b110,
        (Report::Updiscon, true) => 0b001,
    }
}
