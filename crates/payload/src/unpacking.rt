//! From bytes to packets.
ghost use Rattle.std.specs.Prelude.{◌≡◌, ◌<◌, ◌≤◌, IfOk, IfSome, Ok};
ghost use Rattle.std.specs.Result.{result_err};
ghost use Rattle.payload.specs.Faults.{first_fault};
ghost use Rattle.payload.specs.Limits.{most_outcomes};
ghost use Rattle.payload.specs.Profile.{InProfile};
ghost use Rattle.payload.specs.Reading.{outcomes_from, reading};
ghost use Rattle.payload.specs.steps.ReadingByKind.{sync_reading, trap_reading, support_reading, report_in};
ghost use Rattle.payload.specs.steps.ReadingByKind.{address_reading, map_reading, address_place, reading_with_no_place};
ghost use Rattle.payload.specs.steps.ReadingByKind.{reading_by_place};
ghost use Rattle.payload.specs.Spelling.{Spelt};
ghost use Rattle.payload.specs.declared.packet.Packet.{Packet as AnyPacket};

use crate::bits::Bits;
use crate::layout::*;
use crate::outcomes::map_width;
use crate::{MOST_BYTES, Mode, Outcomes, PackFault, Packet, Report, Support};

/// The packet that bytes represent, whether they are its shortest payload or longer; or else the first fault.
#[inline(always)]
pub fn unpack(bytes: &[u8]) -> Result<Packet, PackFault>
    ensures found { IfOk result (λ packet. InProfile packet × Spelt bytes.now packet) }
    ensures only { (packet : AnyPacket) → InProfile packet → Spelt bytes.now packet → result ≡ Ok packet }
    ensures fault { result_err result ≡ first_fault bytes.now }
    // The result is a function of the bytes.
    ensures value { result ≡ reading bytes.now }
{
    unpacked(bytes)
}

/// The packet of bytes, read by its format, or else the first fault.
///
/// It is compiled apart from its callers, and builds a packet of format 1 or 2 itself: each copy of a packet that was
/// just built makes the machine wait for its bytes.
#[inline(never)]
#[tactic(auto, unfolding(crate::specs::steps::ReadingByKind::reading_by_place, crate::specs::steps::ReadingByKind::address_reading))]
fn unpacked(bytes: &[u8]) -> Result<Packet, PackFault>
    ensures { result ≡ reading_by_place bytes.now }
{
    if bytes.is_empty() {
        return Err(PackFault::Empty);
    }
    if bytes.len() > MOST_BYTES {
        return Err(PackFault::TooLong);
    }
    let bits = Bits::read(bytes);
    let Some((outcomes, from)) = address_place(&bits) else {
        return with_no_place(&bits);
    };
    let Some(report) = report_of(
        bits.part(from + TOP_BIT, 1),
        bits.part(from + NOTIFY_BIT, 3),
    ) else {
        return Err(PackFault::BadReport);
    };
    if !bits.has_width(from + REPORTED_WIDTH) {
        return Err(PackFault::BadPad);
    }
    Ok(Packet::Address {
        outcomes,
        delta: bits.part(from, ADDRESS_WIDTH) << 1,
        report,
    })
}

/// The outcomes of bits that have an address field of format 1 or 2, and the bit at which it begins.
#[inline(always)]
fn address_place(bits: &Bits) -> Option<(Outcomes, u32)>
    ensures value { result ≡ address_place bits.now }
    ensures inside { IfSome result (λ place. place.1 ≤ 38) }
{
    match bits.field(FORMAT) {
        2 => Some((Outcomes::new(), ADDRESS_FROM)),
        1 => {
            let count = bits.field(BRANCHES) as u32;
            if count == 0 {
                return None;
            }
            let outcomes = first_outcomes(bits, count);
            Some((outcomes, MAP_FROM + map_width(count as usize)))
        }
        _ => None,
    }
}

/// The packet of bits that have no address field of format 1 or 2.
#[inline(never)]
fn with_no_place(bits: &Bits) -> Result<Packet, PackFault>
    ensures { result ≡ reading_with_no_place bits.now }
{
    match (bits.field(FORMAT), bits.field(SUBFORMAT) as u8) {
        (3, SYNC) => sync_of(bits),
        (3, TRAP) => trap_of(bits),
        (3, SUPPORT) => support_of(bits),
        (1, _) => full_map_of(bits),
        _ => Err(PackFault::Unsupported),
    }
}

/// The packet of bits of format 3, subformat 0.
#[tactic(auto, unfolding(crate::specs::steps::ReadingByKind::sync_reading))]
fn sync_of(bits: &Bits) -> Result<Packet, PackFault>
    ensures { result ≡ sync_reading bits.now }
{
    let privilege = bits.field(PRIVILEGE) as u8;
    if privilege == 2 {
        return Err(PackFault::BadPrivilege);
    }
    if !bits.has_width(SYNC_WIDTH) {
        return Err(PackFault::BadPad);
    }
    Ok(Packet::Sync {
        taken: bits.field(BRANCH) == 0,
        privilege,
        address: bits.field(SYNC_ADDRESS) << 1,
    })
}

/// The packet of bits of format 3, subformat 1.
#[tactic(auto, unfolding(crate::specs::steps::ReadingByKind::trap_reading))]
fn trap_of(bits: &Bits) -> Result<Packet, PackFault>
    ensures { result ≡ trap_reading bits.now }
{
    let privilege = bits.field(PRIVILEGE) as u8;
    if privilege == 2 {
        return Err(PackFault::BadPrivilege);
    }
    let interrupt = bits.field(INTERRUPT) == 1;
    let is_padded = if interrupt {
        bits.has_width(INTERRUPT_WIDTH)
    } else {
        bits.has_width_of_exception()
    };
    if !is_padded {
        return Err(PackFault::BadPad);
    }
    Ok(Packet::Trap {
        taken: bits.field(BRANCH) == 0,
        privilege,
        cause: bits.field(ECAUSE) as u8,
        interrupt,
        handler: bits.field(THADDR) == 1,
        address: bits.field(TRAP_ADDRESS) << 1,
        tval: if interrupt { 0 } else { bits.tval() },
    })
}

/// The packet of bits of format 3, subformat 3.
#[tactic(auto, unfolding(crate::specs::steps::ReadingByKind::support_reading))]
fn support_of(bits: &Bits) -> Result<Packet, PackFault>
    ensures { result ≡ support_reading bits.now }
{
    let support = match (
        bits.field(ENABLE) as u8,
        bits.field(STATUS) as u8,
        bits.field(OPTIONS) as u8,
    ) {
        (1, NO_CHANGE, DIFFERENTIAL) => Support::Open(Mode::Differential),
        (1, NO_CHANGE, FULL) => Support::Open(Mode::Full),
        (0, ENDED_REP, NO_OPTIONS) => Support::EndedRep,
        (0, ENDED_NTR, NO_OPTIONS) => Support::EndedNtr,
        _ => return Err(PackFault::Unsupported),
    };
    if !bits.has_width(SUPPORT_WIDTH) {
        return Err(PackFault::BadPad);
    }
    Ok(Packet::Support(support))
}

/// The packet of bits of format 1 without branches.
#[tactic(auto, unfolding(crate::specs::steps::ReadingByKind::map_reading))]
fn full_map_of(bits: &Bits) -> Result<Packet, PackFault>
    ensures { result ≡ map_reading bits.now }
{
    if !bits.has_width(MAP_PACKET_WIDTH) {
        return Err(PackFault::BadPad);
    }
    Ok(Packet::Map(first_outcomes(bits, FULL_MAP.width)))
}

/// The first outcomes of the branch map, as many as this count.
fn first_outcomes(bits: &Bits, count: u32) -> Outcomes
    requires some { 1 ≤ count }
    requires few { count ≤ most_outcomes }
    ensures { result ≡ outcomes_from bits.now count }
{
    Outcomes::of_map(count, bits.part(MAP_FROM, count) as u32)
}

/// The report of notify, updiscon and irreport after an address field with this top bit.
#[tactic(auto, unfolding(crate::specs::steps::ReadingByKind::report_in))]
fn report_of(top: u64, tail: u64) -> Option<Report>
    requires bit { top < 2 }
    requires bits { tail < 8 }
    ensures { result ≡ report_in top tail }
{
    match (top, tail) {
        (0, 0b000) | (1, 0b111) => Some(Report::Plain),
        (0, 0b110) | (1, 0b001) => Some(Report::Updiscon),
        (0, 0b111) | (1, 0b000) => Some(Report::Notify),
        _ => None,
    }
}
