//! Packets and their payloads.

ghost use Rattle.std.specs.Prelude.{◌≡◌, ◌≢◌};
ghost use Rattle.payload.specs.Profile.{InProfile};
ghost use Rattle.payload.specs.Reading.{reading};
ghost use Rattle.payload.specs.Spelling.{payload_of};
ghost use Rattle.payload.specs.declared.packet.Packet.{Packet as AnyPacket};
ghost use Rattle.ffi.specs.Handed.{IsHandedOut};
ghost use Rattle.ffi.specs.Numbers.{numbers_of};
ghost use Rattle.ffi.specs.Packed.{IsUnpacked};
ghost use Rattle.ffi.specs.Statuses.{pack_status};

use crate::handing::hand_out;
use crate::numbers::{PacketNumbers, numbers_of, packet_of};
use crate::status::{
    BAD_PAD, BAD_PRIVILEGE, BAD_REPORT, DONE, EMPTY, NO_PACKET, TOO_LONG, UNSUPPORTED,
};
use payload::{PackFault, pack, unpack};

/// Writes the shortest payload of the packet that has these numbers to a buffer; at most 18 bytes are wanted.
///
/// The status is [`DONE`], [`TOO_SMALL`](crate::status::TOO_SMALL), or [`NO_PACKET`] where no packet of the profile has
/// these numbers. The last writes nothing. No memory is taken.
pub fn tracebench_pack(numbers: &PacketNumbers, buffer: &mut [u8], wanted: &mut u64) -> u32
    ensures packed { (packet : AnyPacket) → InProfile packet → numbers.now ≡ numbers_of packet
        → IsHandedOut (payload_of packet) result wanted.new buffer.old buffer.new }
    ensures refused { ((packet : AnyPacket) → InProfile packet → numbers.now ≢ numbers_of packet)
        → (result ≡ NO_PACKET) × (wanted.new ≡ wanted.old) × (buffer.new ≡ buffer.old) }
{
    match packet_of(numbers) {
        Some(packet) => hand_out(pack(&packet).bytes(), buffer, wanted),
        None => NO_PACKET,
    }
}

/// Writes the numbers of a payload's packet, whether it is the packet's shortest payload or longer.
///
/// The status is [`DONE`], or else [`EMPTY`], [`TOO_LONG`], [`UNSUPPORTED`], [`BAD_PRIVILEGE`], [`BAD_REPORT`] or
/// [`BAD_PAD`], which are tested in this order; these write nothing. No memory is taken.
pub fn tracebench_unpack(payload: &[u8], numbers: &mut PacketNumbers) -> u32
    ensures { IsUnpacked (reading payload.now) result numbers.old numbers.new }
{
    match unpack(payload) {
        Ok(packet) => {
            *numbers = numbers_of(&packet);
            DONE
        }
        Err(why) => pack_status(why),
    }
}

/// Why a payload is not unpacked.
pub(crate) fn pack_status(why: PackFault) -> u32
    ensures { result ≡ pack_status why }
{
    match why {
        PackFault::Empty => EMPTY,
        PackFault::TooLong => TOO_LONG,
        PackFault::BadPad => BAD_PAD,
        PackFault::Unsupported => UNSUPPORTED,
        PackFault::BadPrivilege => BAD_PRIVILEGE,
        PackFault::BadReport => BAD_REPORT,
    }
}
