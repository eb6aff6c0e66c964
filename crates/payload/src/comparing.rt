//! Whether two payloads are the same.

ghost use Rattle.std.specs.Prelude.{◌≡◌, ◌↔◌, Err, IsTrue, Ok};
ghost use Rattle.payload.specs.Same.{known_by, same};
ghost use Rattle.payload.specs.steps.Unpacking.{UnpackAlike};
ghost use Rattle.payload.specs.Bytes.{IsBytes};
ghost use Rattle.payload.specs.Profile.{InProfile};
ghost use Rattle.payload.specs.Reading.{reading};
ghost use Rattle.payload.specs.declared.fault.PackFault.{PackFault};
ghost use Rattle.payload.specs.declared.packet.Packet.{Packet as AnyPacket};

use crate::by::By;
use crate::{Packet, Payload, pack, unpack};

/// Whether the payload that came is the one that was sent.
///
/// By packets it is so where it unpacks to the packet that was sent. So an encoder that spells a packet longer than it
/// need be changes nothing. Where what was sent does not unpack, and by bytes always, the bytes have to be equal. Takes
/// no memory.
#[inline(always)]
pub fn same(sent: &[u8], came: &[u8], by: By) -> bool
    ensures value { result ≡ same by sent.now came.now }
    ensures bytes { by ≡ By.Bytes → IsTrue result ↔ (came.now ≡ sent.now) }
    ensures packets { (packet : AnyPacket) → by ≡ By.Packets → reading sent.now ≡ Ok packet
        → IsTrue result ↔ (reading came.now ≡ Ok packet) }
    ensures unread { (why : PackFault) → by ≡ By.Packets → reading sent.now ≡ Err why
        → IsTrue result ↔ (came.now ≡ sent.now) }
{
    *sent == *came || same_otherwise(sent, came, by)
}

/// The payload that is known by the same bytes, and is itself these bytes: by packets the shortest one of the packet that
/// the payload unpacks to, where it unpacks; else the payload. Takes no memory.
pub fn known(payload: &Payload, by: By) -> Payload
    ensures { result ≡ known_by by payload.now }
{
    match by {
        By::Bytes => copy(payload),
        By::Packets => match unpack(payload.bytes()) {
            Ok(packet) => pack(&packet),
            Err(_) => copy(payload),
        },
    }
}

/// The same payload once more.
fn copy(payload: &Payload) -> Payload
    ensures { result ≡ payload.now }
{
    match Payload::new(payload.bytes()) {
        Ok(copy) => copy,
        Err(_) => unreachable!(),
    }
}

/// Whether payloads whose bytes differ are the same.
#[inline(never)]
fn same_otherwise(sent: &[u8], came: &[u8], by: By) -> bool
    ensures alike { IsTrue result ↔ UnpackAlike by sent.now came.now }
    ensures sent_bytes { IsBytes sent.now }
    ensures came_bytes { IsBytes came.now }
{
    match by {
        By::Bytes => false,
        By::Packets => match (unpack(sent), unpack(came)) {
            (Ok(sent), Ok(came)) => same_packet(&sent, &came),
            _ => false,
        },
    }
}

/// Whether two packets have the same shortest payload, and so are one packet.
fn same_packet(one: &Packet, other: &Packet) -> bool
    requires one { InProfile one.now }
    requires other { InProfile other.now }
    ensures { IsTrue result ↔ (one.now ≡ other.now) }
{
    let one_payload = pack(one);
    let other_payload = pack(other);
    *one_payload.bytes() == *other_payload.bytes()
}
