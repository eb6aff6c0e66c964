//! Where each hart's messages are.

ghost use Rattle.std.specs.Prelude.{◌≡◌, ◌<◌, true, false, All, List, [], IfOk, IfSome, OnOk, Ok, Some, length};
ghost use Rattle.message.specs.Range.{selected, selects};
ghost use Rattle.payload.specs.Reading.{reading};
ghost use Rattle.payload.specs.declared.packet.Packet.{Packet as AnyPacket};
ghost use Rattle.message.specs.declared.message.Message.{Message as AnyMessage};
ghost use Rattle.parallel_decode.specs.Places.{AreFirst, ArePlaced, HasPacketAt, IsAdded, IsAt};

use crate::own::Own;
use message::{HartRange, Message, Messages};
use payload::{Packet, unpack};
use std::alloc::{AllocError, Allocator};

/// Where those of the first `count` messages of these bytes begin that are of the harts in a range, for each of these
/// harts. Memory is taken for as many messages of a hart as were accepted.
pub(crate) fn places_of<A: Allocator + Copy>(
    alloc: A,
    range: HartRange,
    owns: &[Own],
    count: u64,
    bytes: &[u8],
) -> Result<Vec<Vec<usize, A>, A>, AllocError>
    ensures harts { IfOk result (λ places. length places.items ≡ length owns.now) }
    ensures places { (messages : List AnyMessage) → AreFirst range bytes.now count messages
        → IfOk result (λ places. ArePlaced bytes.now places.items (selected range messages)) }
{
    let mut places = empty_lists(alloc, owns)?;
    let mut messages = Messages::new(bytes);
    let mut place = 0;
    for _ in 0..count {
        match messages.next() {
            Ok(Some(message)) => {
                add_selected(&mut places, range, message.hart, place)?;
                place += message.size();
            }
            Ok(None) => return Ok(places),
            Err(_) => return Ok(places),
        }
    }
    Ok(places)
}

/// Adds a place to the list of a hart, if it is one of the harts in a range. Returns false if there is no list of it.
pub fn add_selected<A: Allocator>(
    places: &mut Vec<Vec<usize, A>, A>,
    range: HartRange,
    hart: u16,
    place: usize,
) -> Result<bool, AllocError>
    ensures added { selects range hart ≡ true → OnOk result (IsAdded hart place places.old.items places.new.items) }
    ensures passed { selects range hart ≡ false → places.new.items ≡ places.old.items }
    ensures known { IfOk result (λ known. known ≡ true → selects range hart ≡ true
        → hart < length places.old.items) }
    ensures kept { IfOk result (λ known. known ≡ false → places.new.items ≡ places.old.items) }
    ensures harts { length places.new.items ≡ length places.old.items }
{
    if !range.selects(hart) {
        return Ok(true);
    }
    match places.get_mut(usize::from(hart)) {
        Some(own) => {
            own.reserve(1)?;
            own.push_reserved(place);
            Ok(true)
        }
        None => Ok(false),
    }
}

/// A list without an element for each of these harts, with capacity for as many as messages of it were accepted.
fn empty_lists<A: Allocator + Copy>(
    alloc: A,
    owns: &[Own],
) -> Result<Vec<Vec<usize, A>, A>, AllocError>
    ensures harts { IfOk result (λ lists. length lists.items ≡ length owns.now) }
    ensures empty { IfOk result (λ lists. All (λ list. list.items ≡ []) lists.items) }
{
    let mut lists = Vec::with_capacity(alloc, owns.len())?;
    for own in owns {
        lists.push_reserved(Vec::with_capacity(alloc, own.expected.expected as usize)?);
    }
    Ok(lists)
}

/// The packet of the message that begins at this place, if one does whose payload is a packet.
pub fn packet_at(bytes: &[u8], place: usize) -> Option<Packet>
    ensures read { (message : AnyMessage) (packet : AnyPacket) → IsAt bytes.now place message
        → reading message.payload ≡ Ok packet → result ≡ Some packet }
    ensures found { IfSome result (HasPacketAt bytes.now place) }
{
    if bytes.len() < place {
        return None;
    }
    let mut messages = Messages::new(&bytes[place..]);
    match messages.next() {
        Ok(Some(message)) => packet_of(&message),
        Ok(None) => None,
        Err(_) => None,
    }
}

/// The packet of a message, if its payload is one.
fn packet_of(message: &Message) -> Option<Packet>
    ensures read { (packet : AnyPacket) → reading message.now.payload ≡ Ok packet → result ≡ Some packet }
    ensures found { IfSome result (λ packet. reading message.now.payload ≡ Ok packet) }
{
    match unpack(message.payload.bytes()) {
        Ok(packet) => Some(packet),
        Err(_) => None,
    }
}
