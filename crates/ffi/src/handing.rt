//! Bytes, and the numbers of packets and events, that go into a caller's buffer.

ghost use Rattle.std.specs.Prelude.{◌≡◌, ◌⊎◌, ◌+◌, ◌^◌, ◌<◌, ◌≤◌, ◌++◌, length, map};
ghost use Rattle.ffi.specs.Events.{numbers_of_event};
ghost use Rattle.ffi.specs.Handed.{IsHandedOut};
ghost use Rattle.ffi.specs.Numbers.{numbers_of};
ghost use Rattle.ffi.specs.Pushed.{AreFew};
ghost use Rattle.ffi.specs.declared.status.TheConstants.{DONE, TOO_SMALL};

use crate::events::{EventNumbers, numbers_of_event};
use crate::numbers::{PacketNumbers, numbers_of};
use crate::status::{DONE, TOO_SMALL};
use payload::Packet;
use retire::Event;

/// Writes bytes to the start of a buffer, and how many they are. Where the buffer is too small, none is written to it.
pub(crate) fn hand_out(bytes: &[u8], buffer: &mut [u8], wanted: &mut u64) -> u32
    ensures { IsHandedOut bytes.now result wanted.new buffer.old buffer.new }
{
    *wanted = bytes.len() as u64;
    if buffer.len() < bytes.len() {
        return TOO_SMALL;
    }
    buffer[..bytes.len()].copy_from_slice(bytes);
    DONE
}

/// Writes the bytes of two parts, one after the other, as [`hand_out`] does.
pub(crate) fn hand_out_both(first: &[u8], second: &[u8], buffer: &mut [u8], wanted: &mut u64) -> u32
    requires { length first.now + length second.now < 2 ^ 64 }
    ensures { IsHandedOut (first.now ++ second.now) result wanted.new buffer.old buffer.new }
{
    let front = first.len();
    let size = front + second.len();
    *wanted = size as u64;
    if buffer.len() < size {
        return TOO_SMALL;
    }
    buffer[..front].copy_from_slice(first);
    buffer[front..size].copy_from_slice(second);
    DONE
}

/// Writes the numbers of packets to the start of a buffer, and how many packets there are. Where the buffer is too
/// small, nothing is written to it.
#[inline(always)]
pub(crate) fn hand_out_packets(
    given: &[Packet],
    packets: &mut [PacketNumbers],
    count: &mut u64,
) -> u32
    ensures handed { IsHandedOut (map numbers_of given.now) result count.new packets.old packets.new }
    ensures small { result ≡ TOO_SMALL → length packets.old < length given.now }
    ensures status { (result ≡ DONE) ⊎ (result ≡ TOO_SMALL) }
    ensures few { length given.now ≤ 2 → AreFew result count.new packets.old packets.new }
{
    *count = given.len() as u64;
    if packets.len() < given.len() {
        return TOO_SMALL;
    }
    for place in 0..given.len() {
        packets[place] = numbers_of(&given[place]);
    }
    DONE
}

/// Writes the numbers of events to the start of a buffer, and how many events there are. Where the buffer is too small,
/// nothing is written to it.
pub(crate) fn hand_out_events(given: &[Event], events: &mut [EventNumbers], count: &mut u64) -> u32
    ensures { IsHandedOut (map numbers_of_event given.now) result count.new events.old events.new }
{
    *count = given.len() as u64;
    if events.len() < given.len() {
        return TOO_SMALL;
    }
    for place in 0..given.len() {
        events[place] = numbers_of_event(&given[place]);
    }
    DONE
}
