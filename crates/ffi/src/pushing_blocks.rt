//! Many events that are pushed at once, where there is room for a packet of each.

ghost use Rattle.std.specs.Prelude.{◌≡◌, ◌≤◌, IsTrue, length, map, take};
ghost use Rattle.rvclass.specs.Fetch.{words_of};
ghost use Rattle.ffi.specs.Events.{numbers_of_event};
ghost use Rattle.ffi.specs.declared.pushing_blocks.TheConstants.{BLOCK};
ghost use Rattle.ffi.specs.steps.PushingAll.{ArePushed, IsBlockPushed};

use crate::events::{EventNumbers, read_event};
use crate::numbers::{PacketNumbers, numbers_of};
use encoder::Encoder;
use retire::Event;
use rvclass::ProgramOver;

/// How many events a block holds.
const BLOCK: usize = 32;

/// What a block holds before events are read to it.
const NO_EVENT_YET: Event = Event::Retire {
    addr: 0,
    itype: 0,
    privilege: 0,
};

/// Pushes events in blocks of up to [`BLOCK`], with room for a packet of each event of a block, until no event or no
/// room is left or a block has numbers of no event. A single event is not pushed: a block takes longer for it than its
/// caller. Returns how many events were pushed, and how many packets were written.
pub(crate) fn push_blocks(
    program: &ProgramOver,
    encoder: &mut Encoder,
    events: &[EventNumbers],
    packets: &mut [PacketNumbers],
) -> (usize, usize)
    ensures pushed { ArePushed (words_of program.now) encoder.old events.now result.0 encoder.new result.1 packets.old
        packets.new }
    ensures within { result.0 ≤ length events.now }
{
    if events.len() < 2 {
        return (0, 0);
    }
    let mut block = [NO_EVENT_YET; BLOCK];
    let mut taken = 0;
    let mut written = 0;
    for _ in 0..events.len() {
        let count = (events.len() - taken)
            .min(packets.len() - written)
            .min(BLOCK);
        if count == 0 || !read_block(&events[taken..taken + count], &mut block) {
            return (taken, written);
        }
        written += push_block(program, encoder, &block[..count], &mut packets[written..]);
        taken += count;
    }
    (taken, written)
}

/// Reads events to the front of a block, two at a step, which is faster. Whether each of them is an event.
fn read_block(events: &[EventNumbers], block: &mut [Event; BLOCK]) -> bool
    requires { length events.now ≤ BLOCK }
    ensures { IsTrue result → map numbers_of_event (take (length events.now) block.new) ≡ events.now }
{
    for pair in 0..events.len() / 2 {
        let place = 2 * pair;
        if !read_event(&events[place], &mut block[place]) {
            return false;
        }
        if !read_event(&events[place + 1], &mut block[place + 1]) {
            return false;
        }
    }
    if events.len() % 2 == 1 {
        let last = events.len() - 1;
        return read_event(&events[last], &mut block[last]);
    }
    true
}

/// Pushes events for each of which there is room for a packet, and writes their packets. Returns how many these are.
fn push_block(
    program: &ProgramOver,
    encoder: &mut Encoder,
    block: &[Event],
    packets: &mut [PacketNumbers],
) -> usize
    requires { length block.now ≤ length packets.old }
    ensures { IsBlockPushed (words_of program.now) encoder.old block.now encoder.new result packets.old packets.new }
{
    let mut at = 0;
    for place in 0..block.len() {
        let (count, next) = encoder.push_until_packet(program, &block[at..]);
        let packet = match next {
            Some(packet) => packet,
            None => return place,
        };
        packets[place] = numbers_of(&packet);
        at += count;
    }
    block.len()
}
