//! Counting events and packets.

ghost use Rattle.std.specs.Prelude.{◌≡◌, ◌^◌, ◌≤◌, All, [], ◌∷◌, length, map};
ghost use Rattle.rvclass.specs.Fetch.{words_of};
ghost use Rattle.payload.specs.Limits.{most_bytes};
ghost use Rattle.payload.specs.Profile.{InProfile};
ghost use Rattle.payload.specs.Spelling.{payload_of};
ghost use Rattle.captures.specs.Bounds.{AreWithin};
ghost use Rattle.captures.specs.Measures.{measured, together};
ghost use Rattle.captures.specs.steps.Counting.{CountsPackets, GrowsBy, packet_measures};

use crate::measures::Measures;
use encoder::Encoder;
use payload::{Packet, Report, pack};
use retire::Event;
use rvclass::ProgramOver;

/// Adds events.
pub(crate) fn count_events(measures: &mut Measures, events: &[Event])
    requires room { AreWithin (2 ^ 48) measures.old }
    requires few { length events.now ≤ 2 ^ 32 }
    ensures value { measures.new ≡ together measures.old (measured events.now [] []) }
    ensures grows { GrowsBy (length events.now) measures.old measures.new }
{
    measures.add(&measure_events(events));
}

/// Gives an encoder the next events of its log, and adds the packets that they make due.
pub(crate) fn count_packets(
    measures: &mut Measures,
    encoder: &mut Encoder,
    program: &ProgramOver,
    events: &[Event],
)
    requires room { AreWithin (2 ^ 48) measures.old }
    requires few { length events.now ≤ 2 ^ 32 }
    ensures value { CountsPackets (words_of program.now) events.now encoder.old measures.old encoder.new measures.new }
    ensures grows { GrowsBy (length events.now) measures.old measures.new }
    ensures events { measures.new.events ≡ measures.old.events }
{
    let mut taken = 0;
    // Each packet takes an event at least.
    for _ in 0..events.len() {
        let (count, next) = encoder.push_until_packet(program, &events[taken..]);
        taken += count;
        let Some(packet) = next else {
            return;
        };
        count_packet(measures, &packet);
    }
}

/// Adds packets and their payloads, at most so many as end a log.
pub(crate) fn count_all(measures: &mut Measures, packets: &[Packet])
    requires room { AreWithin (2 ^ 48) measures.old }
    requires few { length packets.now ≤ 2 }
    ensures value { All InProfile packets.now →
        measures.new ≡ together measures.old (measured [] packets.now (map payload_of packets.now)) }
    ensures grows { GrowsBy (length packets.now) measures.old measures.new }
{
    for packet in packets {
        count_packet(measures, packet);
    }
}

/// The measures of events alone.
fn measure_events(events: &[Event]) -> Measures
    requires { length events.now ≤ 2 ^ 32 }
    ensures { result ≡ measured events.now [] [] }
{
    let mut measures = Measures::none();
    for event in events {
        count_event(&mut measures, event);
    }
    measures
}

/// Adds an event.
fn count_event(measures: &mut Measures, event: &Event)
    requires { AreWithin (2 ^ 50) measures.old }
    ensures { measures.new ≡ together measures.old (measured (event.now ∷ []) [] []) }
{
    measures.events += 1;
    match event {
        Event::Retire { .. } => measures.retirements += 1,
        Event::Trap { .. } => measures.traps += 1,
    }
    if event.is_branch() {
        measures.branches += 1;
    }
}

/// Adds a packet and its payload.
pub(crate) fn count_packet(measures: &mut Measures, packet: &Packet)
    requires { AreWithin (2 ^ 50) measures.old }
    ensures value { InProfile packet.now → measures.new
        ≡ together measures.old (measured [] (packet.now ∷ []) (payload_of packet.now ∷ [])) }
    ensures grows { GrowsBy 1 measures.old measures.new }
    ensures events { measures.new.events ≡ measures.old.events }
{
    count_sized(measures, packet, payload_length(packet));
}

/// How many bytes the payload of a packet of the profile has. Every packet of a legal log is of the profile.
fn payload_length(packet: &Packet) -> u64
    ensures value { InProfile packet.now → result ≡ length (payload_of packet.now) }
    ensures few { result ≤ most_bytes }
{
    if packet.in_profile() {
        pack(packet).bytes().len() as u64
    } else {
        0
    }
}

/// Adds a packet whose payload has this many bytes.
fn count_sized(measures: &mut Measures, packet: &Packet, bytes: u64)
    requires room { AreWithin (2 ^ 50) measures.old }
    requires few { bytes ≤ most_bytes }
    ensures { measures.new ≡ together measures.old (packet_measures packet.now bytes) }
{
    measures.payload_bytes += bytes;
    measures.longest = measures.longest.max(bytes);
    measures.packets += 1;
    match packet {
        Packet::Support(_) => measures.support += 1,
        Packet::Sync { .. } => measures.sync += 1,
        Packet::Trap { .. } => measures.trap += 1,
        Packet::Address { report, .. } => {
            measures.address += 1;
            match report {
                Report::Plain => {}
                Report::Updiscon => measures.updiscon += 1,
                Report::Notify => measures.notify += 1,
            }
        }
        Packet::Map(_) => measures.map += 1,
    }
}
