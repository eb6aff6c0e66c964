//! Cases of encoders (`encoder`).

use cases::{Case, events_of, next_mode};
use encoder::{Encoder, Source};
use legalpath::LegalLog;
use payload::{Mode, Packet, Payload, pack};
use retire::Event;
use rvclass::Program;

/// The legal log of these events, if they are one.
pub(crate) fn legal_log<'p>(
    case: &Case,
    program: &'p Program,
    log: &[Event],
) -> Option<LegalLog<'p>> {
    let events = case.copied(log);
    if events.len() > 1 << 24 {
        case.unread();
        return None;
    }
    case.read(LegalLog::new(program, events))
}

/// The payloads that a source gives of a log.
pub(crate) fn sourced(
    case: &Case,
    log: &LegalLog<'_>,
    (period, mode): (u16, Mode),
) -> Vec<Payload> {
    let mut payloads = Vec::new(case.alloc);
    if period == 0 {
        case.unread();
        return payloads;
    }
    let mut source = Source::new(log, period, mode);
    for _ in 0..log.events().len().saturating_add(3) {
        if let Some(payload) = source.next() {
            case.push(&mut payloads, payload);
        }
    }
    if source.next().is_some() {
        case.unread();
    }
    payloads
}

/// Appends the payload of a packet, or a word where it is outside the profile.
fn put_packet(case: &Case, packet: &Packet) {
    if packet.in_profile() {
        case.put_bytes(pack(packet).bytes());
    } else {
        case.put_word("outside");
    }
}

/// How the events of a log come to an encoder.
#[derive(Clone, Copy)]
enum Way {
    /// One at a time.
    Singly,
    /// Up to the first that makes a packet due.
    UntilPacket,
}

/// Appends packets.
fn put_packets(case: &Case, packets: &[Packet]) {
    for packet in packets {
        put_packet(case, packet);
    }
}

/// Appends the packets of events that come up to the first that makes a packet due.
fn push_until(case: &Case, encoder: &mut Encoder, program: &Program, log: &[Event]) {
    let mut rest = log;
    for _ in 0..log.len().saturating_add(1) {
        let (count, packet) = encoder.push_until_packet(program, rest);
        rest = rest.get(count..).unwrap_or(&[]);
        if let Some(packet) = packet {
            put_packet(case, &packet);
        }
    }
    if !rest.is_empty() {
        case.put_word("and events are left");
    }
}

/// Appends the payloads of an encoder.
fn put_pushed(
    case: &Case,
    program: &Program,
    log: &[Event],
    (period, mode): (u16, Mode),
    way: Way,
) {
    if period == 0 {
        return case.unread();
    }
    let mut encoder = Encoder::new(period, mode);
    put_packet(case, &encoder.open());
    if let Way::UntilPacket = way {
        push_until(case, &mut encoder, program, log);
    } else {
        for event in log {
            put_packets(case, encoder.push(program, *event).as_slice());
        }
    }
    put_packets(case, encoder.finish(program).as_slice());
}

/// Appends the payloads of the packets that a source gives of a log.
fn put_sourced(case: &Case, log: &LegalLog<'_>, (period, mode): (u16, Mode)) {
    if period == 0 {
        return case.unread();
    }
    let mut source = Source::new(log, period, mode);
    for _ in 0..log.events().len().saturating_add(3) {
        if let Some(packet) = source.next_packet() {
            case.put_bytes(pack(&packet).bytes());
        }
    }
}

/// Reads the settings of an encoder.
pub(crate) fn settings_of(case: &Case) -> (u16, Mode) {
    (case.next_short(), next_mode(case))
}

/// Appends what an encoder and a source give of a log in other ways, where it is not what came in the first.
fn put_others(case: &Case, program: &Program, log: &[Event], settings: (u16, Mode)) {
    put_pushed(case, program, log, settings, Way::UntilPacket);
    case.end_way("until a packet");
    let Some(legal) = legal_log(case, program, log) else {
        return;
    };
    for payload in &sourced(case, &legal, settings) {
        case.put_bytes(payload.bytes());
    }
    case.end_way("of a source");
    put_sourced(case, &legal, settings);
    case.end_way("packets of a source");
}

/// `encode PERIOD MODE ROWS`: the payloads of a log, by an encoder and by a source.
pub(crate) fn encode_case(case: &Case, program: &Program) {
    let settings = settings_of(case);
    let log = events_of(case);
    put_pushed(case, program, log.as_slice(), settings, Way::Singly);
    case.end_first_way();
    put_others(case, program, log.as_slice(), settings);
}

/// `encode-alike ROWS`: what differs between the ways to encode a log, at several periods and in both modes.
pub(crate) fn encode_alike_case(case: &Case, program: &Program) {
    let log = events_of(case);
    let log = log.as_slice();
    for period in [1u16, 2, 1_024] {
        for mode in [Mode::Differential, Mode::Full] {
            put_pushed(case, program, log, (period, mode), Way::Singly);
            case.end_hidden_way();
            put_others(case, program, log, (period, mode));
        }
    }
}
