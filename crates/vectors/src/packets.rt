//! Cases of packets and payloads (`payload`).

use captures::ReadingText;
use cases::{Case, bytes_of, outcomes_of, packet_of};
use payload::{MOST_BYTES, Mode, Outcomes, Payload, pack, unpack};

/// The text of what bytes are.
fn reading_of(case: &Case, bytes: &[u8]) -> String {
    let own = case.over("");
    let mode = Mode::Differential;
    let read = &unpack(bytes);
    own.put_shown(ReadingText { mode, read });
    case.join(&own);
    own.taken()
}

/// `pack PACKET`: the payload of a packet, or `outside` where it is outside the profile.
pub(crate) fn pack_case(case: &Case) {
    let text = case.text();
    let packet = packet_of(case, text);
    if !packet.in_profile() {
        return case.put_word("outside");
    }
    let payload = pack(&packet);
    case.put_bytes(payload.bytes());
    if unpack(payload.bytes()) != Ok(packet) {
        case.put_word("but it is not read back");
    }
}

/// Appends how the text of a payload changes where it has further bytes of this value, up to 18 in all.
fn put_longer(case: &Case, bytes: &mut Vec<u8>, text: &str, fill: u8) {
    for _ in bytes.len()..MOST_BYTES {
        case.push(bytes, fill);
        let longer = reading_of(case, bytes.as_slice());
        if longer.as_str() != text {
            case.put_bytes(bytes.as_slice());
            case.put_word(longer.as_str());
        }
    }
}

/// `unpack BYTES`: the packet of a payload, as `dump` writes it. `unpack BYTES ..BYTE`: also where it has further bytes of
/// this value, up to 18 in all.
pub(crate) fn unpack_case(case: &Case) {
    let (digits, fill) = case.text().split_once(" ..").unwrap_or((case.text(), ""));
    let mut bytes = bytes_of(case, digits);
    let first = reading_of(case, bytes.as_slice());
    case.put(first.as_str());
    if !fill.is_empty() {
        let fill = case.byte_or_0(fill);
        put_longer(case, &mut bytes, first.as_str(), fill);
    }
}

/// `payload BYTES`: the bytes of a payload again, and whether it closes a trace; or why it is none.
pub(crate) fn payload_case(case: &Case) {
    let digits = case.text();
    match Payload::new(bytes_of(case, digits).as_slice()) {
        Ok(payload) => {
            case.put_bytes(payload.bytes());
            if payload.is_closing() {
                case.put_word("closes");
            }
        }
        Err(fault) => case.put_word(fault),
    }
}

/// Appends outcomes, the oldest first: 0 where a branch was taken, and `-` after the last.
fn put_outcomes(case: &Case, outcomes: &Outcomes) {
    for place in 0..outcomes.len().saturating_add(1) {
        case.put(match outcomes.get(place) {
            Some(true) => "0",
            Some(false) => "1",
            None => "-",
        });
    }
}

/// `outcomes DIGITS`: how many outcomes there are, their number in a branch map, and each of them; so those of the map.
pub(crate) fn outcomes_case(case: &Case) {
    let outcomes = outcomes_of(case.text());
    case.put_word(outcomes.len());
    case.put_word(outcomes.map());
    case.put(" ");
    case.keep();
    put_outcomes(case, &outcomes);
    case.end_first_way();
    let count = outcomes.len() as u32;
    put_outcomes(case, &Outcomes::of_map(count, outcomes.map()));
    case.end_way("of its map");
    if outcomes.is_empty() {
        case.put(" empty");
    }
}
