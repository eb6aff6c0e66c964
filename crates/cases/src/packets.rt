//! Packets, payloads and messages.

use crate::bytes::bytes_of;
use crate::case::{Case, cut};
use message::Message;
use payload::{Mode, Outcomes, Packet, Payload, Report, Support};

/// The mode with this name.
pub fn mode_of(case: &Case, name: &str) -> Mode {
    match name {
        "full" => Mode::Full,
        "diff" => Mode::Differential,
        _ => {
            case.unread();
            Mode::Differential
        }
    }
}

/// Reads the next word, a mode.
pub fn next_mode(case: &Case) -> Mode {
    let name = case.word();
    mode_of(case, name)
}

/// The outcomes of digits, the oldest first: 0 where a branch was taken; `-` is none.
pub fn outcomes_of(digits: &str) -> Outcomes {
    let mut outcomes = Outcomes::new();
    for digit in digits.bytes() {
        if digit != b'-' && outcomes.len() < 31 {
            outcomes.push(digit == b'0');
        }
    }
    outcomes
}

/// The value of a packet's field, which has to be there.
fn field<'t>(case: &Case, text: &'t str, name: &str) -> &'t str {
    for word in text.split(' ') {
        if let Some(value) = word.strip_prefix(name) {
            return value;
        }
    }
    case.unread();
    ""
}

/// The field that is a hexadecimal number.
fn hex_in(case: &Case, text: &str, name: &str) -> u64 {
    let digits = field(case, text, name);
    case.hex(digits)
}

/// The trap packet of a text, with this privilege.
fn trap_of(case: &Case, text: &str, taken: bool, privilege: u8) -> Packet {
    let interrupt = text.starts_with("trap interrupt ");
    let handler = text.contains(" handler=");
    let name = if handler { "handler=" } else { "epc=" };
    let has_tval = !interrupt || text.contains("tval=");
    let cause = field(case, text, "cause=");
    Packet::Trap {
        taken,
        privilege,
        cause: case.byte_or_0(cause),
        interrupt,
        handler,
        address: hex_in(case, text, name),
        tval: if has_tval {
            hex_in(case, text, "tval=")
        } else {
            0
        },
    }
}

/// The report of an address packet with this name.
pub fn report_of(case: &Case, name: &str) -> Report {
    match name {
        "plain" => Report::Plain,
        "updiscon" => Report::Updiscon,
        "notify" => Report::Notify,
        _ => {
            case.unread();
            Report::Plain
        }
    }
}

/// The synchronisation or the trap packet of a text.
fn placed_of(case: &Case, text: &str) -> Packet {
    let taken = field(case, text, "branch=") == "0";
    let privilege = field(case, text, "priv=");
    let privilege = case.byte_or_0(privilege);
    if text.starts_with("trap ") {
        return trap_of(case, text, taken, privilege);
    }
    Packet::Sync {
        taken,
        privilege,
        address: hex_in(case, text, "addr="),
    }
}

/// The packet that opens or closes a trace; a text that is none is noted.
fn support_of(case: &Case, text: &str) -> Packet {
    Packet::Support(match text {
        "open full" => Support::Open(Mode::Full),
        "close ended_rep" => Support::EndedRep,
        "close ended_ntr" => Support::EndedNtr,
        "open" => Support::Open(Mode::Differential),
        _ => {
            case.unread();
            Support::EndedRep
        }
    })
}

/// The packet of a text, as `dump` writes packets.
pub fn packet_of(case: &Case, text: &str) -> Packet {
    let (kind, rest) = cut(text, ' ');
    match kind {
        "sync" | "trap" => placed_of(case, text),
        "address" => Packet::Address {
            outcomes: outcomes_of(field(case, text, "map=")),
            delta: hex_in(case, text, "diff="),
            report: report_of(case, text.rsplit_once(' ').unwrap_or(("", "")).1),
        },
        "map" => Packet::Map(outcomes_of(rest)),
        _ => support_of(case, text),
    }
}

/// The payload of bytes, if they are one.
pub fn payload_of(case: &Case, bytes: &[u8]) -> Option<Payload> {
    case.read(Payload::new(bytes))
}

/// The hart, the number and the payload's bytes of `HART.NUMBER:PAYLOAD`.
fn parts_of(case: &Case, word: &str) -> (u16, u64, Vec<u8>) {
    let (hart, rest) = cut(word, '.');
    let (number, digits) = cut(rest, ':');
    (
        case.short(hart),
        case.decimal(number),
        bytes_of(case, digits),
    )
}

/// The message `HART.NUMBER:PAYLOAD`, if it is one.
pub fn message_of(case: &Case, word: &str) -> Option<Message> {
    let (hart, number, bytes) = parts_of(case, word);
    let payload = payload_of(case, bytes.as_slice())?;
    Some(Message {
        hart,
        number,
        payload,
    })
}

/// Adds the message of a hart with this number and payload.
pub fn add_message(
    case: &Case,
    messages: &mut Vec<Message>,
    (hart, number): (u16, u64),
    payload: &[u8],
) {
    if let Some(payload) = payload_of(case, payload) {
        let message = Message {
            hart,
            number,
            payload,
        };
        case.push(messages, message);
    }
}

/// Adds the message of an argument; where it is repeated, of this hart and those after it.
fn add_messages(case: &Case, messages: &mut Vec<Message>, word: &str) {
    let (count, one) = case.times(word);
    let (first, number, bytes) = parts_of(case, one);
    for time in 0..count {
        let hart = first.wrapping_add((time & 0xffff) as u16);
        add_message(case, messages, (hart, number), bytes.as_slice());
    }
}

/// The messages of the arguments that are left.
pub fn messages_of(case: &Case) -> Vec<Message> {
    let mut messages = Vec::new(case.alloc);
    for word in case.text().split_whitespace() {
        add_messages(case, &mut messages, word);
    }
    messages
}
