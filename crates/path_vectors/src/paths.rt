//! What is said of messages that carry no numbers (`auditing`).

use auditing::{
    Alignment, Line, SentPayloads, aligned_harts, arrival_lines, counts_of, lines_by_hart, total_of,
};
use cases::{Case, add_message, bytes_of};
use message::{Message, NoProgress};
use payload::By;
use std::alloc::{AllocError, Global};

/// What was sent, what came, and how they are compared.
#[derive(Clone, Copy)]
struct Path<'a> {
    by: By,
    harts: usize,
    sent: &'a [Message],
    came: &'a [Message],
}

/// The payloads of messages, added one after the other.
fn split(alloc: Global, path: Path<'_>, messages: &[Message]) -> Result<SentPayloads, AllocError> {
    let mut own = SentPayloads::with_space(alloc, path.harts, path.by, &[1])?;
    for message in messages {
        own.add(message)?;
    }
    Ok(own)
}

/// What is said of the messages that came, where they are split and aligned by hart alone.
fn lines_split(alloc: Global, path: Path<'_>, harts: &[u16]) -> Result<Vec<Line>, AllocError> {
    let own = split(alloc, path, path.sent)?;
    let came = split(alloc, path, path.came)?;
    if came.harts() != own.harts() {
        return Ok(Vec::new(alloc));
    }
    let all = own.align_lists(alloc, &NoProgress, &came)?;
    lines_by_hart(alloc, all.as_slice(), harts)
}

/// Appends what is counted of each hart, of harts in a row with equal counts once, and what is counted of all.
fn put_counts(case: &Case, all: &[Alignment]) {
    let mut times: u64 = 0;
    for (hart, own) in all.iter().enumerate() {
        let counts = counts_of(own);
        times = times.saturating_add(1);
        let next = all.get(hart.saturating_add(1));
        if !next.is_some_and(|next| counts_of(next) == counts) {
            case.put_filled("# x ", &[times]);
            case.put_debug(counts);
            case.put("\n");
            times = 0;
        }
    }
    case.put_debug(total_of(all));
    case.put("\n");
}

/// Appends a line for each message that is a stranger, extra, or skips a number.
fn put_lines(case: &Case, path: Path<'_>, lines: &[Line]) {
    let mut harts = Vec::new(case.alloc);
    for message in path.came {
        case.push(&mut harts, message.hart);
    }
    match lines_split(case.alloc, path, harts.as_slice()) {
        Ok(split) if split.as_slice() == lines => {}
        Ok(_) => case.put("other lines of split harts\n"),
        Err(_) => case.no_memory(),
    }
    for line in lines {
        case.put_debug(line);
        case.put("\n");
    }
}

/// Appends what is said of a path: what is counted, and a line for each message that is a stranger, extra, or skips a
/// number.
fn put_path(case: &Case, path: Path<'_>) {
    let all = aligned_harts(case.alloc, path.harts, path.by, path.sent, path.came);
    let Some(all) = case.granted(all) else {
        return;
    };
    put_counts(case, all.as_slice());
    let lines = arrival_lines(case.alloc, all.as_slice(), path.came);
    if let Some(lines) = case.granted(lines) {
        put_lines(case, path, lines.as_slice());
    }
}

/// The hart and the payload of a letter.
fn meaning(letter: u8) -> (u16, u8) {
    match letter {
        b'A'..=b'Z' => (1, letter.to_ascii_lowercase()),
        b'0'..=b'9' => (u16::from(letter - b'0'), b'a'),
        _ => (0, letter),
    }
}

/// Adds the messages of an argument. A small letter is a message of hart 0 and a large one the same payload of hart 1; a digit is
/// the payload of `a` of the hart of that number. The numbers of a hart count its messages.
fn add_letters(case: &Case, list: &mut Vec<Message>, name: &str) {
    let word = case.named(name);
    let mut numbers = [0u64; 10];
    for letter in word.as_bytes() {
        let (hart, payload) = meaning(*letter);
        if let Some(number) = numbers.get_mut(usize::from(hart)) {
            add_message(case, list, (hart, *number), &[payload]);
            *number = number.saturating_add(1);
        }
    }
}

/// Adds the messages of hart 0 with the payloads of an argument, each in hexadecimal, after a comma each but the first.
fn add_spelled(case: &Case, list: &mut Vec<Message>, name: &str) {
    for (number, digits) in case.named(name).split(',').enumerate() {
        let payload = bytes_of(case, digits);
        add_message(case, list, (0, number as u64), payload.as_slice());
    }
}

/// Adds two messages of a hart. The first of them does not come of hart 1,023.
fn add_hart(case: &Case, sent: &mut Vec<Message>, came: &mut Vec<Message>, hart: u16) {
    let [low, high] = hart.to_le_bytes();
    add_message(case, sent, (hart, 0), &[low, high]);
    add_message(case, sent, (hart, 1), &[low, high, 1]);
    if hart < 1023 {
        add_message(case, came, (hart, 9), &[low, high]);
    }
    add_message(case, came, (hart, 9), &[low, high, 1]);
}

/// Adds two messages of each of 1,024 harts. The first of the last hart is lost, and two harts that sent nothing send one.
fn add_many_harts(case: &Case, sent: &mut Vec<Message>, came: &mut Vec<Message>) {
    for hart in 0..1024u16 {
        add_hart(case, sent, came, hart);
    }
    add_message(case, came, (1024, 9), &[0, 0]);
    add_message(case, came, (65535, 9), &[255, 3]);
}

/// Adds 70,002 messages of hart 0, all of them different, of which each 10,000th is lost, number 0 too. Then hart 1 sends
/// one, and one more comes of hart 0.
fn add_many_messages(case: &Case, sent: &mut Vec<Message>, came: &mut Vec<Message>) {
    for number in 0..70_002u64 {
        let payload = number.to_le_bytes();
        add_message(case, sent, (0, number), &payload);
        if number % 10_000 != 0 {
            add_message(case, came, (0, 9), &payload);
        }
    }
    add_message(case, sent, (1, 0), &[1]);
    add_message(case, came, (1, 9), &[1]);
    add_message(case, came, (0, 9), &[1]);
}

/// What payloads are compared by.
pub(crate) fn by_of(case: &Case) -> By {
    if case.named("by") == "packets" {
        By::Packets
    } else {
        By::Bytes
    }
}

/// What is said of messages: of words, whose letters are messages; of hart 0 with payloads in hexadecimal, compared by
/// bytes or by packets; of many harts; and of many messages.
pub(crate) fn path_case(case: &Case, verb: &str) {
    let (mut sent, mut came) = (Vec::new(case.alloc), Vec::new(case.alloc));
    let mut harts = case.number("harts", 2);
    match verb {
        "spellings" => {
            harts = 1;
            add_spelled(case, &mut sent, "sent");
            add_spelled(case, &mut came, "came");
        }
        "many-harts" => {
            harts = 1024;
            add_many_harts(case, &mut sent, &mut came);
        }
        "many-messages" => add_many_messages(case, &mut sent, &mut came),
        _ => {
            add_letters(case, &mut sent, "sent");
            add_letters(case, &mut came, "came");
        }
    }
    let path = Path {
        by: by_of(case),
        harts: harts as usize,
        sent: sent.as_slice(),
        came: came.as_slice(),
    };
    put_path(case, path);
}
