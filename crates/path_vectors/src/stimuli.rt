//! Cases of stimulus (`stimulus`).

use captures::{CaptureOutcome, decode_capture};
use cases::{Case, next_mode};
use encoder::Encoder;
use message::Version;
use payload::{Packet, Report, pack};
use retire::Event;
use rvclass::Program;
use stimulus::{Capture, Hart, Log, Mix, image_of, write_capture, write_log};

/// The base of the programs.
const BASE: u64 = 0x8000_0000;

/// The mix of a name.
fn mix_named(case: &Case) -> Mix {
    match Mix::named(case.word()) {
        Some(mix) => mix,
        None => {
            case.unread();
            Mix::Mixed
        }
    }
}

/// Reads the next word, a count; a greater one is 4,294,967,295.
fn whole_of(case: &Case) -> u32 {
    case.next_decimal().min(u64::from(u32::MAX)) as u32
}

/// The image that a mix and a seed give.
fn image_drawn(case: &Case, mix: Mix, seed: u64) -> Vec<u8> {
    let image = image_of(case.alloc, mix, seed);
    case.granted(image).unwrap_or(Vec::new(case.alloc))
}

/// The program of that image.
fn program_drawn(case: &Case, mix: Mix, seed: u64) -> Option<Program> {
    let program = Program::new(BASE, image_drawn(case, mix, seed));
    case.read(program)
}

/// The sum of bytes by FNV-1a, of 64 bits.
fn sum_of(bytes: &[u8]) -> u64 {
    let mut sum = 0xcbf2_9ce4_8422_2325u64;
    for byte in bytes {
        sum = (sum ^ u64::from(*byte)).wrapping_mul(0x100_0000_01b3);
    }
    sum
}

/// Appends how many bytes there are, and their sum.
fn put_sum(case: &Case, bytes: &[u8]) {
    case.put_filled("# #", &[bytes.len() as u64, sum_of(bytes)]);
}

/// `image-sum MIX SEED`: how many bytes an image has, and their sum.
pub(crate) fn image_sum_case(case: &Case) {
    let (mix, seed) = (mix_named(case), case.next_decimal());
    let image = image_drawn(case, mix, seed);
    put_sum(case, image.as_slice());
}

/// The text of a log, where it has so many rows.
fn log_text(case: &Case) -> Vec<u8> {
    let asked = Log {
        mix: mix_named(case),
        seed: case.next_decimal(),
        hart: case.next_short(),
        events: whole_of(case),
    };
    let mut text = Vec::new(case.alloc);
    let Some(program) = program_drawn(case, asked.mix, asked.seed) else {
        return text;
    };
    match write_log(case.alloc, &program, &asked, &mut text) {
        Ok(()) => {}
        Err(_) => case.no_memory(),
    }
    text
}

/// `log-rows MIX SEED HART COUNT`: the text of a log; `log-sum`: how many bytes it has, and their sum.
pub(crate) fn log_case(case: &Case, verb: &str) {
    let text = log_text(case);
    if verb == "log-rows" {
        case.put_text(text.as_slice());
    } else {
        put_sum(case, text.as_slice());
    }
}

/// Which kinds of packets came, and payloads of which lengths.
#[derive(Clone, Copy)]
struct Came {
    kinds: [bool; 7],
    lengths: [bool; 19],
}

/// The names of kinds of packets, in their order.
const KINDS: [&str; 7] = [
    "support", "sync", "trap", "address", "updiscon", "notify", "map",
];

/// The place of the kind of a packet.
fn kind_of(packet: &Packet) -> usize {
    match packet {
        Packet::Support(_) => 0,
        Packet::Sync { .. } => 1,
        Packet::Trap { .. } => 2,
        Packet::Address { report, .. } => match report {
            Report::Plain => 3,
            Report::Updiscon => 4,
            Report::Notify => 5,
        },
        Packet::Map(_) => 6,
    }
}

/// Notes packets.
fn note_packets(came: &mut Came, packets: &[Packet]) {
    for packet in packets {
        if let Some(kind) = came.kinds.get_mut(kind_of(packet)) {
            *kind = true;
        }
        if packet.in_profile() {
            if let Some(length) = came.lengths.get_mut(pack(packet).bytes().len()) {
                *length = true;
            }
        }
    }
}

/// Appends what came.
fn put_came(case: &Case, came: Came) {
    for (name, has) in KINDS.iter().zip(came.kinds.iter()) {
        if *has {
            case.put_word(*name);
        }
    }
    for (length, has) in came.lengths.iter().enumerate() {
        if *has {
            case.put_word(length);
        }
    }
}

/// `log-comes MIX SEED COUNT PERIOD MODE`: which kinds of packets come of a log of hart 0, and payloads of which
/// lengths.
pub(crate) fn log_comes_case(case: &Case) {
    let (mix, seed) = (mix_named(case), case.next_decimal());
    let events = case.next_decimal();
    let (period, mode) = (case.next_short(), next_mode(case));
    let Some(program) = program_drawn(case, mix, seed) else {
        return;
    };
    let mut came = Came {
        kinds: [false; 7],
        lengths: [false; 19],
    };
    let mut hart = Hart::new(&program, mix, seed, 0);
    let mut encoder = Encoder::new(period.max(1), mode);
    note_packets(&mut came, &[encoder.open()]);
    for _ in 0..events {
        if let Some(event) = hart.next_event(&program) {
            note_packets(&mut came, encoder.push(&program, event).as_slice());
        }
    }
    note_packets(&mut came, encoder.finish(&program).as_slice());
    put_came(case, came);
}

/// Whether these are the first events of a hart.
fn are_first(program: &Program, mix: Mix, seed: u64, number: usize, events: &[Event]) -> bool {
    let mut hart = Hart::new(program, mix, seed, number.min(1023) as u16);
    for event in events {
        if hart.next_event(program) != Some(*event) {
            return false;
        }
    }
    true
}

/// Appends what is wrong with what a capture decodes to.
fn put_wrong(case: &Case, program: &Program, asked: &Capture, outcome: &CaptureOutcome) {
    if outcome.fault.is_some() {
        case.put_word("fault");
    }
    for (number, events) in outcome.harts.iter().enumerate() {
        if !are_first(program, asked.mix, asked.seed, number, events.as_slice()) {
            case.put_word("other events");
        }
    }
    for closed in outcome.closed.iter() {
        if !*closed {
            case.put_word("open");
        }
    }
}

/// `mixed-capture MIX SEED HARTS MESSAGES PERIOD MODE BURST`: how many bytes a capture has, their sum, and what is wrong
/// with what it decodes to.
pub(crate) fn mixed_capture_case(case: &Case) {
    let (mix, seed) = (mix_named(case), case.next_decimal());
    let harts = case.next_short();
    let asked = Capture {
        mix,
        seed,
        harts: harts.clamp(1, 1024),
        messages: case.next_decimal(),
        period: case.next_short().max(1),
        mode: next_mode(case),
        version: Version::Two,
        burst: whole_of(case),
    };
    let Some(program) = program_drawn(case, mix, seed) else {
        return;
    };
    let mut bytes = Vec::new(case.alloc);
    let written = write_capture(case.alloc, &program, &asked, &mut bytes);
    case.granted(written);
    put_sum(case, bytes.as_slice());
    let outcome = decode_capture(case.alloc, &program, harts, bytes.as_slice());
    if let Some(outcome) = case.granted(outcome) {
        put_wrong(case, &program, &asked, &outcome);
    }
}
