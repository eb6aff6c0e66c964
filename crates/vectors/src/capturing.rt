//! Cases of logs that are written as captures and as lines (`captures`), at once and a piece at a time.

use crate::captured::Captured;
use crate::encoding::{legal_log, settings_of, sourced};
use crate::paths::MOST_CUT;
use captures::{
    CaptureBytes, Form, HartMessages, HexLines, encode_capture, encode_hart, encode_hex, hex_lines,
    read_messages,
};
use cases::{Case, cut, next_mode, payload_of};
use legalpath::LegalLog;
use message::{MessageFault, Version};
use payload::Mode;
use retire::Event;
use rvclass::Program;
use std::alloc::Global;

/// The legal logs of so many harts: those of the parts `FIRST-END` of the log that the arguments name, in turn.
fn logs_of<'p>(
    case: &Case,
    (program, log): (&'p Program, &[Event]),
    harts: u64,
) -> Vec<LegalLog<'p>> {
    let mut logs = Vec::new(case.alloc);
    for _ in 0..harts {
        for word in case.text().split_whitespace() {
            if (logs.len() as u64) < harts {
                let (first, end) = cut(word, '-');
                let (first, end) = (case.decimal(first) as usize, case.decimal(end) as usize);
                let part = log.get(first..end).unwrap_or(&[]);
                if let Some(legal) = legal_log(case, program, part) {
                    case.push(&mut logs, legal);
                }
            }
        }
    }
    logs
}

/// Writes the capture of logs, 1 to 1,024, in the version that a word names.
fn write_capture(
    logs: &[LegalLog<'_>],
    version: &str,
    (period, mode): (u16, Mode),
    sink: &mut Vec<u8>,
) -> Result<(), MessageFault> {
    let count = logs.len();
    let period = period.max(1);
    if 0 < count && count <= 1024 {
        return match version {
            "1" => encode_capture(logs, period, mode, Version::One, sink),
            "2" => encode_capture(logs, period, mode, Version::Two, sink),
            _ => Err(MessageFault::Write),
        };
    }
    Err(MessageFault::Write)
}

/// `encode-capture VERSION HARTS PERIOD MODE PARTS`: the capture of harts whose logs are parts of the log, in turn, and how
/// many messages it has.
pub(crate) fn encode_capture_case(case: &Case, both: (&Program, &[Event])) -> Vec<u8> {
    let version = case.word();
    let harts = case.next_decimal();
    let settings = settings_of(case);
    let logs = logs_of(case, both, harts);
    let mut bytes = Vec::new(case.alloc);
    let written = write_capture(logs.as_slice(), version, settings, &mut bytes);
    case.read(written);
    let read = read_messages(case.alloc, bytes.as_slice());
    if let Some(read) = case.read(read) {
        case.put_shown(read.messages.len());
    }
    bytes
}

/// `encodes-capture VERSION HARTS PERIOD MODE PARTS`: the same, and whether it is the capture of the case before.
pub(crate) fn encodes_capture_case(case: &Case, captured: Captured<'_>) {
    let bytes = encode_capture_case(case, (captured.program, captured.log));
    if bytes.as_slice() != captured.bytes {
        case.put(", others");
    }
}

/// The lines of logs.
fn lines_of_logs(case: &Case, logs: &[LegalLog<'_>], (period, mode): (u16, Mode)) -> Vec<u8> {
    let mut text = Vec::new(case.alloc);
    if logs.len() <= 1024 {
        let written = encode_hex(logs, period.max(1), mode, &mut text);
        case.granted(written);
    } else {
        case.unread();
    }
    text
}

/// `hex-lines HARTS PERIOD MODE PARTS`: the lines of harts whose logs are parts of the log, in turn, and so by the payloads
/// of each.
pub(crate) fn hex_lines_case(case: &Case, captured: Captured<'_>) {
    let harts = case.next_decimal();
    let settings = settings_of(case);
    let logs = logs_of(case, (captured.program, captured.log), harts);
    let lines = lines_of_logs(case, logs.as_slice(), settings);
    case.put_text(lines.as_slice());
    let mut own = Vec::new(case.alloc);
    for (hart, log) in logs.iter().enumerate() {
        let payloads = sourced(case, log, settings);
        let written = hex_lines(hart.min(65_535) as u16, payloads.as_slice(), &mut own);
        case.granted(written);
    }
    if own.as_slice() != lines.as_slice() {
        case.put("other lines of payloads");
    }
}

/// `payload-lines HART`: the lines of a hart that sends the payloads of all messages of the capture.
pub(crate) fn payload_lines_case(case: &Case, capture: &[u8]) {
    let hart = case.next_short();
    let mut payloads = Vec::new(case.alloc);
    let read = read_messages(case.alloc, capture);
    if let Some(read) = case.read(read) {
        for message in &read.messages {
            if let Some(payload) = payload_of(case, message.payload.bytes()) {
                case.push(&mut payloads, payload);
            }
        }
    }
    let mut text = Vec::new(case.alloc);
    let written = hex_lines(hart, payloads.as_slice(), &mut text);
    case.granted(written);
    case.put_text(text.as_slice());
}

/// How many events a piece of a long log has.
const LONG_PIECES: usize = 2_185;

/// A log whose messages are asked for: of this hart, at a period and in a mode.
#[derive(Clone, Copy)]
struct Asked<'a> {
    program: &'a Program,
    log: &'a [Event],
    hart: u16,
    period: u16,
    mode: Mode,
}

/// The messages of a hart whose log comes in these pieces.
fn of_pieces<F: Form>(case: &Case, asked: Asked<'_>, pieces: &[&[Event]]) -> Vec<u8> {
    let period = asked.period.max(1);
    let mut messages = HartMessages::<F>::new(case.alloc, asked.hart, period, asked.mode);
    for piece in pieces {
        let done = messages.add(asked.program, piece);
        case.note(done);
    }
    let finished = messages.finish(asked.program);
    case.granted(finished).unwrap_or(Vec::new(case.alloc))
}

/// The messages of a hart by its legal log.
fn of_log<F: Form>(case: &Case, asked: Asked<'_>, legal: &LegalLog<'_>) -> Vec<u8> {
    let mut bytes = Vec::new(case.alloc);
    let period = asked.period.max(1);
    let done = encode_hart::<F, Vec<u8>, Global>(asked.hart, legal, period, asked.mode, &mut bytes);
    case.granted(done);
    bytes
}

/// A hart's messages as lines and as bytes.
#[derive(Drop)]
struct HandedIn {
    lines: Vec<u8>,
    bytes: Vec<u8>,
}

impl HandedIn {
    /// Appends that these pieces give other lines or bytes, with what they are.
    fn put_pieces(
        &self,
        case: &Case,
        asked: Asked<'_>,
        pieces: &[&[Event]],
        (what, number): (&str, usize),
    ) {
        let lines = of_pieces::<HexLines>(case, asked, pieces);
        let bytes = of_pieces::<CaptureBytes>(case, asked, pieces);
        if lines.as_slice() != self.lines.as_slice() || bytes.as_slice() != self.bytes.as_slice() {
            case.put_filled(what, &[number as u64]);
        }
    }

    /// The same of pieces of so many events each.
    fn put_chunks(&self, case: &Case, asked: Asked<'_>, size: usize) {
        let mut pieces = Vec::new(case.alloc);
        for piece in asked.log.chunks(size.max(1)) {
            case.push(&mut pieces, piece);
        }
        let what = (", others in pieces of #", size);
        self.put_pieces(case, asked, pieces.as_slice(), what);
    }

    /// Appends where pieces give other messages than these: one piece, long pieces, and for a log that is short itself
    /// pieces of a few events, and two pieces wherever it is cut.
    fn put_all_pieces(&self, case: &Case, asked: Asked<'_>) {
        self.put_pieces(case, asked, &[asked.log], (", others in one piece", 0));
        if asked.log.len() > MOST_CUT {
            return self.put_chunks(case, asked, LONG_PIECES);
        }
        for size in [1, 2, 3] {
            self.put_chunks(case, asked, size);
        }
        for place in 0..asked.log.len().saturating_add(1) {
            let (front, back) = asked.log.split_at(place.min(asked.log.len()));
            self.put_pieces(case, asked, &[front, back], (", others cut at #", place));
        }
    }
}

/// The messages of a hart by its complete log, if it is legal. Appends in which pieces there are others.
fn handed_in(case: &Case, asked: Asked<'_>) -> Option<HandedIn> {
    let legal = legal_log(case, asked.program, asked.log)?;
    let handed = HandedIn {
        lines: of_log::<HexLines>(case, asked, &legal),
        bytes: of_log::<CaptureBytes>(case, asked, &legal),
    };
    handed.put_all_pieces(case, asked);
    Some(handed)
}

/// Appends the lines and the bytes of a hart's messages, and in which pieces there are others.
fn put_handed_in(case: &Case, asked: Asked<'_>) {
    if let Some(handed) = handed_in(case, asked) {
        case.put_text(handed.lines.as_slice());
        case.put_digits(handed.bytes.as_slice());
    }
}

/// `hand-in HART MODE PERIODS`: the lines and the bytes of a hart's messages, where its log is the one of the case before.
/// They have to be the same at each of these periods, and in whatever pieces the log comes.
pub(crate) fn hand_in_case(case: &Case, captured: Captured<'_>) {
    let (hart, mode) = (case.next_short(), next_mode(case));
    let mut asked = Asked {
        program: captured.program,
        log: captured.log,
        hart,
        period: case.next_short(),
        mode,
    };
    put_handed_in(case, asked);
    case.end_first_way();
    for word in case.text().split_whitespace() {
        asked.period = case.short(word);
        put_handed_in(case, asked);
        case.end_way(word);
    }
}

/// `hand-in-alike HART PERIODS`: in which pieces the messages of the log are others, at these periods and in both modes.
pub(crate) fn hand_in_alike_case(case: &Case, captured: Captured<'_>) {
    let hart = case.next_short();
    for word in case.text().split_whitespace() {
        let period = case.short(word);
        for mode in [Mode::Differential, Mode::Full] {
            let asked = Asked {
                program: captured.program,
                log: captured.log,
                hart,
                period,
                mode,
            };
            handed_in(case, asked);
        }
    }
}
