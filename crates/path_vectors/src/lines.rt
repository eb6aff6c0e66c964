//! Captures that are made of a text's lines (`captures`).

use captures::{LineFault, LinesFault, Settings, write_capture};
use cases::{Case, FailingWriter, text_of};
use message::Version;
use payload::Mode;
use std::io::Write;

/// The settings: `version=1`, `mode=diff`, `period=1024`, no count of harts and none of numbers, unless the arguments
/// say otherwise.
fn settings(case: &Case) -> Settings {
    let version = match case.named("version") {
        "2" => Version::Two,
        _ => Version::One,
    };
    let mode = match case.named("mode") {
        "full" => Mode::Full,
        _ => Mode::Differential,
    };
    let harts = match case.small("harts", 0) {
        0 => None,
        harts => Some(harts),
    };
    let numbers = match case.number("numbers", 0) {
        0 => None,
        numbers => Some(numbers),
    };
    Settings {
        version,
        mode,
        period: case.small("period", 1024),
        harts,
        numbers,
    }
}

/// Writes the capture of a text, and returns its fault. Settings that are none are noted.
fn write_lines<W: Write>(
    case: &Case,
    settings: Settings,
    text: &[u8],
    sink: &mut W,
) -> Option<LinesFault> {
    let harts = settings.harts.unwrap_or(1);
    let numbers = settings.numbers.unwrap_or(2);
    if settings.period == 0 || harts == 0 || harts > settings.version.most_harts() || numbers < 2 {
        case.unread();
        return None;
    }
    write_capture(settings, text, sink).err()
}

/// The capture of a text, or what was written of it and the fault. With `calls=N` the writer takes a byte a call, and fails
/// after so many calls.
pub(crate) fn line(case: &Case) {
    let settings = settings(case);
    let calls = case.number("calls", u64::MAX) as usize;
    let most = if calls == usize::MAX { usize::MAX } else { 1 };
    let text = text_of(case);
    let held = Vec::new(case.alloc);
    let mut sink = FailingWriter { held, most, calls };
    let fault = write_lines(case, settings, text.as_slice(), &mut sink);
    case.put_digits(sink.held.as_slice());
    if let Some(fault) = fault {
        case.put_word(fault);
    }
}

/// The text of a fault.
pub(crate) fn line_fault(case: &Case) {
    let why = match case.named("why") {
        "fields" => LineFault::Fields,
        "hart-1" => LineFault::Hart(Version::One),
        "hart-2" => LineFault::Hart(Version::Two),
        "number" => LineFault::Number(None),
        "number-256" => LineFault::Number(Some(256)),
        "bytes" => LineFault::Bytes,
        "above" => LineFault::Above,
        _ => return case.unread(),
    };
    let line = case.number("line", 0);
    case.put_shown(LinesFault::Line { line, why });
}

/// Appends so many lines, of harts 0 to 1,023 over and over. Each has its number, or none has.
fn put_lines(text: &Case, lines: u64, is_numbered: bool) {
    for place in 0..lines {
        let hart = place % 1024;
        let number = place / 1024;
        if is_numbered {
            text.put_filled("# # 1f\n", &[hart, number]);
        } else {
            text.put_filled("# 1f\n", &[hart]);
        }
    }
}

/// Adds the capture of these lines: the header of 1,024 harts, and a message for each line.
fn add_capture(case: &Case, bytes: &mut Vec<u8>, lines: u64) {
    case.extend(bytes, b"\xff\xffrvtrace2\0\0\0\x04\0\x04");
    for place in 0..lines {
        let hart = (place % 1024) as u16;
        let number = place / 1024;
        case.extend(bytes, &hart.to_le_bytes());
        case.extend(bytes, &number.to_le_bytes());
        case.extend(bytes, b"\x01\x1f");
    }
}

/// Whether a long text has its capture.
pub(crate) fn long_lines(case: &Case) {
    let settings = settings(case);
    let lines = case.number("lines", 0);
    let is_numbered = case.named("numbered") == "yes";
    let text = case.over("");
    put_lines(&text, lines, is_numbered);
    case.join(&text);
    let mut wanted = Vec::new(case.alloc);
    add_capture(case, &mut wanted, lines);
    let mut bytes = Vec::new(case.alloc);
    let fault = write_lines(case, settings, text.taken().as_bytes(), &mut bytes);
    let is_same = fault.is_none() && bytes.as_slice() == wanted.as_slice();
    case.put(if is_same { "same" } else { "another capture" });
}
