//! Calls that hand out bytes.

use crate::arguments::Given;
use crate::fields::{Ends, KEPT, KEPT_32, kept};
use crate::writing::{Said, put_list};
use cases::Case;
use ffi::{DecodeAllEnd, DumpEnd, ExplainEnd, HartEnd, HeaderNumbers};

/// What a buffer has before a call.
const FILL: u8 = 0xaa;

/// Makes the call that a verb names, of those that need no program.
fn call(verb: &str, given: &Given<'_>, buffer: &mut [u8]) -> Option<Said> {
    let (mode, period, harts) = (
        given.low_32("mode"),
        given.low_16("period"),
        given.low_16("harts"),
    );
    let (mut wanted, mut at) = (KEPT, kept::<Ends>());
    let (wants, line) = (&mut wanted, &mut at.line);
    let status = match verb {
        "pack" => ffi::tracebench_pack(&given.packet, buffer, wants),
        "write_message" => {
            let (hart, number) = (given.low_16("hart"), given.number("number"));
            ffi::tracebench_write_message(hart, number, given.bytes("payload"), buffer, wants)
        }
        "write_header" => {
            let header = HeaderNumbers {
                mode,
                period,
                harts,
            };
            ffi::tracebench_write_header(&header, buffer, wants)
        }
        "version" => ffi::tracebench_version(buffer, wants),
        "generate_image" => {
            let (mix, seed) = (given.low_32("mix"), given.number("seed"));
            ffi::tracebench_generate_image(given.alloc, mix, seed, buffer, wants)
        }
        "capture_of_lines" => {
            let (alloc, text, version) = (
                given.alloc,
                given.bytes("text"),
                given.low_32("version"),
            );
            let numbers = given.number("numbers");
            ffi::tracebench_capture_of_lines(
                alloc, text, version, mode, period, harts, numbers, buffer, wants, line,
            )
        }
        _ => return None,
    };
    Some(Said::bytes(status, wanted, &at))
}

/// Makes the call that a verb names, of those over logs.
fn call_on_logs(verb: &str, given: &Given<'_>, buffer: &mut [u8]) -> Option<Said> {
    let (alloc, pieces, logs, ends) = (given.alloc, &given.pieces, &given.joined, &given.ends);
    let (period, mode) = (given.low_16("period"), given.low_32("mode"));
    let (mut wanted, mut at) = (KEPT, kept::<Ends>());
    let (wants, place) = (&mut wanted, &mut at.place);
    let status = match verb {
        "encode" => {
            let version = given.low_32("version");
            ffi::tracebench_encode(
                alloc, pieces, logs, ends, period, mode, version, buffer, wants, place,
            )
        }
        "measure" => ffi::tracebench_measure(
            alloc, pieces, logs, ends, period, mode, buffer, wants, place,
        ),
        "explain" => {
            let mut end = kept::<ExplainEnd>();
            let log = given.bytes("log");
            let status = ffi::tracebench_explain(alloc, pieces, log, buffer, wants, &mut end);
            return Some(Said::bytes(status, wanted, &end));
        }
        _ => return None,
    };
    Some(Said::bytes(status, wanted, &at))
}

/// Makes the call that a verb names, of those over captures that write where each log ends, or how many messages there
/// are.
fn call_on_capture(
    verb: &str,
    given: &Given<'_>,
    buffer: &mut [u8],
    ends: &mut [HartEnd],
) -> Option<Said> {
    let (alloc, capture) = (given.alloc, given.bytes("capture"));
    let (mut wanted, mut last) = (KEPT, kept::<Ends>());
    let (wants, text) = (&mut wanted, &mut last.text);
    let status = match verb {
        "decode_all" => {
            let (pieces, harts) = (&given.pieces, given.low_16("harts"));
            let mut own = DecodeAllEnd {
                harts: KEPT,
                place: KEPT,
                fault: KEPT_32,
            };
            let end = &mut own;
            let status = ffi::tracebench_decode_all(
                alloc, pieces, harts, capture, buffer, wants, ends, end,
            );
            (text.harts, text.place, text.fault) = (own.harts, own.place, own.fault);
            status
        }
        "dump" => {
            let mut own = DumpEnd {
                place: KEPT,
                fault: KEPT_32,
                bad: KEPT_32,
            };
            let status = ffi::tracebench_dump(alloc, capture, buffer, wants, &mut own);
            (text.place, text.fault, last.bad) = (own.place, own.fault, own.bad);
            status
        }
        _ => return call_for_text(verb, given, buffer),
    };
    Some(Said::bytes(status, wanted, &last))
}

/// Makes the call that a verb names, of those that write a text about a capture.
fn call_for_text(verb: &str, given: &Given<'_>, buffer: &mut [u8]) -> Option<Said> {
    let (alloc, pieces, harts) = (given.alloc, &given.pieces, given.low_16("harts"));
    let (capture, symbols) = (given.bytes("capture"), given.bytes("symbols"));
    let (format, logs, ends) = (given.low_32("format"), &given.joined, &given.ends);
    let (mut wanted, mut last) = (KEPT, kept::<Ends>());
    let (wants, end, place) = (&mut wanted, &mut last.text, &mut last.place);
    let status = match verb {
        "list" => ffi::tracebench_list(
            alloc, pieces, harts, capture, symbols, format, buffer, wants, end,
        ),
        "list_salvaged" => ffi::tracebench_list_salvaged(
            alloc, pieces, harts, capture, symbols, format, buffer, wants, end,
        ),
        "salvage" => ffi::tracebench_salvage(
            alloc, pieces, harts, capture, format, buffer, wants, end,
        ),
        "compare" => ffi::tracebench_compare(
            alloc, pieces, harts, capture, logs, ends, buffer, wants, end, place,
        ),
        _ => return None,
    };
    Some(Said::bytes(status, wanted, &last))
}

/// Makes the call that a verb names.
fn call_any(
    verb: &str,
    given: &Given<'_>,
    buffer: &mut [u8],
    ends: &mut [HartEnd],
) -> Option<Said> {
    match verb {
        "encode" | "measure" | "explain" => call_on_logs(verb, given, buffer),
        "decode_all" | "dump" | "list" | "list_salvaged" | "salvage" | "compare" => {
            call_on_capture(verb, given, buffer, ends)
        }
        _ => call(verb, given, buffer),
    }
}

/// Whether a verb hands out bytes that are no text.
fn is_binary(verb: &str) -> bool {
    matches!(
        verb,
        "pack" | "write_message" | "write_header" | "capture_of_lines" | "encode" | "generate_image"
    )
}

/// The last so many lines of a text.
fn last_lines(text: &str, count: usize) -> &str {
    let mut at: usize = 0;
    for (lines, piece) in text.trim_end_matches('\n').rsplit('\n').enumerate() {
        if lines < count {
            at = at.saturating_add(piece.len()).saturating_add(1);
        }
    }
    let from = text.len().saturating_sub(at);
    text.get(from..).unwrap_or(text)
}

/// Appends a text, or its last lines.
fn put_lines(case: &Case, given: &Given<'_>, bytes: &[u8]) {
    let mut text = str::from_utf8(bytes).unwrap_or("no text");
    if let Some(count) = given.size("tail").or(given.size("last")) {
        text = last_lines(text, count);
    }
    if !text.is_empty() {
        case.put("\n");
        case.put(text);
    }
}

/// Appends what was handed out: that it is what was due, its last lines, all of it, or its digits.
fn put_handed(case: &Case, verb: &str, given: &Given<'_>, bytes: &[u8]) {
    if given.some_bytes("due") == Some(bytes) {
        case.put_word("due");
    } else if !is_binary(verb) {
        put_lines(case, given, bytes);
    } else if !bytes.is_empty() {
        case.put_word("bytes=");
        case.put_digits(given.shown(bytes));
    }
}

/// Whether no call wrote these bytes.
fn is_filled(bytes: &[u8]) -> bool {
    bytes.iter().all(|byte| *byte == FILL)
}

/// Appends what a call said, and what it handed out in a buffer.
fn put_said(case: &Case, verb: &str, given: &Given<'_>, said: &Said, buffer: &[u8]) {
    let count = if said.status == 0 {
        said.size().min(buffer.len())
    } else {
        0
    };
    let (front, rest) = buffer.split_at(count);
    if !is_filled(rest) {
        case.put_word("spilled");
    }
    put_handed(case, verb, given, front);
}

/// Makes the call that a verb names with a buffer of so many bytes, and appends what it said.
pub(crate) fn fill(case: &Case, verb: &str, given: &Given<'_>, room: usize) -> Option<Said> {
    let mut buffer = case.filled(FILL, room);
    let mut ends = case.filled(kept::<HartEnd>(), given.room("places"));
    let said = call_any(verb, given, &mut buffer, &mut ends)?;
    said.put(case, given.size("tail").is_some());
    put_list(case, "ends", &ends, false);
    put_said(case, verb, given, &said, &buffer);
    Some(said)
}
