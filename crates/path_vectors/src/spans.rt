//! Messages that are known again among damaged bytes, and the text of what is found.

use cases::{Case, bytes_of};
use frames::{Span, Spans, begins_frame, search_capture};
use message::NoProgress;

/// The bytes of all arguments without a name.
pub(crate) fn bytes_in(case: &Case) -> Vec<u8> {
    let mut bytes = Vec::new(case.alloc);
    for word in case.text().split(' ') {
        if !word.contains('=') {
            let own = bytes_of(case, word);
            case.extend(&mut bytes, own.as_slice());
        }
    }
    bytes
}

/// Appends a line with a place, and the hart, the number and the payload of the message there.
pub(crate) fn put_message(case: &Case, offset: usize, (hart, number): (u16, u64), payload: &[u8]) {
    case.put_filled("#: #.#:", &[offset as u64, u64::from(hart), number]);
    case.put_digits(payload);
    case.put("\n");
}

/// Appends a line with a place, and how many bytes there are of no message.
pub(crate) fn put_bytes(case: &Case, offset: usize, count: usize) {
    case.put_filled("#: # bytes\n", &[offset as u64, count as u64]);
}

/// Appends the line of a span.
pub(crate) fn put_span(case: &Case, span: &Span) {
    match span {
        Span::Frame { offset, message } => {
            let own = (message.hart, message.number);
            put_message(case, *offset, own, message.payload.bytes());
        }
        Span::Bytes { offset, count } => put_bytes(case, *offset, *count),
    }
}

/// The spans of bytes from a place on, a line each: offset and message, or the count of bytes that are of none.
pub(crate) fn frames(case: &Case) {
    let from = case.number("from", 0) as usize;
    let known = case.small("known", 2);
    let bytes = bytes_in(case);
    for span in Spans::new(bytes.as_slice(), from, known) {
        put_span(case, &span);
    }
}

/// Whether bytes begin with a frame.
pub(crate) fn begins(case: &Case) {
    let known = case.small("known", 2);
    let bytes = bytes_in(case);
    let is_frame = begins_frame(bytes.as_slice(), known);
    case.put(if is_frame { "yes" } else { "no" });
}

/// The text of what is found in a damaged capture, and `bad` where it is damaged.
pub(crate) fn search(case: &Case) {
    let bytes = bytes_in(case);
    let mut text = Vec::new(case.alloc);
    let found = search_capture(bytes.as_slice(), &mut text, &NoProgress);
    case.put_text(text.as_slice());
    case.put(match found {
        Ok(found) if found.fault.is_none() && found.bad => "bad",
        Ok(found) if found.fault.is_none() => "whole",
        _ => "fault",
    });
}
