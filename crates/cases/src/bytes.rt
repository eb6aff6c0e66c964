//! Bytes and texts.

use crate::case::{Case, cut};

/// Where programs begin that name no base.
const BASE: u64 = 0x8000_0000;

/// Adds the bytes of pairs of digits.
fn add_pairs(case: &Case, bytes: &mut Vec<u8>, digits: &str) {
    for pair in digits.as_bytes().chunks(2) {
        let byte = match str::from_utf8(pair) {
            Ok(digits) if digits.len() == 2 => case.byte_or_0(digits),
            _ => {
                case.unread();
                0
            }
        };
        case.push(bytes, byte);
    }
}

/// The bytes of pairs of hexadecimal digits.
pub fn bytes_of(case: &Case, words: &str) -> Vec<u8> {
    let mut bytes = Vec::new(case.alloc);
    for word in words.split_whitespace() {
        let (count, digits) = case.times(word);
        for _ in 0..count {
            add_pairs(case, &mut bytes, digits);
        }
    }
    bytes
}

/// Adds the bytes of a number, the lowest first: as many as it has pairs of digits.
fn add_number(case: &Case, bytes: &mut Vec<u8>, word: &str) {
    let (count, digits) = case.times(word);
    let all = case.hex(digits).to_le_bytes();
    let Some(first) = all.get(..digits.len() / 2) else {
        return case.unread();
    };
    for _ in 0..count {
        case.extend(bytes, first);
    }
}

/// A piece of a memory: its base, and the bytes of numbers, each with its lowest byte first, as `1000: 00000013 0001`.
/// A piece that names no base begins at 80000000.
pub fn piece_of(case: &Case, text: &str) -> (u64, Vec<u8>) {
    let (base, words) = match text.split_once(':') {
        Some((base, words)) => (case.hex(base.trim()), words),
        None => (BASE, text),
    };
    let mut bytes = Vec::new(case.alloc);
    for word in words.split_whitespace() {
        add_number(case, &mut bytes, word);
    }
    (base, bytes)
}

/// Adds a text so often, with this after it each time.
fn add_texts(case: &Case, bytes: &mut Vec<u8>, text: &str, end: &[u8]) {
    let (count, again) = case.times(text);
    for _ in 0..count {
        case.extend(bytes, again.as_bytes());
        case.extend(bytes, end);
    }
}

/// Adds lines that each begin with a hexadecimal number: `N*FIRST+STEP`, and what comes after the number.
fn add_rising(case: &Case, bytes: &mut Vec<u8>, text: &str) {
    let (count, line) = case.times(text);
    let (place, fields) = cut(line, ',');
    let (first, step) = cut(place, '+');
    let (mut number, step) = (case.hex(first), case.hex(step));
    let digits = case.over("");
    for _ in 0..count {
        digits.put_hex(number);
        case.extend(bytes, digits.taken().as_bytes());
        case.extend(bytes, b",");
        case.extend(bytes, fields.as_bytes());
        case.extend(bytes, b"\n");
        number = number.wrapping_add(step);
    }
}

/// Adds what comes after a `\` of a text, and returns the rest.
fn add_escaped<'t>(case: &Case, bytes: &mut Vec<u8>, text: &'t str) -> &'t str {
    let kind = text.bytes().next().unwrap_or(0);
    let after = text.get(1..).unwrap_or("");
    let (inner, rest) = match kind {
        b'x' => after.split_at_checked(2).unwrap_or(("?", "")),
        b'{' => cut(after, '}'),
        b'[' => cut(after, ']'),
        b'(' => cut(after, ')'),
        _ => ("", after),
    };
    match kind {
        b'n' => case.push(bytes, b'\n'),
        b'r' => case.push(bytes, b'\r'),
        b't' => case.push(bytes, b'\t'),
        b'x' => add_pairs(case, bytes, inner),
        b'{' => add_texts(case, bytes, inner, b""),
        b'[' => add_texts(case, bytes, inner, b"\n"),
        b'(' => add_rising(case, bytes, inner),
        _ => case.unread(),
    }
    rest
}

/// The bytes of the text between quotes at the end of the arguments.
pub fn text_of(case: &Case) -> Vec<u8> {
    let mut bytes = Vec::new(case.alloc);
    let quoted = cut(case.text(), '"').1.strip_suffix('"');
    if quoted.is_none() {
        case.unread();
    }
    let text = quoted.unwrap_or("");
    let mut rest = text;
    for _ in 0..text.len().saturating_add(1) {
        let Some((plain, escaped)) = rest.split_once('\\') else {
            break;
        };
        case.extend(&mut bytes, plain.as_bytes());
        rest = add_escaped(case, &mut bytes, escaped);
    }
    case.extend(&mut bytes, rest.as_bytes());
    bytes
}
