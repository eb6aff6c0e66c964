//! The fields of a line, and what they say.

ghost use Rattle.std.specs.Prelude.{◌≡◌, ◌≤◌, ◌<◌, ◌+◌, ◌*◌, ◌^◌, ◌∷◌, IfSome, MatchOption, length};
ghost use Rattle.std.specs.Prelude.{option_map};
ghost use Rattle.std.specs.List.{position_or_len};
ghost use Rattle.captures.specs.Line.{fields_of, is_over, is_passed_over, is_time, number_below, payload_of};
ghost use Rattle.captures.specs.Line.{without_prefix};
ghost use Rattle.captures.specs.steps.Cutting.{after_comma, fields_left, stops, unblanked};

use hex::decode_to_slice;
use payload::{MOST_BYTES, Payload};

/// A kind of bytes.
#[derive(Clone, Copy)]
pub(crate) enum Stop {
    /// A line feed.
    Feed,
    /// A byte that is no blank and no tab.
    Word,
    /// A byte that ends a word: a blank, a tab or a comma.
    End,
}

/// Whether a byte is of this kind.
fn stops(stop: Stop, byte: u8) -> bool
    ensures { result ≡ stops stop byte }
{
    match stop {
        Stop::Feed => byte == b'\n',
        Stop::Word => byte != b' ' && byte != b'\t',
        Stop::End => byte == b' ' || byte == b'\t' || byte == b',',
    }
}

/// The place of the first byte of this kind, or the length where there is none.
pub(crate) fn first_place(text: &[u8], stop: Stop) -> usize
    ensures place { result ≡ position_or_len (stops stop) text.now }
    ensures within { result ≤ length text.now }
{
    for (place, byte) in text.iter().enumerate() {
        if stops(stop, *byte) {
            return place;
        }
    }
    text.len()
}

/// A text from its first byte on that is no blank and no tab.
fn unblanked(text: &[u8]) -> &[u8]
    ensures { result.now ≡ unblanked text.now }
{
    &text[first_place(text, Stop::Word)..]
}

/// The first field, and what follows what ends it, where something follows.
///
/// A field ends at a comma or at a run of blanks and tabs, in which there may be a comma.
pub(crate) fn cut(text: &[u8]) -> (&[u8], Option<&[u8]>)
    ensures { fields_of text.now ≡ result.0.now ∷ fields_left (option_map (λ rest. rest.now) result.1) }
{
    let text = unblanked(text);
    let end = first_place(text, Stop::End);
    let rest = unblanked(&text[end..]);
    (&text[..end], after_comma(rest))
}

/// What follows a comma, or the text where it does not begin with one. Nothing follows where there is no text.
fn after_comma(text: &[u8]) -> Option<&[u8]>
    ensures { option_map (λ rest. rest.now) result ≡ after_comma text.now }
{
    if text.is_empty() {
        None
    } else if text[0] == b',' {
        Some(&text[1..])
    } else {
        Some(text)
    }
}

/// Whether a line is passed over: it is empty but for blanks and tabs, or begins with `#`.
pub(crate) fn is_passed_over(line: &[u8]) -> bool
    ensures { result ≡ is_passed_over line.now }
{
    let text = unblanked(line);
    text.is_empty() || text[0] == b'#'
}

/// Whether what is left after the bytes of a line is passed over: nothing, or a time.
pub(crate) fn is_over(rest: Option<&[u8]>) -> bool
    ensures { result ≡ is_over (fields_left (option_map (λ rest. rest.now) rest.entry)) }
{
    let Some(rest) = rest else {
        return true;
    };
    let (time, rest) = cut(rest);
    match rest {
        None => is_time(time),
        Some(_) => false,
    }
}

/// Whether a field is a time.
pub(crate) fn is_time(field: &[u8]) -> bool
    ensures { result ≡ is_time field.now }
{
    !field.is_empty() && field[0] == b'@'
}

/// The number that decimal digits spell, where there is one at least, and it is below the limit.
pub(crate) fn number_below(limit: u64, digits: &[u8]) -> Option<u64>
    ensures { result ≡ number_below limit digits.now }
{
    match number_of(digits) {
        Some(value) if value < limit => Some(value),
        _ => None,
    }
}

/// The number that decimal digits spell, where there is one at least, and it is below 2^64.
pub(crate) fn number_of(digits: &[u8]) -> Option<u64>
    ensures { result ≡ number_below (2 ^ 64) digits.now }
{
    if digits.is_empty() {
        return None;
    }
    let mut value = 0;
    for byte in digits {
        let Some(digit) = char::from(*byte).to_digit(10) else {
            return None;
        };
        let Some(longer) = with_digit(value, digit) else {
            return None;
        };
        value = longer;
    }
    Some(value)
}

/// A number with one digit more after its own, where it is below 2^64.
fn with_digit(value: u64, digit: u32) -> Option<u64>
    ensures value { MatchOption result (2 ^ 64 ≤ value * 10 + digit) (λ longer. longer ≡ value * 10 + digit) }
    ensures fits { IfSome result (λ longer. longer < 2 ^ 64) }
{
    let Some(tens) = value.checked_mul(10) else {
        return None;
    };
    tens.checked_add(u64::from(digit))
}

/// A field without the `0x` that it may begin with.
fn without_prefix(field: &[u8]) -> &[u8]
    ensures { result.now ≡ without_prefix field.now }
{
    if field.len() >= 2 && field[0] == b'0' && field[1] == b'x' {
        &field[2..]
    } else {
        field
    }
}

/// The payload that a field spells, which is 2 to 36 hexadecimal digits, an even count, and may begin with `0x`.
pub(crate) fn payload_of(field: &[u8]) -> Option<Payload>
    ensures { result ≡ payload_of (without_prefix field.now) }
{
    let digits = without_prefix(field);
    let count = digits.len() / 2;
    if count == 0 || count > MOST_BYTES {
        return None;
    }
    let mut buffer = [0; MOST_BYTES];
    let bytes = &mut buffer[..count];
    match decode_to_slice(digits, bytes) {
        Ok(()) => {}
        Err(_) => return None,
    }
    match Payload::new(bytes) {
        Ok(payload) => Some(payload),
        Err(_) => None,
    }
}
