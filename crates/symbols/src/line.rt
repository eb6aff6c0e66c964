//! The symbol of one line.

ghost use Rattle.std.specs.Prelude.{◌≡◌, ◌+◌, ◌<◌, ◌≤◌, ◌^◌, IfSome, length, option_map};
ghost use Rattle.std.specs.List.{after_first, position_or_len};
ghost use Rattle.retire.specs.Number.{digits_number};
ghost use Rattle.symbols.specs.File.{is_blank, is_code_type, is_name, is_size, name_behind, without_return, without_size};
ghost use Rattle.symbols.specs.steps.Entries.{entry_in, entry_of};

use crate::entry::Entry;
use retire::number;

/// The line without a carriage return at its end.
fn without_return(line: &[u8]) -> &[u8]
    ensures text { result.now ≡ without_return line.now }
    ensures short { length result.now ≤ length line.now }
{
    let count = line.len();
    if count == 0 {
        return line;
    }
    let byte = line[count - 1];
    if byte == b'\r' {
        &line[..count - 1]
    } else {
        line
    }
}

/// Whether a type is that of a symbol of code, or of a weak one.
fn is_code_type(kind: u8) -> bool
    ensures { result ≡ is_code_type kind }
{
    kind == b't' || kind == b'T' || kind == b'w' || kind == b'W'
}

/// The place of the first blank, or the length where there is none.
fn first_blank(text: &[u8]) -> usize
    ensures place { result ≡ position_or_len is_blank text.now }
    ensures within { result ≤ length text.now }
{
    for (place, byte) in text.iter().enumerate() {
        if *byte == b' ' {
            return place;
        }
    }
    text.len()
}

/// The number of one to sixteen hexadecimal digits with no prefix.
fn digits(text: &[u8]) -> Option<u64>
    ensures { result ≡ digits_number text.now }
{
    match text {
        [b'0', b'x' | b'X', ..] => None,
        _ => number(text),
    }
}

/// Whether a text is a size: 8 or 16 hexadecimal digits.
fn is_size(text: &[u8]) -> bool
    ensures { result ≡ is_size text.now }
{
    (text.len() == 8 || text.len() == 16) && digits(text).is_some()
}

/// What is after the first blank, or nothing where there is none.
fn after_blank(text: &[u8]) -> &[u8]
    ensures text { result.now ≡ after_first is_blank text.now }
    ensures short { length result.now ≤ length text.now }
{
    let blank = first_blank(text);
    if blank < text.len() {
        &text[blank + 1..]
    } else {
        &text[blank..]
    }
}

/// A text without a size in front and the blank after it, where it begins with a size.
fn without_size(text: &[u8]) -> &[u8]
    ensures text { result.now ≡ without_size text.now }
    ensures short { length result.now ≤ length text.now }
{
    let blank = first_blank(text);
    if is_size(&text[..blank]) {
        after_blank(text)
    } else {
        text
    }
}

/// The name after a type of code and a blank. It has at least one byte, and does not begin with a dollar.
fn name_behind(text: &[u8]) -> Option<&[u8]>
    ensures name { option_map (λ name. name.now) result ≡ name_behind text.now }
    ensures short { IfSome result (λ name. length name.now ≤ length text.now) }
{
    match text {
        [kind, b' ', name @ ..] if is_code_type(*kind) && is_name(name) => Some(name),
        _ => None,
    }
}

/// Whether these bytes are a symbol's name: there is one at least, and the first is no dollar.
fn is_name(bytes: &[u8]) -> bool
    ensures { result ≡ is_name bytes.now }
{
    match bytes {
        [] => false,
        [first, ..] => *first != b'$',
    }
}

/// The entry of a line without its carriage return, which begins at this place of the file.
fn entry_in(from: usize, text: &[u8]) -> Option<Entry>
    requires { from + length text.now < 2 ^ 62 }
    ensures { result ≡ entry_in from text.now }
{
    let blank = first_blank(text);
    let name = match name_behind(without_size(after_blank(text))) {
        Some(name) => name,
        None => return None,
    };
    match digits(&text[..blank]) {
        Some(address) => Some(Entry {
            address,
            start: from + text.len() - name.len(),
            length: name.len(),
        }),
        None => None,
    }
}

/// The entry of the symbol of a line that begins at this place of the file, if it has one.
pub(crate) fn entry_of(from: usize, line: &[u8]) -> Option<Entry>
    requires { from + length line.now < 2 ^ 62 }
    ensures { result ≡ entry_of from line.now }
{
    entry_in(from, without_return(line))
}
