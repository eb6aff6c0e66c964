//! What the lines of a transcript add to a content.

use crate::shelf::Shelf;
use cases::{Case, bytes_of};

/// Both sides of the first separator in a text.
fn split<'t>(case: &Case, text: &'t str, separator: &str) -> (&'t str, &'t str) {
    match text.split_once(separator) {
        Some(sides) => sides,
        None => {
            case.unread();
            ("", "")
        }
    }
}

/// Appends bytes.
pub(crate) fn add(case: &Case, content: &mut Vec<u8>, bytes: &[u8]) {
    let done = content.extend_from_slice(bytes);
    case.note(done);
}

/// Appends a message: its hart, its number, and the bytes of its payload after their count.
fn add_message(case: &Case, content: &mut Vec<u8>, text: &str) {
    let (hart, rest) = split(case, text, " ");
    let (number, digits) = split(case, rest, " ");
    let [low, high, ..] = case.decimal(hart).to_le_bytes();
    let number = case.decimal(number).to_le_bytes();
    let payload = bytes_of(case, digits);
    add(case, content, &[low, high]);
    add(case, content, &number);
    case.push(content, payload.len().min(255) as u8);
    add(case, content, payload.as_slice());
}

/// Appends what a text means, by its form: `=` bytes, `~` a message, `<` a file, `+` the text itself, and else a line.
fn add_form(case: &Case, shelf: &Shelf, content: &mut Vec<u8>, form: char, text: &str) {
    match form {
        '=' => {
            let bytes = bytes_of(case, text);
            add(case, content, bytes.as_slice());
        }
        '~' => add_message(case, content, text),
        '<' => match shelf.content(text) {
            Some(bytes) => add(case, content, bytes),
            None => case.unread(),
        },
        '+' => add(case, content, text.as_bytes()),
        _ => {
            add(case, content, text.as_bytes());
            add(case, content, b"\n");
        }
    }
}

/// Appends the number before a part of a text, and the part without its step.
fn put_numbered(case: &Case, part: &str, number: u64) {
    let Some(rest) = part.strip_prefix('{') else {
        case.put_shown(number);
        return case.put(part);
    };
    let (first, rest) = split(case, rest, "+");
    let (step, rest) = split(case, rest, "}");
    let added = case.hex(step).wrapping_mul(number);
    let sum = case.hex(first).wrapping_add(added);
    let mut digits = String::new(case.alloc);
    case.note(write!(digits, "{sum:08x}"));
    case.put(digits.as_str());
    case.put(rest);
}

/// Appends the text with a number for each `@`; `@{A+S}` is the hexadecimal number A, and S more for each number from 0
/// on, with eight digits at least.
fn put_whole(case: &Case, text: &str, number: u64) {
    for (i, part) in text.split('@').enumerate() {
        if i == 0 {
            case.put(part);
        } else {
            put_numbered(case, part, number);
        }
    }
}

/// Appends what a text means at one of several times, in lines that `\n` separates.
fn add_time(
    case: &Case,
    shelf: &Shelf,
    content: &mut Vec<u8>,
    time: u64,
    (form, text): (char, &str),
) {
    for line in text.split("\\n") {
        let whole = case.over("");
        put_whole(&whole, line, time);
        case.join(&whole);
        add_form(case, shelf, content, form, whole.taken().as_str());
    }
}

/// The first and last number of a range such as `1..11}`, and the text after it.
fn range_at<'t>(case: &Case, text: &'t str) -> (u64, u64, &'t str) {
    let (first, rest) = split(case, text, "..");
    let (last, rest) = split(case, rest, "}");
    (case.decimal(first), case.decimal(last), rest)
}

/// The times that a text begins with, as a count or a range: the first, the number after the last, and the text after
/// them.
fn times_at<'t>(case: &Case, text: &'t str) -> (u64, u64, &'t str) {
    if let Some(range) = text.strip_prefix('{') {
        let (first, last, rest) = range_at(case, range);
        return (first, last.saturating_add(1), rest);
    }
    let digits = text
        .find(|c: char| !c.is_ascii_digit())
        .unwrap_or(text.len());
    let (count, rest) = text.split_at(digits);
    (0, case.decimal(count), rest)
}

/// The form of a line, and the text after it, which a space may separate from it.
fn form_at(line: &str) -> (char, &str) {
    let form = line.chars().next().unwrap_or(' ');
    let text = line.strip_prefix(['=', '~', '<', '+']).unwrap_or(line);
    (form, text.strip_prefix(' ').unwrap_or(text))
}

/// Appends what a line means: a form and a text, or `*`, the times that they are meant, and both.
pub(crate) fn add_line(case: &Case, shelf: &Shelf, content: &mut Vec<u8>, line: &str) {
    let Some(counted) = line.strip_prefix('*') else {
        let (form, text) = form_at(line);
        return add_form(case, shelf, content, form, text);
    };
    let (first, end, rest) = times_at(case, counted);
    for time in first..end {
        add_time(case, shelf, content, time, form_at(rest));
    }
}

/// Adds an argument, with this number for a range in braces. In it `␣`, `␉` and `␤` are a blank, a tabulator and an end
/// of line.
fn add_word(case: &Case, words: &mut Vec<String>, word: &str, number: u64) {
    let text = case.over("");
    let (name, range) = word.split_once('{').unwrap_or((word, ""));
    for character in name.chars() {
        text.put_shown(match character {
            '␣' => ' ',
            '␉' => '\t',
            '␤' => '\n',
            other => other,
        });
    }
    if !range.is_empty() {
        text.put_shown(number);
    }
    case.join(&text);
    case.push(words, text.taken());
}

/// The arguments of a line, with this number for a range in braces; `COUNT*WORD` repeats an argument.
pub(crate) fn words_of(case: &Case, line: &str, number: u64) -> Vec<String> {
    let mut words = Vec::new(case.alloc);
    for word in line.split_whitespace() {
        let (times, word) = case.times(word);
        for _ in 0..times {
            add_word(case, &mut words, word, number);
        }
    }
    words
}

/// The first and last number of the range in braces of a line, such as `{1..11}`; 0 and 0 where it has none.
pub(crate) fn range_of(case: &Case, line: &str) -> (u64, u64) {
    match line.split_once('{') {
        Some((_, rest)) => {
            let (first, last, _) = range_at(case, rest);
            (first, last)
        }
        None => (0, 0),
    }
}
