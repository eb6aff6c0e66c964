//! Lines of files that come by a rule, and lines that go on.

use crate::case::{Case, cut};
use std::alloc::Global;

/// A text, and for each of its lines the number that it has in the file.
#[derive(Drop)]
pub(crate) struct Numbered {
    /// The text came in this case, which notes where allocation failed.
    pub(crate) lines: Case,
    pub(crate) numbers: Vec<usize>,
}

/// A line with its number.
#[derive(Clone, Copy)]
struct Line<'t> {
    number: usize,
    text: &'t str,
}

/// What is done with lines: the outermost blocks are written out, or lines that go on are joined to those before them.
#[derive(Clone, Copy)]
enum Pass {
    Blocks,
    Joins,
}

/// The base in which numbers are written.
#[derive(Clone, Copy)]
enum Base {
    Ten,
    Sixteen,
}

/// The number of digits; 0 where they are none.
fn number_of(base: Base, digits: &str) -> u64 {
    let base = if let Base::Ten = base { 10 } else { 16 };
    u64::from_str_radix(digits, base).unwrap_or(0)
}

/// The number of `FIRST+STEP`, `FIRST-STEP` or `FIRST+^STEP` by this time.
fn number_by(base: Base, field: &str, time: u64) -> u64 {
    if let Some((first, step)) = field.split_once("+^") {
        let added = number_of(base, step).wrapping_shl(time.min(63) as u32);
        return number_of(base, first).wrapping_add(added);
    }
    if let Some((first, step)) = field.split_once('-') {
        return number_of(base, first).wrapping_sub(number_of(base, step).wrapping_mul(time));
    }
    let (first, step) = cut(field, '+');
    number_of(base, first).wrapping_add(number_of(base, step).wrapping_mul(time))
}

/// Appends the number of a field by this time.
fn put_field(lines: &Case, field: &str, time: u64) {
    if let Some((field, count)) = field.split_once('/') {
        let from = 8usize.saturating_sub(count.parse::<usize>().unwrap_or(0));
        let bytes = number_by(Base::Sixteen, field, time).to_be_bytes();
        return lines.put_digits(bytes.get(from..).unwrap_or(&[]));
    }
    if let Some((field, count)) = field.split_once('<') {
        let count = count.parse::<usize>().unwrap_or(0);
        let bytes = number_by(Base::Sixteen, field, time).to_le_bytes();
        return lines.put_digits(bytes.get(..count).unwrap_or(&[]));
    }
    match field.strip_suffix('x') {
        Some(field) => lines.put_hex(number_by(Base::Sixteen, field, time)),
        None => lines.put_shown(number_by(Base::Ten, field, time)),
    }
}

/// Appends a line with the numbers of its fields by this time.
fn put_line(lines: &Case, line: &str, time: u64) {
    let mut rest = line;
    for _ in 0..line.len() {
        let Some((plain, begun)) = rest.split_once('{') else {
            break;
        };
        lines.put(plain);
        if let Some(inner) = begun.strip_prefix('{') {
            lines.put("{");
            rest = inner;
        } else {
            let (field, after) = cut(begun, '}');
            put_field(lines, field, time);
            rest = after;
        }
    }
    lines.put(rest);
}

impl Numbered {
    /// Begins a line with this number.
    fn begin(&mut self, number: usize) {
        if !self.numbers.is_empty() {
            self.lines.put("\n");
        }
        self.lines.push(&mut self.numbers, number);
    }

    /// Adds a line. Where lines are joined, one that begins with `< ` goes on in the last line after a space, and one that
    /// begins with `>> `, at once.
    fn add_line(&mut self, line: Line<'_>, pass: Pass) {
        if let Pass::Joins = pass {
            if let Some(further) = line.text.strip_prefix(">> ") {
                return self.lines.put(further);
            }
            if let Some(further) = line.text.strip_prefix("< ") {
                self.lines.put(" ");
                return self.lines.put(further);
            }
        }
        self.begin(line.number);
        self.lines.put(line.text);
    }

    /// Adds the line at a place, or the block that begins there so often as it says. Returns the place of its last line.
    fn add_at(&mut self, lines: &[Line<'_>], place: usize, pass: Pass) -> usize {
        let Some(line) = lines.get(place) else {
            return place;
        };
        let Some(count) = line.text.strip_prefix("repeat ") else {
            self.add_line(*line, pass);
            return place;
        };
        let end = end_of(lines, place);
        let block = lines.get(place.saturating_add(1)..end).unwrap_or(&[]);
        for time in 0..count.parse::<u64>().unwrap_or(0) {
            for line in block {
                self.begin(line.number);
                put_line(&self.lines, line.text, time);
            }
        }
        end
    }
}

/// The place of the `end` of the block that begins at a place, or the count of lines.
fn end_of(lines: &[Line<'_>], from: usize) -> usize {
    let mut depth: usize = 0;
    for place in from..lines.len() {
        if lines[place].text.starts_with("repeat ") {
            depth = depth.saturating_add(1);
        } else if lines[place].text == "end" {
            depth = depth.saturating_sub(1);
            if depth == 0 {
                return place;
            }
        }
    }
    lines.len()
}

/// The lines after a pass. What was noted of them is taken over.
fn passed(before: &Numbered, pass: Pass) -> Numbered {
    let alloc = before.lines.alloc;
    let mut all = Numbered {
        lines: Case::new(alloc, ""),
        numbers: Vec::new(alloc),
    };
    all.lines.join(&before.lines);
    let text = before.lines.taken();
    let mut lines = Vec::new(alloc);
    for (number, text) in before.numbers.iter().zip(text.lines()) {
        let number = *number;
        all.lines.push(&mut lines, Line { number, text });
    }
    let mut place: usize = 0;
    for _ in 0..lines.len() {
        place = all.add_at(lines.as_slice(), place, pass).saturating_add(1);
    }
    all
}

/// The text of a file with all its lines written out: those between `repeat N` and `end` come N times, where a block may be
/// in another one; and those that go on are in one with the line before them.
pub(crate) fn written_out(alloc: Global, text: &str) -> Numbered {
    let (lines, mut numbers) = (Case::new(alloc, ""), Vec::new(alloc));
    lines.put(text);
    for before in 0..text.lines().count() {
        lines.push(&mut numbers, before.saturating_add(1));
    }
    let mut all = Numbered { lines, numbers };
    for pass in [Pass::Blocks, Pass::Blocks, Pass::Joins] {
        all = passed(&all, pass);
    }
    all
}
