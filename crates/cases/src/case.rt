//! A case that is played: what its arguments say, and what comes.

use std::alloc::{AllocError, Global};
use std::cell::Cell;
use std::fmt::{Debug, Display};

/// A case: its arguments that are not read yet, and what came.
///
/// Where an argument is not read or allocation fails, the case notes it, and fails at its end. So what reads arguments
/// and appends what comes has no result. All that play a case share it: what changes is in cells, and the text of the
/// arguments is its own, so that a function that is given a case has a reference and no lifetime to prove anything of.
///
/// A case may be answered in several ways, all of which have to give the same: [`Case::end_first_way`] comes after the
/// first of them, and [`Case::end_way`] after each other one.
#[derive(Drop)]
pub struct Case {
    pub alloc: Global,
    /// The arguments.
    line: String,
    /// Where those of them begin that are not read yet.
    place: Cell<usize>,
    /// What came since a way ended.
    came: Cell<String>,
    /// What came before that, with what other ways gave otherwise.
    before: Cell<String>,
    /// What came in the first way.
    first: Cell<String>,
    is_unread: Cell<bool>,
    wants_memory: Cell<bool>,
    /// The case only sets something for those after it.
    is_setting: Cell<bool>,
}

/// A text up to a character, and what comes after it.
pub fn cut(text: &str, at: char) -> (&str, &str) {
    text.split_once(at).unwrap_or((text, ""))
}

impl Case {
    /// A case of which nothing is read.
    pub fn new(alloc: Global, text: &str) -> Case {
        let line = String::from_str(alloc, text);
        Case {
            alloc,
            place: Cell::new(0),
            came: Cell::new(String::new(alloc)),
            before: Cell::new(String::new(alloc)),
            first: Cell::new(String::new(alloc)),
            is_unread: Cell::new(false),
            wants_memory: Cell::new(line.is_err()),
            is_setting: Cell::new(false),
            line: line.unwrap_or(String::new(alloc)),
        }
    }

    /// A case with other arguments.
    pub fn over(&self, text: &str) -> Case {
        Case::new(self.alloc, text)
    }

    /// A case with the arguments that are not read yet, to answer them in another way.
    pub fn again(&self) -> Case {
        self.over(self.text())
    }

    /// The arguments that are not read yet.
    pub fn text(&self) -> &str {
        self.line.get(self.place.get()..).unwrap_or("")
    }

    /// Notes that there is no such verb, or that an argument is not read.
    pub fn unread(&self) {
        self.is_unread.set(true);
    }

    /// Notes that allocation failed.
    pub fn no_memory(&self) {
        self.wants_memory.set(true);
    }

    /// Notes where allocation failed.
    pub fn note(&self, done: Result<(), AllocError>) {
        if done.is_err() {
            self.no_memory();
        }
    }

    /// What a call returned. Its error is noted as one of allocation.
    pub fn granted<T: Drop, E: Drop>(&self, done: Result<T, E>) -> Option<T> {
        if done.is_err() {
            self.no_memory();
        }
        done.ok()
    }

    /// What an argument was read as. That it was not read is noted.
    pub fn read<T: Drop, E: Drop>(&self, read: Result<T, E>) -> Option<T> {
        if read.is_err() {
            self.unread();
        }
        read.ok()
    }

    /// Notes that the case only sets something for those after it. It is not counted.
    pub fn sets(&self) {
        self.is_setting.set(true);
    }

    /// Whether the case only sets something.
    pub(crate) fn is_setting(&self) -> bool {
        self.is_setting.get()
    }

    /// Ends the case: all that came, with that an argument was not read. It is an error where allocation failed.
    pub(crate) fn end(&self) -> Result<String, AllocError> {
        if self.is_unread.get() {
            self.put(", and its arguments are not read");
        }
        self.keep();
        self.is_read()?;
        Ok(self.before.replace(String::new(self.alloc)))
    }

    /// Whether an argument was not read, or allocation failed.
    pub fn is_failed(&self) -> bool {
        self.is_unread.get() || self.wants_memory.get()
    }

    /// Whether all arguments were read. It is an error where allocation failed.
    pub fn is_read(&self) -> Result<bool, AllocError> {
        if self.wants_memory.get() {
            return Err(AllocError);
        }
        Ok(!self.is_unread.get())
    }

    /// Takes over what another case noted.
    pub fn join(&self, other: &Case) {
        if other.is_unread.get() {
            self.unread();
        }
        if other.wants_memory.get() {
            self.no_memory();
        }
    }

    /// Takes out what came since a way ended.
    pub fn taken(&self) -> String {
        self.came.replace(String::new(self.alloc))
    }

    /// Whether nothing came since a way ended.
    pub fn has_nothing(&self) -> bool {
        let came = self.taken();
        let has_nothing = came.is_empty();
        self.came.set(came);
        has_nothing
    }

    /// Appends a text to what a cell holds.
    fn append(&self, to: &Cell<String>, text: &str) {
        let mut held = to.replace(String::new(self.alloc));
        self.note(held.push_str(text));
        to.set(held);
    }

    /// Appends what came in a way, under its name, where it is not what came in the first one.
    fn append_other(&self, to: &Cell<String>, way: &str, own: &str, first: &str) {
        if own != first {
            for text in [", ", way, ": ", own] {
                self.append(to, text);
            }
        }
    }

    /// Keeps what came, so that it belongs to no way.
    pub fn keep(&self) {
        let came = self.taken();
        self.append(&self.before, came.as_str());
    }

    /// Ends the first way: what came is what each other way has to give.
    pub fn end_first_way(&self) {
        let came = self.taken();
        self.append(&self.before, came.as_str());
        self.first.set(came);
    }

    /// The same, where only that is shown what other ways give otherwise.
    pub fn end_hidden_way(&self) {
        self.first.set(self.taken());
    }

    /// Ends another way: what came is shown under its name where it is not what came in the first one.
    pub fn end_way(&self, way: &str) {
        let own = self.taken();
        let first = self.first.replace(String::new(self.alloc));
        self.append_other(&self.before, way, own.as_str(), first.as_str());
        self.first.set(first);
    }

    /// Takes out what came in one way, and appends it.
    pub fn put_first(&self, first: &Case) {
        self.join(first);
        let came = first.taken();
        self.put(came.as_str());
    }

    /// Takes out what came in another way, and appends it under its name where it is not the same.
    pub fn put_other(&self, way: &str, other: &Case, first: &str) {
        self.join(other);
        let own = other.taken();
        self.append_other(&self.came, way, own.as_str(), first);
    }

    /// Reads the arguments up to a character.
    pub fn part(&self, at: char) -> &str {
        let (part, rest) = cut(self.text(), at);
        self.place.set(self.line.len().saturating_sub(rest.len()));
        part
    }

    /// Reads the next word.
    pub fn word(&self) -> &str {
        self.part(' ')
    }

    /// The value of the argument `NAME=VALUE`, if there is one.
    pub fn value<'a>(&'a self, name: &str) -> Option<&'a str> {
        for word in self.text().split(' ') {
            if let Some((own, value)) = word.split_once('=') {
                if own == name {
                    return Some(value);
                }
            }
        }
        None
    }

    /// The same as a text, which is empty where there is none.
    pub fn named<'a>(&'a self, name: &str) -> &'a str {
        self.value(name).unwrap_or("")
    }

    /// The decimal number that the argument with this name is, or the other number where there is none.
    pub fn number(&self, name: &str, other: u64) -> u64 {
        match self.value(name) {
            Some(digits) => self.decimal(digits),
            None => other,
        }
    }

    /// The same below 2^16.
    pub fn small(&self, name: &str, other: u16) -> u16 {
        match self.value(name) {
            Some(digits) => self.short(digits),
            None => other,
        }
    }

    /// The number of decimal digits.
    pub fn decimal(&self, digits: &str) -> u64 {
        match digits.parse::<u64>() {
            Ok(number) => number,
            Err(_) => {
                self.unread();
                0
            }
        }
    }

    /// The number below 2^16 of decimal digits.
    pub fn short(&self, digits: &str) -> u16 {
        match digits.parse::<u16>() {
            Ok(number) => number,
            Err(_) => {
                self.unread();
                0
            }
        }
    }

    /// Reads the next word, a decimal number.
    pub fn next_decimal(&self) -> u64 {
        let digits = self.word();
        self.decimal(digits)
    }

    /// Reads the next word, a decimal number below 2^16.
    pub fn next_short(&self) -> u16 {
        let digits = self.word();
        self.short(digits)
    }

    /// The number of hexadecimal digits.
    pub fn hex(&self, digits: &str) -> u64 {
        match u64::from_str_radix(digits, 16) {
            Ok(number) => number,
            Err(_) => {
                self.unread();
                0
            }
        }
    }

    /// The number of hexadecimal digits, or 0 where there are none.
    pub fn hex_or_0(&self, digits: &str) -> u64 {
        if digits.is_empty() {
            return 0;
        }
        self.hex(digits)
    }

    /// The number below 256 of hexadecimal digits, or 0 where there are none.
    pub fn byte_or_0(&self, digits: &str) -> u8 {
        let number = self.hex_or_0(digits);
        if number > 255 {
            self.unread();
            return 0;
        }
        number as u8
    }

    /// How often an argument is meant, and the argument.
    pub fn times<'w>(&self, word: &'w str) -> (u64, &'w str) {
        match word.split_once('*') {
            Some((count, rest)) => (self.decimal(count), rest),
            None => (1, word),
        }
    }

    /// Adds an element to a list.
    pub fn push<T: Drop>(&self, list: &mut Vec<T>, item: T) {
        if list.push(item).is_err() {
            self.no_memory();
        }
    }

    /// Adds elements to a list.
    pub fn extend<T: Copy + Drop>(&self, list: &mut Vec<T>, items: &[T]) {
        if list.extend_from_slice(items).is_err() {
            self.no_memory();
        }
    }

    /// A list of this element so often.
    pub fn filled<T: Copy + Drop>(&self, item: T, count: usize) -> Vec<T> {
        match Vec::from_elem(self.alloc, item, count) {
            Ok(list) => list,
            Err(_) => {
                self.no_memory();
                Vec::new(self.alloc)
            }
        }
    }

    /// A copy of elements.
    pub fn copied<T: Copy + Drop>(&self, items: &[T]) -> Vec<T> {
        match items.to_vec(self.alloc) {
            Ok(list) => list,
            Err(_) => {
                self.no_memory();
                Vec::new(self.alloc)
            }
        }
    }

    /// Appends a text.
    pub fn put(&self, text: &str) {
        self.append(&self.came, text);
    }

    /// Appends a text with a number in place of each `#`.
    pub fn put_filled(&self, text: &str, numbers: &[u64]) {
        let mut rest = text;
        for number in numbers {
            let (before, after) = cut(rest, '#');
            self.put(before);
            self.put_shown(*number);
            rest = after;
        }
        self.put(rest);
    }

    /// Appends what has a text.
    pub fn put_shown<D: Display + Drop>(&self, shown: D) {
        let mut came = self.taken();
        self.note(write!(came, "{shown}"));
        self.came.set(came);
    }

    /// Appends how something is displayed for debugging.
    pub fn put_debug<D: Debug + Drop>(&self, shown: D) {
        let mut came = self.taken();
        self.note(write!(came, "{shown:?}"));
        self.came.set(came);
    }

    /// Appends a word, with a space before it where there is one before.
    pub fn put_word<D: Display + Drop>(&self, word: D) {
        let came = self.taken();
        let is_first = came.is_empty() || came.as_str().ends_with('\n');
        self.came.set(came);
        if !is_first {
            self.put(" ");
        }
        self.put_shown(word);
    }

    /// Appends a part, with a comma before it where there is one before.
    pub fn put_part<D: Display + Drop>(&self, part: D) {
        if !self.has_nothing() {
            self.put(", ");
        }
        self.put_shown(part);
    }

    /// Appends a number in hexadecimal.
    pub fn put_hex(&self, number: u64) {
        let mut came = self.taken();
        self.note(write!(came, "{number:x}"));
        self.came.set(came);
    }

    /// Appends bytes in hexadecimal.
    pub fn put_digits(&self, bytes: &[u8]) {
        let mut came = self.taken();
        for byte in bytes {
            self.note(write!(came, "{byte:02x}"));
        }
        self.came.set(came);
    }

    /// Appends bytes in hexadecimal, as a word.
    pub fn put_bytes(&self, bytes: &[u8]) {
        self.put_word("");
        self.put_digits(bytes);
    }

    /// Appends the text of bytes.
    pub fn put_text(&self, bytes: &[u8]) {
        match str::from_utf8(bytes) {
            Ok(text) => self.put(text),
            Err(_) => self.unread(),
        }
    }
}
