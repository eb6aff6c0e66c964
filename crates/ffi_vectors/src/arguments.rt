//! The arguments of a case.

use crate::fields::{Fields, KEPT, NO_FIELDS, Record, low_16, low_32};
use crate::store::Store;
use cases::{Case, bytes_of};
use ffi::{EncoderNumbers, EventNumbers, HartNumbers, ImagePiece, PacketNumbers, WalkNumbers};
use std::alloc::Global;

/// Where programs begin that name no base.
const BASE: u64 = 0x8000_0000;

/// The names of numbers: parameters of calls, the sizes of buffers, and how much is shown. Of what is handed out `tail`
/// are the last, without how many there are, `last` the last and `show` the first; with `steps` lists are written by
/// steps.
const NUMBERS: &str =
    "harts hart period mode version format flags number room places rows arrivals lost runs \
    tail last show steps numbers mix seed";

/// The names of bytes.
const BYTES: &str = "image payload capture sent received log text symbols bytes due";

/// The number of decimal digits, or of hexadecimal ones after `0x`.
pub(crate) fn number_of(case: &Case, text: &str) -> u64 {
    match text.strip_prefix("0x") {
        Some(digits) => case.hex(digits),
        None => case.decimal(text),
    }
}

/// The number that the argument with this name is, or the other number where there is none.
pub(crate) fn number_or(case: &Case, name: &str, other: u64) -> u64 {
    match case.value(name) {
        Some(text) => number_of(case, text),
        None => other,
    }
}

/// Appends the bytes that an expression says.
pub(crate) fn add_bytes(case: &Case, store: &Store, text: &str, bytes: &mut Vec<u8>) {
    for one in text.split('+') {
        let (times, part) = case.times(one);
        let own = match store.get(part) {
            Some(_) => Vec::new(case.alloc),
            None => bytes_of(case, part),
        };
        let part = store.get(part).unwrap_or(own.as_slice());
        for _ in 0..times {
            let done = bytes.extend_from_slice(part);
            case.note(done);
        }
    }
}

/// Sets the number of a field, `NAME=VALUE`.
fn set_field(case: &Case, names: &str, record: &mut Record, word: &str) {
    let (name, number) = word.split_once('=').unwrap_or((word, ""));
    let number = number_of(case, number);
    for (own, field) in names.split(' ').zip(record.iter_mut()) {
        if own == name {
            *field = number;
            return;
        }
    }
    case.unread();
}

/// The struct that a text or its name says. What is no field of it is noted.
fn struct_of<T: Fields>(case: &Case, store: &Store, text: &str) -> T {
    let named = store.get(text).unwrap_or(text.as_bytes());
    let text = str::from_utf8(named).unwrap_or("");
    let begun = text.strip_prefix('{').unwrap_or("");
    let inner = begun.strip_suffix('}').unwrap_or("?");
    let mut record = NO_FIELDS;
    for word in inner.split(',') {
        if !inner.is_empty() {
            set_field(case, T::NAMES, &mut record, word);
        }
    }
    T::of(&record)
}

/// The state that a text or its name says, if all its fields are of such a state, which is then known. Else all are 0.
fn state_of<T: Fields>(case: &Case, store: &Store, text: &str, is_known: &mut bool) -> T {
    let own = case.over("");
    let state = struct_of(&own, store, text);
    if own.is_failed() {
        return T::of(&NO_FIELDS);
    }
    *is_known = true;
    state
}

/// What is given to a call.
#[derive(Drop)]
pub(crate) struct Given<'a> {
    pub(crate) alloc: Global,
    store: &'a Store,
    /// The arguments.
    text: &'a str,
    /// The pieces of the program: those that are given, or the image.
    pub(crate) pieces: Vec<ImagePiece<'a>>,
    /// Bytes of several elements, one after the other, and where each ends.
    pub(crate) joined: Vec<u8>,
    pub(crate) ends: Vec<u64>,
    pub(crate) events: Vec<EventNumbers>,
    pub(crate) packet: PacketNumbers,
    pub(crate) encoder: EncoderNumbers,
    pub(crate) hart_state: HartNumbers,
    pub(crate) walk: WalkNumbers,
    numbers: Record,
}

impl<'a> Given<'a> {
    /// Nothing.
    pub(crate) fn new(alloc: Global, store: &'a Store, text: &'a str) -> Given<'a> {
        Given {
            alloc,
            store,
            text,
            pieces: Vec::new(alloc),
            joined: Vec::new(alloc),
            ends: Vec::new(alloc),
            events: Vec::new(alloc),
            packet: PacketNumbers::of(&NO_FIELDS),
            encoder: EncoderNumbers::of(&NO_FIELDS),
            hart_state: HartNumbers::of(&NO_FIELDS),
            walk: WalkNumbers::of(&NO_FIELDS),
            numbers: [KEPT; 21],
        }
    }

    /// The number of this name, if it is given.
    fn given(&self, name: &str) -> Option<u64> {
        for (own, number) in NUMBERS.split(' ').zip(&self.numbers) {
            if own == name && *number != KEPT {
                return Some(*number);
            }
        }
        None
    }

    /// The number of this name, 0 where it is not given.
    pub(crate) fn number(&self, name: &str) -> u64 {
        self.given(name).unwrap_or(0)
    }

    /// The low 32 bits of it.
    pub(crate) fn low_32(&self, name: &str) -> u32 {
        low_32(self.number(name))
    }

    /// The low 16 bits of it.
    pub(crate) fn low_16(&self, name: &str) -> u16 {
        low_16(self.number(name))
    }

    /// The size of this name, if it is given.
    pub(crate) fn size(&self, name: &str) -> Option<usize> {
        Some(self.given(name)?.min(1 << 32) as usize)
    }

    /// The size of a buffer of this name.
    pub(crate) fn room(&self, name: &str) -> usize {
        self.size(name).unwrap_or(0)
    }

    /// The elements of a buffer that are shown: the first so many with `show`, the last so many with `last`, or all.
    pub(crate) fn shown<'b, T>(&self, items: &'b [T]) -> &'b [T] {
        if let Some(count) = self.size("last") {
            let from = items.len().saturating_sub(count);
            return items.get(from..).unwrap_or(items);
        }
        let count = self.size("show").unwrap_or(items.len());
        items.get(..count).unwrap_or(items)
    }

    /// The bytes of this name, if they are given.
    pub(crate) fn some_bytes(&self, name: &str) -> Option<&'a [u8]> {
        for word in self.text.split(' ') {
            let (own, text) = word.split_once('=').unwrap_or((word, ""));
            if own == name {
                return Some(self.store.get(text).unwrap_or(&[]));
            }
        }
        None
    }

    /// The bytes of this name; none where they are not given.
    pub(crate) fn bytes(&self, name: &str) -> &'a [u8] {
        self.some_bytes(name).unwrap_or(&[])
    }

    /// Adds elements, each an expression.
    fn add_joined(&mut self, case: &Case, text: &str) {
        for item in text.split(',') {
            let (times, part) = case.times(item);
            for _ in 0..times {
                add_bytes(case, self.store, part, &mut self.joined);
                case.push(&mut self.ends, self.joined.len() as u64);
            }
        }
    }

    /// Takes other ends.
    fn end_at(&mut self, case: &Case, text: &str) {
        self.ends.clear();
        for item in text.split(',') {
            let (times, part) = case.times(item);
            if !text.is_empty() {
                let end = number_of(case, part);
                for _ in 0..times {
                    case.push(&mut self.ends, end);
                }
            }
        }
    }

    /// Adds pieces: where each begins, and the name of its bytes.
    fn add_pieces(&mut self, case: &Case, text: &str) {
        for item in text.split(',') {
            let (times, part) = case.times(item);
            if !text.is_empty() {
                let (base, name) = part.split_once(':').unwrap_or((part, ""));
                let base = number_of(case, base);
                let bytes = self.store.get(name).unwrap_or(&[]);
                for _ in 0..times {
                    case.push(&mut self.pieces, ImagePiece { base, bytes });
                }
            }
        }
    }

    /// Adds the image as one piece.
    fn add_image(&mut self, case: &Case) {
        let (bytes, base) = (self.bytes("image"), number_or(case, "base", BASE));
        case.push(&mut self.pieces, ImagePiece { base, bytes });
    }

    /// Cuts the image.
    fn add_cut(&mut self, case: &Case, text: &str) {
        let at = number_of(case, text);
        let (image, base) = (self.bytes("image"), number_or(case, "base", BASE));
        let (front, rest) = image.split_at((at as usize).min(image.len()));
        case.push(&mut self.pieces, ImagePiece { base, bytes: front });
        let base = base.saturating_add(at);
        case.push(&mut self.pieces, ImagePiece { base, bytes: rest });
    }

    /// Adds events.
    fn add_events(&mut self, case: &Case, text: &str) {
        for item in text.split(';') {
            let (times, part) = case.times(item);
            let event = struct_of(case, self.store, part);
            for _ in 0..times {
                case.push(&mut self.events, event);
            }
        }
    }

    /// Reads a state: that of an encoder, a decoder or a walk, or of each of these that has all its fields.
    fn read_state(&mut self, case: &Case, text: &str) {
        let mut is_known = false;
        self.encoder = state_of(case, self.store, text, &mut is_known);
        self.hart_state = state_of(case, self.store, text, &mut is_known);
        self.walk = state_of(case, self.store, text, &mut is_known);
        if !is_known {
            case.unread();
        }
    }

    /// Reads an argument.
    fn read(&mut self, case: &Case, word: &str) {
        let (name, text) = word.split_once('=').unwrap_or((word, ""));
        match name {
            "logs" | "payloads" => self.add_joined(case, text),
            "ends" => self.end_at(case, text),
            "pieces" => self.add_pieces(case, text),
            "cut" => self.add_cut(case, text),
            "events" => self.add_events(case, text),
            "packet" => self.packet = struct_of(case, self.store, text),
            "state" => self.read_state(case, text),
            "base" | "new" => {}
            _ => set_field(case, NUMBERS, &mut self.numbers, word),
        }
    }

    /// Reads the arguments.
    pub(crate) fn read_all(&mut self, case: &Case) {
        if case.value("pieces").is_none() && case.value("cut").is_none() {
            self.add_image(case);
        }
        for word in case.text().split(' ') {
            if let Some((name, _)) = word.split_once('=') {
                if !is_bytes(name) {
                    self.read(case, word);
                }
            }
        }
    }
}

/// Whether an argument of this name is bytes.
fn is_bytes(name: &str) -> bool {
    BYTES.split(' ').any(|own| own == name)
}

/// Makes the bytes that arguments say, and stores them under their own texts.
pub(crate) fn store_bytes(case: &Case, store: &mut Store) {
    for word in case.text().split(' ') {
        let (name, text) = word.split_once('=').unwrap_or((word, ""));
        let is_known = store.get(text).is_some() && !text.contains(['+', '*']);
        if is_bytes(name) && !is_known {
            let mut bytes = Vec::new(case.alloc);
            add_bytes(case, store, text, &mut bytes);
            store.put(case, text, bytes);
        }
    }
}
