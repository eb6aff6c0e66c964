//! What calls say, in numbers, and how it is written.

use crate::fields::{Fields, KEPT, KEPT_16, KEPT_32, NO_FIELDS, Record, kept};
use cases::Case;

/// What a call said: its status, how much it has to hand out and what that is called, more numbers by their names, and
/// the state after it.
#[derive(Clone, Copy)]
pub(crate) struct Said {
    pub(crate) status: u64,
    counted: &'static str,
    count: u64,
    names: &'static str,
    numbers: Record,
    pub(crate) state: Record,
}

impl Said {
    /// A status, so many bytes, and a struct.
    pub(crate) fn bytes<T: Fields>(status: u32, wanted: u64, end: &T) -> Said {
        Said {
            status: u64::from(status),
            counted: "wanted",
            count: wanted,
            names: T::NAMES,
            numbers: end.record(),
            state: NO_FIELDS,
        }
    }

    /// A status, so many elements, a number of this name, and a state.
    pub(crate) fn elements<T: Fields>(
        (status, count): (u32, u64),
        names: &'static str,
        number: u64,
        state: &T,
    ) -> Said {
        let mut numbers = NO_FIELDS;
        numbers[0] = number;
        Said {
            status: u64::from(status),
            counted: "count",
            count,
            names,
            numbers,
            state: state.record(),
        }
    }

    /// How much a call has to hand out.
    pub(crate) fn size(&self) -> usize {
        self.count.min(1 << 32) as usize
    }

    /// Appends what a call said, with `tail` without how much it has to hand out.
    pub(crate) fn put(&self, case: &Case, tail: bool) {
        put_all(case, "status", &[self.status]);
        if !tail {
            put_all(case, self.counted, &[self.count]);
        }
        put_all(case, self.names, &self.numbers);
    }
}

/// From here on numbers are hexadecimal.
const HEXADECIMAL: u64 = 1 << 24;

/// Appends a number under a name.
fn put_number(case: &Case, name: &str, number: u64) {
    case.put(name);
    if number < HEXADECIMAL {
        case.put_filled("=#", &[number]);
    } else {
        case.put("=0x");
        case.put_hex(number);
    }
}

/// Appends the numbers that a call wrote, by their names.
pub(crate) fn put_all(case: &Case, names: &str, numbers: &[u64]) {
    for (name, number) in names.split(' ').zip(numbers) {
        let is_kept = *number == KEPT
            || *number == u64::from(KEPT_32)
            || *number == u64::from(KEPT_16);
        if !is_kept {
            case.put_word("");
            put_number(case, name, *number);
        }
    }
}

/// Appends a struct's numbers that are not 0, by their names.
fn put_record(case: &Case, names: &str, record: &Record) {
    let mut is_first = true;
    case.put("{");
    for (name, number) in names.split(' ').zip(record) {
        if *number != 0 {
            if !is_first {
                case.put(",");
            }
            is_first = false;
            put_number(case, name, *number);
        }
    }
    case.put("}");
}

/// Appends the state after a call.
pub(crate) fn put_state<T: Fields>(case: &Case, record: &Record) {
    case.put_word("state=");
    put_record(case, T::NAMES, record);
}

/// The numbers of an element; 0 where there is none.
fn own_record<T: Fields>(items: &[T], place: usize) -> Record {
    match items.get(place) {
        Some(item) => item.record(),
        None => NO_FIELDS,
    }
}

/// The numbers that are written of an element: its own, or by steps how much they differ from those of the one before.
fn record_at<T: Fields>(items: &[T], place: usize, steps: bool) -> Record {
    let mut record = own_record(items, place);
    if steps && place > 0 {
        let before = own_record(items, place - 1);
        for (number, other) in record.iter_mut().zip(&before) {
            *number = number.wrapping_sub(*other);
        }
    }
    record
}

/// How many elements in a row from a place on are written with these numbers.
fn equal_ones<T: Fields>(items: &[T], from: usize, steps: bool, first: &Record) -> usize {
    for place in from..items.len() {
        if record_at(items, place, steps) != *first {
            return place - from;
        }
    }
    items.len().saturating_sub(from)
}

/// Appends elements, of which equal ones in a row are counted. Those that no call wrote are `-`.
fn put_items<T: Fields>(case: &Case, items: &[T], steps: bool) {
    let kept = kept::<T>().record();
    let mut begins: usize = 0;
    for place in 0..items.len() {
        if place == begins {
            let record = record_at(items, place, steps);
            let count = equal_ones(items, place, steps, &record).max(1);
            begins = begins.saturating_add(count);
            if place > 0 {
                case.put(";");
            }
            if count > 1 {
                case.put_shown(count);
                case.put("*");
            }
            if record == kept {
                case.put("-");
            } else {
                put_record(case, T::NAMES, &record);
            }
        }
    }
}

/// How many elements there are up to the last that a call wrote.
fn written<T: Fields>(items: &[T]) -> usize {
    let kept = kept::<T>().record();
    let mut count = 0;
    for (place, item) in items.iter().enumerate() {
        if item.record() != kept {
            count = place.saturating_add(1);
        }
    }
    count
}

/// Appends the elements of a buffer up to the last that a call wrote, under a name, if there is one: each, or by steps
/// the first, and by how much each further one differs from the one before.
pub(crate) fn put_list<T: Fields>(case: &Case, name: &str, items: &[T], steps: bool) {
    let items = items.get(..written(items)).unwrap_or(items);
    if items.is_empty() {
        return;
    }
    case.put_word(name);
    case.put("=");
    put_items(case, items, steps);
}
