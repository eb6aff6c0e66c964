//! The symbols of files in the forms in which `nm` prints them (`symbols`).

use cases::{Case, text_of};
use symbols::{Symbols, write_symbol};

/// Where the files of a rule begin.
const BASE: u64 = 0x8000_0000;

/// Appends what is written after a place.
fn put_symbol(case: &Case, symbols: &Symbols, place: u64) {
    let mut text = Vec::new(case.alloc);
    let written = write_symbol(symbols, place, &mut text);
    case.granted(written);
    case.put("at");
    case.put_text(text.as_slice());
}

/// What is written after a place by the symbols of a file, or why it has none.
pub(crate) fn symbol(case: &Case) {
    let digits = case.named("place");
    let place = case.hex(digits);
    let file = text_of(case);
    match Symbols::new(case.alloc, file) {
        Ok(symbols) => put_symbol(case, &symbols, place),
        Err(fault) => case.put_shown(fault),
    }
}

/// How the symbols of a file with so many of them are written, 4 bytes apart, the last one first. Each fifth line is of data.
fn put_symbols(file: &Case, count: u64) {
    for left in 0..count {
        let number = count.saturating_sub(1).saturating_sub(left);
        file.put_hex(BASE.wrapping_add(number.wrapping_mul(4)));
        file.put(match number % 5 {
            0 => " t",
            1 => " T",
            2 => " w",
            3 => " W",
            _ => " D",
        });
        file.put_filled(" s#\n", &[number]);
    }
}

/// Appends how a place is named, and which name it has to have: the symbol so many before it, or the last one. Where that
/// one is of data, the one before it counts.
fn put_sized(case: &Case, symbols: &Symbols, count: u64, number: u64) {
    let last = number.min(count.saturating_sub(1));
    let symbol = if last % 5 == 4 {
        last.saturating_sub(1)
    } else {
        last
    };
    let distance = number.saturating_sub(symbol).wrapping_mul(4);
    case.put_filled("at <s#+", &[symbol]);
    case.put_hex(distance);
    case.put(">");
    case.end_hidden_way();
    put_symbol(case, symbols, BASE.wrapping_add(number.wrapping_mul(4)));
    case.end_way("wanted otherwise");
}

/// `same`, or how other places of a file with so many symbols are named: of the first 200, the last 200 and the one after.
pub(crate) fn sized(case: &Case) {
    let count = case.number("count", 0);
    let file = case.over("");
    put_symbols(&file, count);
    case.join(&file);
    let symbols = Symbols::new(case.alloc, case.copied(file.taken().as_bytes()));
    let Some(symbols) = case.read(symbols) else {
        return;
    };
    for number in 0..count.saturating_add(1) {
        if number < 200 || count.saturating_sub(200) < number {
            put_sized(case, &symbols, count, number);
        }
    }
    if case.has_nothing() {
        case.put("same");
    }
}
