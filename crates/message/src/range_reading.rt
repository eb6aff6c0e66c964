//! Harts as a text asks for them.

ghost use Rattle.std.specs.Prelude.{◌≡◌};
ghost use Rattle.std.specs.Char.{is_ascii_digit};
ghost use Rattle.std.specs.List.{list_all};
ghost use Rattle.message.specs.Text.{hart_of, ordered, range_of};

use crate::MOST_HARTS;
use crate::range::HartRange;

/// The harts that a text asks for: `A-B` for those from A to B, or `A` for that one. A and B are decimal digits and
/// nothing else, below [`MOST_HARTS`], and A is not above B. `None` where the text is no such one.
pub fn range_of(text: &str) -> Option<HartRange>
    ensures { result ≡ range_of text.now }
{
    match text.split_once('-') {
        Some((first, last)) => ordered(hart_of(first), hart_of(last)),
        None => ordered(hart_of(text), hart_of(text)),
    }
}

/// The harts from one to another, where there are both and the first is not above the last.
fn ordered(first: Option<u16>, last: Option<u16>) -> Option<HartRange>
    ensures { result ≡ ordered first last }
{
    match (first, last) {
        (Some(first), Some(last)) if first <= last => Some(HartRange { first, last }),
        _ => None,
    }
}

/// The hart that decimal digits spell, where there is one digit at least and nothing else, and it is below
/// [`MOST_HARTS`].
fn hart_of(text: &str) -> Option<u16>
    ensures { result ≡ hart_of text.now }
{
    if !is_digits(text.as_bytes()) {
        return None;
    }
    match text.parse::<u16>() {
        Ok(hart) if hart < MOST_HARTS => Some(hart),
        _ => None,
    }
}

/// Whether there are decimal digits alone.
fn is_digits(text: &[u8]) -> bool
    ensures { result ≡ list_all is_ascii_digit text.now }
{
    text.iter().all(|byte| byte.is_ascii_digit())
}
