//! The field at the front of a text, straight from its bytes.

ghost use Rattle.std.specs.Prelude.{◌≡◌, ◌<◌, ◌++◌, ◌∷◌, ℕ, List, true, length, Option, None, IfSome};
ghost use Rattle.std.specs.Option.{IsSomeAnd};
ghost use Rattle.retire.specs.Number.{is_numeral, is_prefix};
ghost use Rattle.retire.specs.steps.PlainRow.{EndsField, HasCell, HasDigits, HasField, digit_count};

use crate::hex::{NO_DIGIT, after_prefix, value_of};

/// The digits at the front of a text.
#[derive(Clone, Copy)]
struct Digits {
    value: u64,
    count: usize,
}

/// A field at the front of a text, and what follows it.
#[derive(Clone, Copy)]
pub struct Field<'a> {
    /// The number that the field spells; none where the field is empty.
    pub number: Option<u64>,
    /// What follows the field.
    pub rest: &'a [u8],
}

/// The digits at the front of a text; none where there are more than sixteen.
#[inline(always)]
fn digits_before(text: &[u8]) -> Option<Digits>
    ensures digits { IfSome result (λ r. HasDigits text.now r.value r.count) }
    ensures all { IfSome result (λ r. r.count ≡ digit_count text.now) }
    ensures long { result ≡ None → 16 < digit_count text.now }
{
    let mut value = 0u64;
    for (i, byte) in text.iter().enumerate() {
        let digit = value_of(*byte);
        if digit == NO_DIGIT {
            return Some(Digits { value, count: i });
        }
        if i == 16 {
            return None;
        }
        value = value * 16 + u64::from(digit);
    }
    Some(Digits {
        value,
        count: text.len(),
    })
}

/// The field of a prefix and these digits; none where there is no digit, or more than sixteen.
#[inline(always)]
fn prefixed(digits: &[u8]) -> Option<Field<'_>>
    ensures field { IfSome result (λ r. (a : ℕ) → (b : ℕ) → is_prefix a b ≡ true
        → HasField (a ∷ b ∷ digits.now) r.number r.rest.now) }
    ensures reads { (field : List ℕ) (rest : List ℕ) → digits.now ≡ field ++ rest
        → is_numeral field ≡ true → EndsField rest
        → IsSomeAnd result (λ r. r.rest.now ≡ rest) }
{
    let found = digits_before(digits)?;
    if found.count == 0 {
        return None;
    }
    let (_, rest) = digits.split_at(found.count);
    Some(Field {
        number: Some(found.value),
        rest,
    })
}

/// The field of the digits at the front of a text; none where there are more than sixteen.
#[inline(always)]
fn unprefixed(text: &[u8]) -> Option<Field<'_>>
    ensures field { IfSome result (λ r. HasField text.now r.number r.rest.now) }
    ensures reads { (field : List ℕ) (rest : List ℕ) → text.now ≡ field ++ rest
        → is_numeral field ≡ true → EndsField rest
        → IsSomeAnd result (λ r. r.rest.now ≡ rest) }
{
    let found = digits_before(text)?;
    let (_, rest) = text.split_at(found.count);
    let number = if found.count == 0 {
        None
    } else {
        Some(found.value)
    };
    Some(Field { number, rest })
}

/// The field at the front of a text, of any length.
#[inline(always)]
fn long_field(text: &[u8]) -> Option<Field<'_>>
    ensures field { IfSome result (λ r. HasField text.now r.number r.rest.now) }
    ensures reads { (number : Option ℕ) (rest : List ℕ) → HasField text.now number rest → EndsField rest
        → length rest < length text.now
        → IsSomeAnd result (λ r. r.rest.now ≡ rest) }
{
    let digits = after_prefix(text);
    if digits.len() == text.len() {
        unprefixed(text)
    } else {
        prefixed(digits)
    }
}

/// What follows the comma that a text begins with.
#[inline(always)]
pub(crate) fn after_comma(text: &[u8]) -> Option<&[u8]>
    ensures comma { IfSome result (λ r. text.now ≡ 44 ∷ r.now) }
    ensures reads { (rest : List ℕ) → text.now ≡ 44 ∷ rest → IsSomeAnd result (λ r. r.now ≡ rest) }
{
    match text {
        [b',', rest @ ..] => Some(rest),
        _ => None,
    }
}

/// The field at the front of a text; most are empty or one digit.
#[inline(always)]
pub fn field_before(text: &[u8]) -> Option<Field<'_>>
    ensures field { IfSome result (λ r. HasField text.now r.number r.rest.now) }
    ensures reads { (number : Option ℕ) (rest : List ℕ) → HasField text.now number rest → EndsField rest
        → IsSomeAnd result (λ r. r.rest.now ≡ rest) }
{
    let [first, rest @ ..] = text else {
        return Some(Field {
            number: None,
            rest: text,
        });
    };
    let digit = value_of(*first);
    if digit == NO_DIGIT {
        return Some(Field {
            number: None,
            rest: text,
        });
    }
    match after_comma(rest) {
        Some(_) => Some(Field {
            number: Some(u64::from(digit)),
            rest,
        }),
        None => long_field(text),
    }
}

/// The field at the front of a text that ends at a comma, and what follows the comma.
#[inline(always)]
pub fn cell(text: &[u8]) -> Option<Field<'_>>
    ensures cell { IfSome result (λ r. HasCell text.now r.number r.rest.now) }
    ensures reads { (number : Option ℕ) (rest : List ℕ) → HasCell text.now number rest
        → IsSomeAnd result (λ r. r.rest.now ≡ rest) }
{
    let field = field_before(text)?;
    let rest = after_comma(field.rest)?;
    Some(Field {
        number: field.number,
        rest,
    })
}
