//! The row of a retirement at an address of eight digits, with each field in quotes.

ghost use Rattle.std.specs.Prelude.{◌≡◌, ◌∷◌, ℕ, List, IfSome};
ghost use Rattle.retire.specs.steps.PlainRow.{EndsLineIn, HasRow};

use crate::eight_digits::eight_digits;
use crate::ending::line_end;
use crate::hex::{NO_DIGIT, value_of};
use crate::row::event_of_numbers;
use crate::short_row::{PlainRow, Tail};

/// What follows the digits of the address, where the type and the privilege are one byte each and the other fields are
/// empty.
#[inline(always)]
fn quoted_tail_of(text: &[u8], is_ended: bool) -> Option<Tail<'_>>
    ensures { IfSome result (λ r. (end : List ℕ)
        × (text.now ≡ 34 ∷ 44 ∷ 34 ∷ r.itype ∷ 34 ∷ 44 ∷ 34 ∷ r.privilege ∷ 34 ∷ 44 ∷ 34 ∷ 34 ∷ 44 ∷ 34 ∷ 34 ∷ end)
        × EndsLineIn is_ended end r.rest.now) }
{
    match text {
        [
            b'"',
            b',',
            b'"',
            itype,
            b'"',
            b',',
            b'"',
            privilege,
            b'"',
            b',',
            b'"',
            b'"',
            b',',
            b'"',
            b'"',
            end @ ..,
        ] => {
            let rest = line_end(end, is_ended)?;
            Some(Tail {
                itype: *itype,
                privilege: *privilege,
                rest,
            })
        }
        _ => None,
    }
}

/// The row of this number at the front of a text after its first quote, if it is a retirement at an address of eight
/// digits, each field is in quotes, and it has no fault.
#[inline(always)]
pub(crate) fn short_quoted_row(row: u32, inside: &[u8], is_ended: bool) -> Option<PlainRow<'_>>
    ensures { IfSome result (λ r. HasRow is_ended row (34 ∷ inside.now) r.event r.rest.now) }
{
    let (digits, after) = inside.split_first_chunk::<8>()?;
    let tail = quoted_tail_of(after, is_ended)?;
    let addr = eight_digits(digits)?;
    let itype = value_of(tail.itype);
    let privilege = value_of(tail.privilege);
    if itype == NO_DIGIT || privilege == NO_DIGIT {
        return None;
    }
    match event_of_numbers(
        row,
        addr,
        u64::from(itype),
        u64::from(privilege),
        None,
        None,
    ) {
        Ok(event) => Some(PlainRow {
            event,
            rest: tail.rest,
        }),
        Err(_) => None,
    }
}
