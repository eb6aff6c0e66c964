//! The row of a retirement at an address of eight digits, which most are.

ghost use Rattle.std.specs.Prelude.{◌≡◌, ◌∷◌, ℕ, List, IfSome};
ghost use Rattle.retire.specs.steps.PlainRow.{EndsLineIn, HasRow, IsPlainRow};

use crate::eight_digits::eight_digits;
use crate::ending::line_end;
use crate::event::Event;
use crate::hex::{NO_DIGIT, value_of};
use crate::row::event_of_numbers;

/// A row at the front of a text, and what follows its line.
#[derive(Clone, Copy)]
pub struct PlainRow<'a> {
    /// The row's event.
    pub event: Event,
    /// What follows the row's line.
    pub rest: &'a [u8],
}

/// The digits of a type and of a privilege after an address, and what follows the line.
#[derive(Clone, Copy)]
pub(crate) struct Tail<'a> {
    pub(crate) itype: u8,
    pub(crate) privilege: u8,
    pub(crate) rest: &'a [u8],
}

/// What follows the address of a row whose type and privilege are one byte each and whose other fields are empty.
#[inline(always)]
fn tail_of(text: &[u8], is_ended: bool) -> Option<Tail<'_>>
    ensures { IfSome result (λ r. (end : List ℕ) × (text.now ≡ 44 ∷ r.itype ∷ 44 ∷ r.privilege ∷ 44 ∷ 44 ∷ end)
        × EndsLineIn is_ended end r.rest.now) }
{
    match text {
        [b',', itype, b',', privilege, b',', b',', end @ ..] => {
            let rest = line_end(end, is_ended)?;
            Some(Tail {
                itype: *itype,
                privilege: *privilege,
                rest,
            })
        }
        _ => None,
    }
}

/// The row of this number at the front of a text, if it is a retirement at an address of eight digits and has no fault.
#[inline(always)]
pub fn short_row(row: u32, text: &[u8], is_ended: bool) -> Option<PlainRow<'_>>
    ensures row { IfSome result (λ r. HasRow is_ended row text.now r.event r.rest.now) }
    ensures only { IfSome result (λ r. (rest : List ℕ) → IsPlainRow row text.now rest → r.rest.now ≡ rest) }
{
    let (digits, behind) = text.split_first_chunk::<8>()?;
    let tail = tail_of(behind, is_ended)?;
    let addr = eight_digits(digits)?;
    let itype = value_of(tail.itype);
    let privilege = value_of(tail.privilege);
    if itype == NO_DIGIT || privilege == NO_DIGIT {
        return None;
    }
    match event_of_numbers(
        row,
        addr,
        u64::from(itype),
        u64::from(privilege),
        None,
        None,
    ) {
        Ok(event) => Some(PlainRow {
            event,
            rest: tail.rest,
        }),
        Err(_) => None,
    }
}
