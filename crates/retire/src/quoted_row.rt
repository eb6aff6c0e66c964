//! A row with quoted fields, straight from its bytes.

ghost use Rattle.std.specs.Prelude.{◌≡◌, ◌∷◌, IfSome};
ghost use Rattle.retire.specs.steps.PlainRow.{HasRow, HasWritten};

use crate::ending::line_end;
use crate::field::{Field, after_comma, field_before};
use crate::row::event_of_numbers;
use crate::short_quoted_row::short_quoted_row;
use crate::short_row::PlainRow;

/// What follows the quote that a text begins with.
#[inline(always)]
fn after_quote(text: &[u8]) -> Option<&[u8]>
    ensures { IfSome result (λ r. text.now ≡ 34 ∷ r.now) }
{
    match text {
        [b'"', rest @ ..] => Some(rest),
        _ => None,
    }
}

/// The field at the front of a text, which may be in quotes.
#[inline(always)]
fn written_field(text: &[u8]) -> Option<Field<'_>>
    ensures { IfSome result (λ r. HasWritten text.now r.number r.rest.now) }
{
    let Some(inside) = after_quote(text) else {
        return field_before(text);
    };
    let field = field_before(inside)?;
    let rest = after_quote(field.rest)?;
    Some(Field {
        number: field.number,
        rest,
    })
}

/// The field at the front of a text that ends at a comma, and what follows the comma. The field may be in quotes.
#[inline(always)]
fn written_cell(text: &[u8]) -> Option<Field<'_>>
    ensures { IfSome result (λ r. HasWritten text.now r.number (44 ∷ r.rest.now)) }
{
    let field = written_field(text)?;
    let rest = after_comma(field.rest)?;
    Some(Field {
        number: field.number,
        rest,
    })
}

/// The row of this number at the front of a text, each field as it is or in quotes, of any form. There is none if the
/// text is no such row, or the row has a fault.
#[inline(always)]
fn long_quoted_row(row: u32, text: &[u8], is_ended: bool) -> Option<PlainRow<'_>>
    ensures { IfSome result (λ r. HasRow is_ended row text.now r.event r.rest.now) }
{
    let addr = written_cell(text)?;
    let itype = written_cell(addr.rest)?;
    let privilege = written_cell(itype.rest)?;
    let cause = written_cell(privilege.rest)?;
    let tval = written_field(cause.rest)?;
    let rest = line_end(tval.rest, is_ended)?;
    let first = addr.number?;
    let second = itype.number?;
    let third = privilege.number?;
    match event_of_numbers(row, first, second, third, cause.number, tval.number) {
        Ok(event) => Some(PlainRow { event, rest }),
        Err(_) => None,
    }
}

/// The row of this number at the front of a text, each field as it is or in quotes. There is none if the text is no
/// such row, or the row has a fault.
#[inline(never)]
pub(crate) fn quoted_row(row: u32, text: &[u8], is_ended: bool) -> Option<PlainRow<'_>>
    ensures { IfSome result (λ r. HasRow is_ended row text.now r.event r.rest.now) }
{
    if let Some(inside) = after_quote(text) {
        if let Some(quoted) = short_quoted_row(row, inside, is_ended) {
            return Some(quoted);
        }
    }
    long_quoted_row(row, text, is_ended)
}
