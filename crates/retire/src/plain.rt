//! The rows of a log, straight from their bytes.

ghost use Rattle.std.specs.Prelude.{◌≡◌, ◌≤◌, ◌+◌, ◌++◌, ℕ, List, true, [], IfSome, IfOk, IfErr, Ok, vec_len};
ghost use Rattle.std.specs.List.{join_with_byte};
ghost use Rattle.std.specs.Option.{IsSomeAnd};
ghost use Rattle.retire.specs.Log.{header, log_of_records, most_rows, records_of};
ghost use Rattle.retire.specs.PlainLog.{ArePlainRows, IsLine, IsPlainLog};
ghost use Rattle.retire.specs.steps.Header.{HasHeader, IsHeaderBefore};
ghost use Rattle.retire.specs.steps.PlainRow.{HasRow, IsPlainRow};
ghost use Rattle.retire.specs.steps.ReadsRows.{ReadsFront};

use crate::ending::line_end;
use crate::event::Event;
use crate::fault::LogFault;
use crate::field::{cell, field_before};
use crate::limit::MOST_ROWS;
use crate::quoted_row::quoted_row;
use crate::row::event_of_numbers;
use crate::short_row::{PlainRow, short_row};
use std::alloc::Allocator;

/// The bytes of a short row, from which the number of rows of a text is guessed.
const ROW_BYTES: usize = 12;

/// The row of this number at the front of a text, of any form. There is none where its line is not plain or has a
/// fault.
#[inline(never)]
fn long_row(row: u32, text: &[u8], is_ended: bool) -> Option<PlainRow<'_>>
    ensures row { IfSome result (λ r. HasRow is_ended row text.now r.event r.rest.now) }
    ensures reads { is_ended ≡ true → (rest : List ℕ) → IsPlainRow row text.now rest → IsSomeAnd result (λ r. r.rest.now ≡ rest) }
{
    let addr = cell(text)?;
    let itype = cell(addr.rest)?;
    let privilege = cell(itype.rest)?;
    let cause = cell(privilege.rest)?;
    let tval = field_before(cause.rest)?;
    let rest = line_end(tval.rest, is_ended)?;
    let first = addr.number?;
    let second = itype.number?;
    let third = privilege.number?;
    match event_of_numbers(row, first, second, third, cause.number, tval.number) {
        Ok(event) => Some(PlainRow { event, rest }),
        Err(_) => None,
    }
}

/// The row of this number at the front of a text. There is none if its line is not one of numbers, each as it is or in
/// quotes, or has a fault.
#[inline(always)]
fn row_before(row: u32, text: &[u8], is_ended: bool) -> Option<PlainRow<'_>>
    ensures row { IfSome result (λ r. HasRow is_ended row text.now r.event r.rest.now) }
    ensures reads { is_ended ≡ true → (rest : List ℕ) → IsPlainRow row text.now rest → IsSomeAnd result (λ r. r.rest.now ≡ rest) }
{
    if let Some(plain) = short_row(row, text, is_ended) {
        return Some(plain);
    }
    if let [b'"', ..] = text {
        return quoted_row(row, text, is_ended);
    }
    match long_row(row, text, is_ended) {
        Some(plain) => Some(plain),
        None => quoted_row(row, text, is_ended),
    }
}

/// How many rows a log has so far, and what is left of a text.
#[derive(Clone, Copy)]
pub(crate) struct RowsRead<'t> {
    pub(crate) rows: u32,
    pub(crate) rest: &'t [u8],
}

/// Reads the rows at the front of a text, which follow on so many, up to the first one that is not read straight from
/// its bytes or has a fault. A row whose line may go on past the text is not read. Allocation may fail.
pub(crate) fn plain_rows<'t, A: Allocator>(
    events: &mut Vec<Event, A>,
    most: u32,
    rows: u32,
    text: &'t [u8],
    is_ended: bool,
) -> Result<RowsRead<'t>, LogFault>
    requires few { rows ≤ most }
    ensures reads { IfOk result
        (λ read. ReadsFront most rows is_ended text.now events.old.items events.new.items read.rows read.rest.now) }
    ensures plain { IfOk result (λ read. is_ended ≡ true → ArePlainRows most (rows + 1) text.now → read.rest.now ≡ []) }
    ensures short { IfOk result (λ read. read.rows ≤ most) }
    ensures denied { IfErr result (λ fault. fault ≡ LogFault.Memory) }
{
    let mut rest = text;
    for before in rows..most {
        if rest.is_empty() {
            return Ok(RowsRead { rows: before, rest });
        }
        let Some(plain) = row_before(before + 1, rest, is_ended) else {
            return Ok(RowsRead { rows: before, rest });
        };
        if events.push(plain.event).is_err() {
            return Err(LogFault::Memory);
        }
        rest = plain.rest;
    }
    Ok(RowsRead { rows: most, rest })
}

/// What follows the names of the header's fields, which are as they are or each in quotes.
fn after_names(text: &[u8]) -> Option<&[u8]>
    ensures names { IfSome result (λ r. IsHeaderBefore text.now r.now) }
    ensures reads { (rest : List ℕ) → text.now ≡ join_with_byte 44 header ++ rest
        → IsSomeAnd result (λ r. r.now ≡ rest) }
{
    if let Some(rest) = text.strip_prefix(b"addr,itype,priv,cause,tval".as_slice()) {
        return Some(rest);
    }
    let rest = text.strip_prefix(b"\"addr\",\"itype\",\"priv\",\"cause\",\"tval\"".as_slice())?;
    Some(rest)
}

/// What follows the header's line.
pub(crate) fn after_header(text: &[u8], is_ended: bool) -> Option<&[u8]>
    ensures header { IfSome result (λ r. HasHeader is_ended text.now r.now) }
    ensures reads { is_ended ≡ true → (rest : List ℕ) → IsLine header text.now rest
        → IsSomeAnd result (λ r. r.now ≡ rest) }
{
    let end = after_names(text)?;
    line_end(end, is_ended)
}

/// Reads the events of a text into a list that is empty. `true` means that the text is a log with no fault, and that
/// the list holds its events. `false` means that the text is no plain log; the list may hold anything then.
pub(crate) fn plain_log<A: Allocator>(
    events: &mut Vec<Event, A>,
    text: &[u8],
) -> Result<bool, LogFault>
    requires empty { events.old.items ≡ [] }
    ensures holds { IfOk result (λ all. all ≡ true → log_of_records (records_of text.now) ≡ Ok events.new.items) }
    ensures reads { IfOk result (λ all. IsPlainLog text.now → all ≡ true) }
    ensures short { IfOk result (λ all. all ≡ true → vec_len events.new ≤ most_rows) }
    ensures denied { IfErr result (λ fault. fault ≡ LogFault.Memory) }
{
    let Some(rows) = after_header(text, true) else {
        return Ok(false);
    };
    // If this allocation fails or is too small, pushing the rows allocates again.
    let _ = events.reserve((rows.len() / ROW_BYTES).min(MOST_ROWS as usize));
    let read = plain_rows(events, MOST_ROWS, 0, rows, true)?;
    Ok(read.rest.is_empty())
}
