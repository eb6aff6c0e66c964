//! Which rows of its hart each message settles, over what salvaging leaves of the hart.

ghost use Rattle.std.specs.Prelude.{◌≡◌, ◌<◌, ◌+◌, ◌-◌, ◌^◌, All, IfOk, List, map, min};
ghost use Rattle.std.specs.List.{zip};
ghost use Rattle.std.specs.List.Sorted.{IsNonDecreasingBy, IsPermutation};
ghost use Rattle.message.specs.declared.message.Message.{Message as AnyMessage};
ghost use Rattle.salvaging.specs.TreatedParts.{taken_by};
ghost use Rattle.salvaging.specs.declared.treatment.Treated.{Treated as AnyTreated};
ghost use Rattle.salvage_reports.specs.HartRows.{in_row, in_rows, without_rows};
ghost use Rattle.salvage_reports.specs.steps.Counted.{HasNumber, all_counted, counted_of, key_in, key_of, rows_below};
ghost use Rattle.salvage_reports.specs.steps.Counted.{summed};

use listing::Form;
use message::Message;
use salvaging::{Treated, Treatment};
use std::alloc::{AllocError, Allocator};

/// What is done with a message, and which rows of its hart it settles.
#[derive(Clone, Copy)]
pub struct TreatedInRows {
    /// What is done with it.
    pub treated: Treated,
    /// How many rows all messages leave of its hart up to its number, or 2^64 - 1 if there are more; 0 where rows are not
    /// to be said.
    pub rows: usize,
}

/// How many rows a message adds.
#[derive(Clone, Copy)]
pub(crate) struct Counted {
    /// Its hart and its number.
    pub(crate) key: u128,
    pub(crate) rows: usize,
}

/// How many rows all messages add up to one.
#[derive(Clone, Copy)]
pub(crate) struct Summed {
    /// The hart and the number of that one.
    pub(crate) key: u128,
    pub(crate) rows: u128,
}

/// What is done with each of these messages, and, where the form says rows, how many rows all of them leave of its hart up
/// to its number: in the order of the numbers, as [`write_found`](crate::write_found) prints them. The lists are as long as
/// each other; of a longer one the rest is passed over.
///
/// The error says that an allocation failed. The time is that of sorting the messages, where the form says rows.
pub fn in_rows<A: Allocator + Copy>(
    alloc: A,
    form: Form,
    messages: &[Message],
    treated: &[Treated],
) -> Result<Vec<TreatedInRows, A>, AllocError>
    ensures { IfOk result (λ all. all.items ≡ in_rows form messages.now treated.now) }
{
    match form {
        Form::Lines { rows: false } => each_without_rows(alloc, messages, treated),
        Form::Lines { rows: true } | Form::Table => all_in_rows(alloc, messages, treated),
    }
}

/// What is done with each message, where rows are not to be said.
fn each_without_rows<A: Allocator>(
    alloc: A,
    messages: &[Message],
    treated: &[Treated],
) -> Result<Vec<TreatedInRows, A>, AllocError>
    ensures { IfOk result (λ all. all.items ≡ map without_rows (zip messages.now treated.now)) }
{
    let count = messages.len().min(treated.len());
    let mut all = Vec::with_capacity(alloc, count)?;
    for at in 0..count {
        let one = treated[at];
        all.push_reserved(TreatedInRows {
            treated: one,
            rows: 0,
        });
    }
    Ok(all)
}

/// What is done with each message, and how many rows all leave of its hart up to its number.
fn all_in_rows<A: Allocator + Copy>(
    alloc: A,
    messages: &[Message],
    treated: &[Treated],
) -> Result<Vec<TreatedInRows, A>, AllocError>
    ensures { IfOk result (λ all. all.items ≡ map (in_row (zip messages.now treated.now)) (zip messages.now treated.now)) }
{
    let mut counted = all_counted(alloc, messages, treated)?;
    sort(counted.as_mut_slice());
    let sums = all_summed(alloc, counted.as_slice())?;
    each_in_row(alloc, sums.as_slice(), messages, treated)
}

/// How many rows a message adds with which this is done.
pub(crate) fn taken_by(treatment: &Treatment) -> usize
    ensures { result ≡ taken_by treatment.now }
{
    match treatment {
        Treatment::Taken(added) => added.count,
        _ => 0,
    }
}

/// The key of a hart and a number.
fn key_of(hart: u16, number: u64) -> u128
    ensures value { result ≡ key_of hart number }
    ensures below { result + 1 < 2 ^ 128 }
    ensures range { number < 2 ^ 64 }
{
    (u128::from(hart) << 64) + u128::from(number)
}

/// How many rows a message adds with which this is done, by its key.
fn counted_of(message: &Message, treated: &Treated) -> Counted
    ensures value { result ≡ counted_of (message.now, treated.now) }
    ensures range { HasNumber (message.now, treated.now) }
{
    Counted {
        key: key_of(message.hart, message.number),
        rows: taken_by(&treated.treatment),
    }
}

/// How many rows each message adds, in the order of the messages.
fn all_counted<A: Allocator>(
    alloc: A,
    messages: &[Message],
    treated: &[Treated],
) -> Result<Vec<Counted, A>, AllocError>
    ensures value { IfOk result (λ all. all.items ≡ all_counted messages.now treated.now) }
    ensures ranges { IfOk result (λ all. All HasNumber (zip messages.now treated.now)) }
{
    let mut all = Vec::new(alloc);
    for at in 0..messages.len().min(treated.len()) {
        all.push(counted_of(&messages[at], &treated[at]))?;
    }
    Ok(all)
}

/// Sorts by keys.
fn sort(all: &mut [Counted])
    ensures permuted { IsPermutation all.old all.new }
    ensures ordered { IsNonDecreasingBy key_in all.new }
{
    all.sort_unstable_by_key(|one| one.key);
}

/// How many rows all add up to each.
fn all_summed<A: Allocator>(alloc: A, all: &[Counted]) -> Result<Vec<Summed, A>, AllocError>
    ensures { IfOk result (λ sums. sums.items ≡ summed 0 all.now) }
{
    let mut sums = Vec::new(alloc);
    let mut rows = 0u128;
    for at in 0..all.len() {
        let one = all[at];
        rows += one.rows as u128;
        sums.push(Summed { key: one.key, rows })?;
    }
    Ok(sums)
}

/// How many rows are added below a key.
fn rows_below(sums: &[Summed], key: u128) -> u128
    ensures { (all : List Counted) → IsNonDecreasingBy key_in all → sums.now ≡ summed 0 all
        → result ≡ rows_below key all }
{
    let at = sums.partition_point(|one| one.key < key);
    if at == 0 {
        return 0;
    }
    sums[at - 1].rows
}

/// So many, or 2^64 - 1 if there are more.
fn capped(rows: u128) -> usize
    ensures { result ≡ min rows (2 ^ 64 - 1) }
{
    if rows > usize::MAX as u128 {
        return usize::MAX;
    }
    rows as usize
}

/// What is done with a message, and how many rows all leave of its hart up to its number.
fn in_row(sums: &[Summed], message: &Message, treated: &Treated) -> TreatedInRows
    ensures { (messages : List AnyMessage) (done : List AnyTreated) (all : List Counted)
        → IsPermutation (all_counted messages done) all → IsNonDecreasingBy key_in all → sums.now ≡ summed 0 all
        → All HasNumber (zip messages done)
        → result ≡ in_row (zip messages done) (message.now, treated.now) }
{
    let first = rows_below(sums, key_of(message.hart, 0));
    let last = rows_below(sums, key_of(message.hart, message.number) + 1);
    TreatedInRows {
        treated: *treated,
        rows: capped(last.saturating_sub(first)),
    }
}

/// The same of each message.
fn each_in_row<A: Allocator>(
    alloc: A,
    sums: &[Summed],
    messages: &[Message],
    treated: &[Treated],
) -> Result<Vec<TreatedInRows, A>, AllocError>
    ensures { (all : List Counted) → IsPermutation (all_counted messages.now treated.now) all
        → IsNonDecreasingBy key_in all → sums.now ≡ summed 0 all → All HasNumber (zip messages.now treated.now)
        → IfOk result (λ rows. rows.items
        ≡ map (in_row (zip messages.now treated.now)) (zip messages.now treated.now)) }
{
    let mut all = Vec::new(alloc);
    for at in 0..messages.len().min(treated.len()) {
        all.push(in_row(sums, &messages[at], &treated[at]))?;
    }
    Ok(all)
}
