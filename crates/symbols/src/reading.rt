//! The symbols of a file, in order.

ghost use Rattle.std.specs.Prelude.{◌≡◌, ◌≤◌, ◌<◌, ◌++◌, ◌+◌, ◌^◌, IfOk, OnOk, length, option_to_list};
ghost use Rattle.std.specs.List.Sorted.{IsPermutation};
ghost use Rattle.symbols.specs.File.{most_bytes};
ghost use Rattle.symbols.specs.steps.Entries.{AreInOrder, IsInOrder, entries_of, entry_of};

use crate::entry::Entry;
use crate::line::entry_of;
use std::alloc::{AllocError, Allocator};

/// How many entries a line gives, which begins at this place of the file: one, or none.
fn count_one(from: usize, line: &[u8]) -> usize
    requires { from + length line.now < 2 ^ 62 }
    ensures exact { result ≡ length (option_to_list (entry_of from line.now)) }
    ensures few { result ≤ 1 }
{
    match entry_of(from, line) {
        Some(_) => 1,
        None => 0,
    }
}

/// How many entries a file has.
pub(crate) fn count_entries(bytes: &[u8]) -> usize
    requires { length bytes.now ≤ most_bytes }
    ensures { result ≡ length (entries_of bytes.now) }
{
    let mut count = 0;
    let mut from = 0;
    for (place, byte) in bytes.iter().enumerate() {
        if *byte == b'\n' {
            count += count_one(from, &bytes[from..place]);
            from = place + 1;
        }
    }
    count + count_one(from, &bytes[from..])
}

/// Adds the entry of a line, which begins at this place of the file, if it has one.
fn add<A: Allocator>(
    entries: &mut Vec<Entry, A>,
    from: usize,
    line: &[u8],
) -> Result<(), AllocError>
    requires { from + length line.now < 2 ^ 62 }
    ensures { OnOk result
        (entries.new.items ≡ entries.old.items ++ option_to_list (entry_of from line.now)) }
{
    if let Some(entry) = entry_of(from, line) {
        entries.push(entry)?;
    }
    Ok(())
}

/// The entries of a file, in its order. There is capacity for `count` of them at first.
fn all_entries<A: Allocator>(
    alloc: A,
    bytes: &[u8],
    count: usize,
) -> Result<Vec<Entry, A>, AllocError>
    requires { length bytes.now ≤ most_bytes }
    ensures { IfOk result (λ entries. entries.items ≡ entries_of bytes.now) }
{
    let mut entries = Vec::with_capacity(alloc, count)?;
    let mut from = 0;
    for (place, byte) in bytes.iter().enumerate() {
        if *byte == b'\n' {
            add(&mut entries, from, &bytes[from..place])?;
            from = place + 1;
        }
    }
    add(&mut entries, from, &bytes[from..])?;
    Ok(entries)
}

/// Puts entries in order: by their addresses, and those of one address by their places in the file.
fn sort(entries: &mut [Entry])
    ensures permuted { IsPermutation entries.old entries.new }
    ensures ordered { IsInOrder entries.new }
{
    entries.sort_unstable_by_key(|entry| (entry.address, entry.start));
}

/// The entries of a file, in order. There is capacity for `count` of them at first.
pub(crate) fn entries_in_order<A: Allocator>(
    alloc: A,
    bytes: &[u8],
    count: usize,
) -> Result<Vec<Entry, A>, AllocError>
    requires { length bytes.now ≤ most_bytes }
    ensures { IfOk result (λ entries. AreInOrder bytes.now entries.items) }
{
    let mut entries = all_entries(alloc, bytes, count)?;
    sort(entries.as_mut_slice());
    Ok(entries)
}
