//! The search among entries in order, and the names of entries.

ghost use Rattle.std.specs.Prelude.{◌≡◌, ◌≤◌, ◌+◌, length, take, drop};
ghost use Rattle.symbols.specs.steps.Entries.{IsInOrder};
ghost use Rattle.symbols.specs.steps.Found.{IsLastUpTo};

use crate::entry::Entry;

/// The last entry at or below a place, of entries in order.
pub(crate) fn last_up_to(entries: &[Entry], place: u64) -> Option<Entry>
    requires { IsInOrder entries.now }
    ensures { IsLastUpTo entries.now place result }
{
    let count = entries.partition_point(|entry| entry.address <= place);
    if count == 0 {
        None
    } else {
        Some(entries[count - 1])
    }
}

/// The name of an entry in its file.
pub(crate) fn name_of(file: &[u8], entry: Entry) -> &[u8]
    requires { entry.start + entry.length ≤ length file.now }
    ensures { result.now ≡ take entry.length (drop entry.start file.now) }
{
    let behind = &file[entry.start..];
    &behind[..entry.length]
}
