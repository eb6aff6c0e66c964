//! The symbols of a file, and the names that they give.

ghost use Rattle.std.specs.Prelude.{◌≡◌, ◌≢◌, ◌⊎◌, ◌↔◌, ◌<◌, ◌≤◌, Err, IfOk, List, [], ℕ, length, option_map};
ghost use Rattle.symbols.specs.File.{most_bytes, symbols_of};
ghost use Rattle.symbols.specs.Refused.{file_or_fault};
ghost use Rattle.symbols.specs.Naming.{naming};
ghost use Rattle.symbols.specs.Nearest.{symbol_at};
ghost use Rattle.symbols.specs.steps.Entries.{AreInOrder};

use crate::entry::Entry;
use crate::fault::SymbolsFault;
use crate::named::Named;
use crate::reading::{count_entries, entries_in_order};
use crate::search::{last_up_to, name_of};
use std::alloc::{Allocator, Global};
use std::marker::Model;

/// The largest file, in bytes.
pub const MOST_BYTES: usize = 16_777_216;

/// The symbols of a file. They never change.
#[derive(Drop)]
pub struct Symbols<A: Allocator = Global> {
    file: Vec<u8>,
    entries: Vec<Entry, A>,
}

impl<A: Allocator> Model for Symbols<A> {
    ghost Value = { List ℕ };

    ghost view = { λ symbols. symbols.file.items };

    ghost invariant = { λ symbols. AreInOrder symbols.file.items symbols.entries.items };
}

impl<A: Allocator> Symbols<A> {
    /// The symbols of a file's bytes. Lines that are no symbols are passed over, and the order of the others does not
    /// matter. A file without a symbol is refused. Memory is taken for 24 bytes a symbol.
    pub fn new(alloc: A, file: Vec<u8>) -> Result<Symbols<A>, SymbolsFault>
        ensures file { IfOk result (λ symbols. symbols ≡ file.items) }
        ensures some { IfOk result (λ symbols. symbols_of file.items ≢ []) }
        ensures too_large { (result ≡ Err SymbolsFault.TooLarge) ↔ (most_bytes < length file.items) }
        ensures no_symbol { (result ≡ Err SymbolsFault.NoSymbol)
            ↔ ((length file.items ≤ most_bytes) × (symbols_of file.items ≡ [])) }

        // Unless an allocation failed, the result is a function of the file.
        ensures value { (result ≡ Err SymbolsFault.Memory) ⊎ (result ≡ file_or_fault file.items) }
    {
        if file.len() > MOST_BYTES {
            return Err(SymbolsFault::TooLarge);
        }
        let count = count_entries(file.as_slice());
        if count == 0 {
            return Err(SymbolsFault::NoSymbol);
        }
        match entries_in_order(alloc, file.as_slice(), count) {
            Ok(entries) => Ok(Symbols { file, entries }),
            Err(_) => Err(SymbolsFault::Memory),
        }
    }

    /// What a place is named: by the symbol with the greatest address at or below it, of several at one address by the
    /// last in the file. A place below all symbols has no name.
    pub fn at(&self, place: u64) -> Option<Named<'_>>
        ensures { option_map naming result ≡ symbol_at self.now place }
    {
        let entries = self.entries.as_slice();
        let file = self.file.as_slice();
        match last_up_to(entries, place) {
            Some(entry) => {
                let name = name_of(file, entry);
                let distance = place - entry.address;
                Some(Named { name, distance })
            }
            None => None,
        }
    }
}
