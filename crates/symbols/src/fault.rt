//! Why symbols are not read.

ghost use Rattle.std.specs.Prelude.{Some};
ghost use Rattle.symbols.specs.FaultText.{symbols_fault_text};

use std::error::Error;
use std::fmt;

/// Why a file's symbols are not read. A line that is no symbol is no fault.
#[derive(Clone, Copy, Debug, PartialEq, Eq)]
pub enum SymbolsFault {
    /// The file has more than 16,777,216 bytes.
    TooLarge,
    /// No line of the file is a symbol of code.
    NoSymbol,
    /// An allocation failed.
    Memory,
}

impl fmt::Display for SymbolsFault {
    ghost output = { λ fault. Some (symbols_fault_text fault) };

    fn fmt<W: fmt::Write>(&self, f: &mut fmt::Formatter<W>) -> fmt::Result {
        f.write_str(match *self {
            SymbolsFault::TooLarge => "larger than 16777216 bytes",
            SymbolsFault::NoSymbol => "no symbol of code: give it what nm prints",
            SymbolsFault::Memory => "out of memory",
        })
    }
}

impl Error for SymbolsFault {}
