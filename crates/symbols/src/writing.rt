//! Writing what a place is named.

ghost use Rattle.std.specs.Prelude.{◌≡◌, IfErr, OnOk, Some, option_map};
ghost use Rattle.std.specs.Io.KnownBytes.{Appends};
ghost use Rattle.output.specs.Begun.{AppendsBeginning};
ghost use Rattle.symbols.specs.Naming.{naming};
ghost use Rattle.symbols.specs.SymbolText.{distance_text, name_text, named_text, symbol_text};

use crate::named::Named;
use crate::symbols::Symbols;
use output::{write_bytes, write_text};
use retire::WriteFault;
use std::alloc::Allocator;
use std::fmt;
use std::io::Write;

/// How far a place is above a symbol's address, as written after the name.
#[derive(Clone, Copy)]
struct Distance(u64);

impl fmt::Display for Distance {
    ghost output = { λ distance. Some (distance_text distance.0) };

    fn fmt<W: fmt::Write>(&self, f: &mut fmt::Formatter<W>) -> fmt::Result {
        write!(f, "+{:x}>", self.0)
    }
}

/// Writes a name in angle brackets, after a blank and with its distance.
fn write_named<W: Write>(named: &Named<'_>, sink: &mut W) -> Result<(), WriteFault>
    ensures text { OnOk result
        (Appends (W.contents sink.old) (W.contents sink.new) (named_text (Some (naming named.now)))) }
    ensures begun { AppendsBeginning (named_text (Some (naming named.now)))
        (W.contents sink.old) (W.contents sink.new) }
    ensures fault { IfErr result (λ fault. fault ≡ WriteFault.Write) }
{
    write_bytes(sink, b" <")?;
    write_bytes(sink, named.name)?;
    write_text(sink, Distance(named.distance))?;
    Ok(())
}

/// Writes what follows a place: a blank, and in angle brackets the name of its symbol, a plus, and how far the place is
/// above the symbol's address, in hexadecimal. Nothing is written where the place has no name.
///
/// The only fault is [`WriteFault::Write`], where the writer failed; what was written then is a prefix of the text. No
/// memory is taken, and the writer is not flushed.
pub fn write_symbol<W: Write, A: Allocator>(
    symbols: &Symbols<A>,
    place: u64,
    sink: &mut W,
) -> Result<(), WriteFault>
    ensures text { OnOk result (Appends (W.contents sink.old) (W.contents sink.new) (symbol_text symbols.now place)) }
    ensures begun { AppendsBeginning (symbol_text symbols.now place) (W.contents sink.old) (W.contents sink.new) }
    ensures fault { IfErr result (λ fault. fault ≡ WriteFault.Write) }
{
    match symbols.at(place) {
        Some(named) => write_named(&named, sink),
        None => Ok(()),
    }
}

/// Writes what [`write_symbol`] does, where symbols are given, and else nothing.
pub fn write_name<S: Allocator, W: Write>(
    symbols: Option<&Symbols<S>>,
    place: u64,
    sink: &mut W,
) -> Result<(), WriteFault>
    ensures text { OnOk result (Appends (W.contents sink.old) (W.contents sink.new)
        (name_text (option_map (λ file. file.now) symbols.entry) place)) }
    ensures begun { AppendsBeginning (name_text (option_map (λ file. file.now) symbols.entry) place)
        (W.contents sink.old) (W.contents sink.new) }
    ensures fault { IfErr result (λ fault. fault ≡ WriteFault.Write) }
{
    match symbols {
        Some(symbols) => write_symbol(symbols, place, sink),
        None => Ok(()),
    }
}
