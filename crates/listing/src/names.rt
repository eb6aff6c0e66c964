//! The names of places, as fields.

ghost use Rattle.std.specs.Prelude.{◌≡◌, IfErr, OnOk, option_map};
ghost use Rattle.std.specs.Io.KnownBytes.{Appends};
ghost use Rattle.output.specs.Begun.{AppendsBeginning};
ghost use Rattle.symbols.specs.Naming.{naming};
ghost use Rattle.listing.specs.Cells.{names_end, naming_cells};
ghost use Rattle.listing.specs.Rows.{naming_at};

use crate::cells::Place;
use output::{write_field, write_text};
use retire::WriteFault;
use std::alloc::Allocator;
use std::io::Write;
use symbols::{Named, Symbols};

/// What a place is named, where there is one, by the symbols, where there are some.
fn naming_at<'a, S: Allocator>(
    symbols: Option<&'a Symbols<S>>,
    place: Option<u64>,
) -> Option<Named<'a>>
    ensures { option_map naming result ≡ naming_at (option_map (λ file. file.now) symbols.entry) place }
{
    match symbols {
        Some(symbols) => match place {
            Some(place) => symbols.at(place),
            None => None,
        },
        None => None,
    }
}

/// Writes the name of a place and its distance, with a comma between.
fn write_naming<W: Write>(named: Option<Named<'_>>, sink: &mut W) -> Result<(), WriteFault>
    ensures text { OnOk result (Appends (W.contents sink.old) (W.contents sink.new)
        (naming_cells (option_map naming named.entry))) }
    ensures begun { AppendsBeginning (naming_cells (option_map naming named.entry))
        (W.contents sink.old) (W.contents sink.new) }
    ensures fault { IfErr result (λ fault. fault ≡ WriteFault.Write) }
{
    match named {
        Some(named) => {
            write_field(sink, named.name)?;
            let distance = Place(Some(named.distance));
            write_text(sink, format_args!(",{distance}"))?;
        }
        None => write_text(sink, ",")?,
    }
    Ok(())
}

/// Writes the end of a row: the names of two places and their distances. A place has none where there is no place, no
/// symbols are handed in, or it is below all of them. A name may have any bytes, and has quotes where it calls for them.
///
/// The only fault is [`WriteFault::Write`], where the writer failed: what was written then is a prefix of the text. No
/// memory is taken.
pub fn write_names<S: Allocator, W: Write>(
    symbols: Option<&Symbols<S>>,
    first: Option<u64>,
    last: Option<u64>,
    sink: &mut W,
) -> Result<(), WriteFault>
    ensures text { OnOk result (Appends (W.contents sink.old) (W.contents sink.new)
        (names_end (option_map (λ file. file.now) symbols.entry) first last)) }
    ensures begun { AppendsBeginning (names_end (option_map (λ file. file.now) symbols.entry) first last)
        (W.contents sink.old) (W.contents sink.new) }
    ensures fault { IfErr result (λ fault. fault ≡ WriteFault.Write) }
{
    write_naming(naming_at(symbols, first), sink)?;
    write_text(sink, ",")?;
    write_naming(naming_at(symbols, last), sink)?;
    write_text(sink, "\n")?;
    Ok(())
}
