//! The places of events, and their names.

ghost use Rattle.std.specs.Prelude.{◌≡◌, ℕ, List, Option, IfErr, OnOk, length, option_map};
ghost use Rattle.std.specs.Io.KnownBytes.{Appends};
ghost use Rattle.output.specs.Begun.{AppendsBeginning};
ghost use Rattle.listing.specs.EffectText.{added_text, place_text, places_text};

use crate::cells::Place;
use output::{write_bytes, write_text};
use retire::{Event, WriteFault};
use std::alloc::Allocator;
use std::io::Write;
use symbols::{Symbols, write_name};

/// Writes a place in hexadecimal, and what the symbols name it.
fn write_place<S: Allocator, W: Write>(
    symbols: Option<&Symbols<S>>,
    place: u64,
    sink: &mut W,
) -> Result<(), WriteFault>
    ensures text { OnOk result (Appends (W.contents sink.old) (W.contents sink.new)
        (place_text (option_map (λ file. file.now) symbols.entry) place)) }
    ensures begun { AppendsBeginning (place_text (option_map (λ file. file.now) symbols.entry) place)
        (W.contents sink.old) (W.contents sink.new) }
    ensures fault { IfErr result (λ fault. fault ≡ WriteFault.Write) }
{
    write_text(sink, Place(Some(place)))?;
    write_name(symbols, place, sink)
}

/// Writes how many events there are, and the places of the first and of the last of them: `nothing`, or `1 event, A`, or
/// `N events, A to Z`. A place is in hexadecimal, and its name by the symbols follows, where symbols are handed in. With
/// no event `first` and `last` say nothing, and with one `last` does not.
///
/// The only fault is [`WriteFault::Write`], where the writer failed: what was written then is a prefix of the text. No
/// memory is taken.
pub fn write_places<S: Allocator, W: Write>(
    symbols: Option<&Symbols<S>>,
    count: usize,
    first: u64,
    last: u64,
    sink: &mut W,
) -> Result<(), WriteFault>
    ensures text { OnOk result (Appends (W.contents sink.old) (W.contents sink.new)
        (places_text (option_map (λ file. file.now) symbols.entry) count first last)) }
    ensures begun { AppendsBeginning (places_text (option_map (λ file. file.now) symbols.entry) count first last)
        (W.contents sink.old) (W.contents sink.new) }
    ensures fault { IfErr result (λ fault. fault ≡ WriteFault.Write) }
{
    if count == 0 {
        write_bytes(sink, b"nothing")?;
        return Ok(());
    }
    if count == 1 {
        write_bytes(sink, b"1 event, ")?;
        return write_place(symbols, first, sink);
    }
    write_text(sink, format_args!("{count} events, "))?;
    write_place(symbols, first, sink)?;
    write_bytes(sink, b" to ")?;
    write_place(symbols, last, sink)
}

/// The places of the first and of the last of these events; 0 where there is none.
fn ends(added: &[Event]) -> (u64, u64)
    ensures { (symbols : Option (List ℕ))
        → places_text symbols (length added.now) result.0 result.1 ≡ added_text symbols added.now }
{
    match added {
        [] => (0, 0),
        [event] => (event.place(), event.place()),
        [first, .., last] => (first.place(), last.place()),
    }
}

/// Writes how many events there are, and the places of the first and of the last of them.
pub(crate) fn write_added<S: Allocator, W: Write>(
    symbols: Option<&Symbols<S>>,
    added: &[Event],
    sink: &mut W,
) -> Result<(), WriteFault>
    ensures text { OnOk result (Appends (W.contents sink.old) (W.contents sink.new)
        (added_text (option_map (λ file. file.now) symbols.entry) added.now)) }
    ensures begun { AppendsBeginning (added_text (option_map (λ file. file.now) symbols.entry) added.now)
        (W.contents sink.old) (W.contents sink.new) }
    ensures fault { IfErr result (λ fault. fault ≡ WriteFault.Write) }
{
    let (first, last) = ends(added);
    write_places(symbols, added.len(), first, last, sink)
}
