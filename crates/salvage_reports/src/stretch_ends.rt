//! How the line of a stretch ends.

ghost use Rattle.std.specs.Prelude.{◌≡◌, IfErr, OnOk, Some, option_map};
ghost use Rattle.std.specs.Io.KnownBytes.{Appends};
ghost use Rattle.output.specs.Begun.{AppendsBeginning};
ghost use Rattle.salvage_reports.specs.StretchEnds.{behind_text, lead_text, named_text, range_text, stretch_end};

use listing::Place;
use output::{write_bytes, write_text};
use retire::{Event, WriteFault};
use std::fmt;
use std::io::Write;
use symbols::{Symbols, write_symbol};

/// A place of a stretch's line, and what comes before it.
#[derive(Clone, Copy)]
struct LedPlace {
    is_last: bool,
    place: u64,
}

impl fmt::Display for LedPlace {
    ghost output = { λ one. Some (lead_text one.is_last one.place) };

    fn fmt<W: fmt::Write>(&self, f: &mut fmt::Formatter<W>) -> fmt::Result {
        let at = Place(Some(self.place));
        if self.is_last {
            write!(f, " to {at}")
        } else {
            write!(f, ", {at}")
        }
    }
}

/// Writes a place and what the symbols name it, after what comes before it.
fn write_named<O: Write>(
    symbols: &Symbols,
    is_last: bool,
    place: u64,
    out: &mut O,
) -> Result<(), WriteFault>
    ensures fault { IfErr result (λ fault. fault ≡ WriteFault.Write) }
    ensures text { OnOk result (Appends (O.contents out.old) (O.contents out.new)
        (named_text symbols.now is_last place)) }
    ensures begun { AppendsBeginning (named_text symbols.now is_last place) (O.contents out.old) (O.contents out.new) }
{
    write_text(out, LedPlace { is_last, place })?;
    write_symbol(symbols, place, out)
}

/// Writes the first place of a stretch and the last, and what the symbols name them.
fn write_range<O: Write>(
    symbols: &Symbols,
    first: u64,
    last: u64,
    out: &mut O,
) -> Result<(), WriteFault>
    ensures fault { IfErr result (λ fault. fault ≡ WriteFault.Write) }
    ensures text { OnOk result (Appends (O.contents out.old) (O.contents out.new)
        (range_text symbols.now first last)) }
    ensures begun { AppendsBeginning (range_text symbols.now first last) (O.contents out.old) (O.contents out.new) }
{
    write_named(symbols, false, first, out)?;
    write_named(symbols, true, last, out)
}

/// Writes the places of these events that a stretch's line has, where symbols are handed in and there is an event.
fn write_places<O: Write>(
    symbols: Option<&Symbols>,
    events: &[Event],
    out: &mut O,
) -> Result<(), WriteFault>
    ensures fault { IfErr result (λ fault. fault ≡ WriteFault.Write) }
    ensures text { OnOk result (Appends (O.contents out.old) (O.contents out.new)
        (behind_text (option_map (λ file. file.now) symbols.entry) events.now)) }
    ensures begun { AppendsBeginning (behind_text (option_map (λ file. file.now) symbols.entry) events.now)
        (O.contents out.old) (O.contents out.new) }
{
    let Some(symbols) = symbols else {
        return Ok(());
    };
    if events.is_empty() {
        return Ok(());
    }
    write_range(
        symbols,
        events[0].place(),
        events[events.len() - 1].place(),
        out,
    )
}

/// Writes the end of a stretch's line, whose events these are: their first place and their last with their names, where
/// symbols are handed in, and the line's end.
pub(crate) fn write_stretch_end<O: Write>(
    symbols: Option<&Symbols>,
    events: &[Event],
    out: &mut O,
) -> Result<(), WriteFault>
    ensures fault { IfErr result (λ fault. fault ≡ WriteFault.Write) }
    ensures text { OnOk result (Appends (O.contents out.old) (O.contents out.new)
        (stretch_end (option_map (λ file. file.now) symbols.entry) events.now)) }
    ensures begun { AppendsBeginning (stretch_end (option_map (λ file. file.now) symbols.entry) events.now)
        (O.contents out.old) (O.contents out.new) }
{
    write_places(symbols, events, out)?;
    write_bytes(out, b"\n")?;
    Ok(())
}
