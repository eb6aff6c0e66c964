//! The rows of a table.

ghost use Rattle.std.specs.Prelude.{◌≡◌, IfErr, OnOk, option_map};
ghost use Rattle.std.specs.Io.KnownBytes.{Appends};
ghost use Rattle.output.specs.Begun.{AppendsBeginning};
ghost use Rattle.payload.specs.Reading.{reading};
ghost use Rattle.listing.specs.Rows.{effect_row, first_of, last_of, refused_row};
ghost use Rattle.listing.specs.steps.Message.{effect_of};

use crate::cells::{MessageCells, TailCells};
use crate::endings::{read_closes, read_waits};
use crate::entries::{Added, At};
use crate::names::write_names;
use crate::settled_rows::SettledRows;
use message::Message;
use output::write_text;
use payload::{Mode, unpack};
use retire::{Event, WriteFault};
use std::alloc::Allocator;
use std::io::Write;
use symbols::Symbols;

/// The place of the first of some events.
fn first_of(added: &[Event]) -> Option<u64>
    ensures { result ≡ first_of added.now }
{
    match added {
        [] => None,
        [first, ..] => Some(first.place()),
    }
}

/// The place of the last of some events.
fn last_of(added: &[Event]) -> Option<u64>
    ensures { result ≡ last_of added.now }
{
    match added {
        [] => None,
        [.., last] => Some(last.place()),
    }
}

/// Writes the row of a message that adds these events.
pub(crate) fn write_effect_row<S: Allocator, W: Write>(
    symbols: Option<&Symbols<S>>,
    mode: Mode,
    at: At,
    message: &Message,
    added: Added<'_>,
    sink: &mut W,
) -> Result<(), WriteFault>
    ensures text { OnOk result (Appends (W.contents sink.old) (W.contents sink.new)
        (effect_row (option_map (λ file. file.now) symbols.entry) mode at.number at.offset
        message.now (effect_of added.entry.events.now added.entry.rows (reading message.now.payload)))) }
    ensures begun { AppendsBeginning (effect_row (option_map (λ file. file.now) symbols.entry) mode at.number at.offset
        message.now (effect_of added.entry.events.now added.entry.rows (reading message.now.payload)))
        (W.contents sink.old) (W.contents sink.new) }
    ensures fault { IfErr result (λ fault. fault ≡ WriteFault.Write) }
{
    let unpacked = unpack(message.payload.bytes());
    let first = first_of(added.events);
    let last = last_of(added.events);
    let head = MessageCells {
        kind: "message",
        mode,
        at: at.number,
        offset: at.offset,
        message,
        read: &unpacked,
    };
    let tail = TailCells {
        waits: read_waits(&unpacked),
        closes: read_closes(&unpacked),
        settled: SettledRows {
            rows: added.rows,
            added: added.events.len(),
        },
        first,
        last,
    };
    write_text(sink, format_args!("{head}{tail}"))?;
    write_names(symbols, first, last, sink)?;
    Ok(())
}

/// Writes the row of a message that is refused.
pub(crate) fn write_refused_row<W: Write>(
    mode: Mode,
    at: At,
    message: &Message,
    sink: &mut W,
) -> Result<(), WriteFault>
    ensures text { OnOk result (Appends (W.contents sink.old) (W.contents sink.new)
        (refused_row mode at.number at.offset message.now)) }
    ensures begun { AppendsBeginning (refused_row mode at.number at.offset message.now)
        (W.contents sink.old) (W.contents sink.new) }
    ensures fault { IfErr result (λ fault. fault ≡ WriteFault.Write) }
{
    let unpacked = unpack(message.payload.bytes());
    let head = MessageCells {
        kind: "refused",
        mode,
        at: at.number,
        offset: at.offset,
        message,
        read: &unpacked,
    };
    write_text(sink, format_args!("{head},,,,,,,,,,,,,,\n"))?;
    Ok(())
}
