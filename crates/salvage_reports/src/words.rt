//! The word for what salvaging does with a message.

ghost use Rattle.std.specs.Prelude.{◌≡◌, IfErr, OnOk, option_map};
ghost use Rattle.std.specs.Io.KnownBytes.{Appends};
ghost use Rattle.output.specs.Begun.{AppendsBeginning};
ghost use Rattle.listing.specs.SettledRows.{shows_rows};
ghost use Rattle.salvage_reports.specs.Words.{far_text, late_text, taken_text, word_text};

use crate::hart_rows::TreatedInRows;
use listing::{Form, PacketEnding, SettledRows, ShownRows, write_places};
use output::{write_bytes, write_text};
use payload::{PackFault, Packet};
use retire::WriteFault;
use salvaging::{Added, Treatment};
use std::alloc::Allocator;
use std::io::Write;
use symbols::Symbols;

/// What follows the word of a message that is far.
pub(crate) fn far_text(far: bool) -> &'static str
    ensures { result.now ≡ far_text far }
{
    if far { ", far" } else { "" }
}

/// What follows the word of a message that is late.
pub(crate) fn late_text(late: bool) -> &'static str
    ensures { result.now ≡ late_text late }
{
    if late { ", late" } else { "" }
}

/// Writes what a message does that is taken, whose payload unpacks to this.
fn write_taken<S: Allocator, W: Write>(
    form: Form,
    symbols: Option<&Symbols<S>>,
    read: &Result<Packet, PackFault>,
    rows: usize,
    added: &Added,
    sink: &mut W,
) -> Result<(), WriteFault>
    ensures text { OnOk result (Appends (W.contents sink.old) (W.contents sink.new)
        (taken_text (shows_rows form) (option_map (λ file. file.now) symbols.entry) read.now rows added.now)) }
    ensures begun { AppendsBeginning
        (taken_text (shows_rows form) (option_map (λ file. file.now) symbols.entry) read.now rows added.now)
        (W.contents sink.old) (W.contents sink.new) }
    ensures fault { IfErr result (λ fault. fault ≡ WriteFault.Write) }
{
    write_places(symbols, added.count, added.first, added.last, sink)?;
    let settled = SettledRows {
        rows,
        added: added.count,
    };
    let rows = ShownRows { form, settled };
    let ending = PacketEnding(read);
    write_text(sink, format_args!("{rows}{ending}"))?;
    Ok(())
}

/// Writes the word for what is done with a message whose payload unpacks to this, and which rows it settles, where lines
/// of this form say so.
pub(crate) fn write_word<S: Allocator, W: Write>(
    form: Form,
    symbols: Option<&Symbols<S>>,
    read: &Result<Packet, PackFault>,
    one: &TreatedInRows,
    sink: &mut W,
) -> Result<(), WriteFault>
    ensures text { OnOk result (Appends (W.contents sink.old) (W.contents sink.new)
        (word_text (shows_rows form) (option_map (λ file. file.now) symbols.entry) read.now one.now.rows
        one.now.treated.treatment)) }
    ensures begun { AppendsBeginning (word_text (shows_rows form) (option_map (λ file. file.now) symbols.entry) read.now
        one.now.rows one.now.treated.treatment) (W.contents sink.old) (W.contents sink.new) }
    ensures fault { IfErr result (λ fault. fault ≡ WriteFault.Write) }
{
    match &one.treated.treatment {
        Treatment::Stranger => write_bytes(sink, b"stranger")?,
        Treatment::Copy => write_bytes(sink, b"copy")?,
        Treatment::Doubtful => write_bytes(sink, b"doubtful")?,
        Treatment::Bad(why) => write_text(sink, format_args!("bad: {why}"))?,
        Treatment::Alone => write_bytes(sink, b"alone")?,
        Treatment::Passed => write_bytes(sink, b"passed")?,
        Treatment::Taken(added) => return write_taken(form, symbols, read, one.rows, added, sink),
    }
    Ok(())
}
