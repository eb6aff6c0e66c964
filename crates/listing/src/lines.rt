//! The lines of messages.

ghost use Rattle.std.specs.Prelude.{◌≡◌, IfErr, OnOk};
ghost use Rattle.std.specs.Io.KnownBytes.{Appends};
ghost use Rattle.output.specs.Begun.{AppendsBeginning};
ghost use Rattle.payload.specs.Reading.{reading};
ghost use Rattle.listing.specs.Lines.{effect_line, refused_line};
ghost use Rattle.listing.specs.Listing.{names_in};
ghost use Rattle.listing.specs.SettledRows.{shows_rows};
ghost use Rattle.listing.specs.steps.Message.{effect_of};

use crate::entries::Added;
use crate::input::ListInput;
use crate::message_text::{MessageText, PacketEnding};
use crate::places::write_added;
use crate::settled_rows::{SettledRows, ShownRows};
use message::Message;
use output::write_text;
use payload::{Mode, unpack};
use retire::WriteFault;
use std::alloc::Allocator;
use std::io::Write;

/// Writes the line of a message that adds these events.
pub(crate) fn write_effect_line<S: Allocator, W: Write>(
    input: &ListInput<'_, S>,
    mode: Mode,
    offset: u64,
    message: &Message,
    added: Added<'_>,
    sink: &mut W,
) -> Result<(), WriteFault>
    ensures text { OnOk result (Appends (W.contents sink.old) (W.contents sink.new)
        (effect_line (shows_rows input.now.form) (names_in input.now) mode offset message.now
        (effect_of added.entry.events.now added.entry.rows (reading message.now.payload)))) }
    ensures begun { AppendsBeginning (effect_line (shows_rows input.now.form) (names_in input.now) mode offset
        message.now (effect_of added.entry.events.now added.entry.rows (reading message.now.payload)))
        (W.contents sink.old) (W.contents sink.new) }
    ensures fault { IfErr result (λ fault. fault ≡ WriteFault.Write) }
{
    let unpacked = unpack(message.payload.bytes());
    let text = MessageText {
        mode,
        offset,
        message,
        read: &unpacked,
    };
    write_text(sink, format_args!("{text} => "))?;
    write_added(input.symbols, added.events, sink)?;
    let rows = ShownRows {
        form: input.form,
        settled: SettledRows {
            rows: added.rows,
            added: added.events.len(),
        },
    };
    let ending = PacketEnding(&unpacked);
    write_text(sink, format_args!("{rows}{ending}\n"))?;
    Ok(())
}

/// Writes the line of a message that is refused.
pub(crate) fn write_refused_line<W: Write>(
    mode: Mode,
    offset: u64,
    message: &Message,
    sink: &mut W,
) -> Result<(), WriteFault>
    ensures text { OnOk result (Appends (W.contents sink.old) (W.contents sink.new)
        (refused_line mode offset message.now)) }
    ensures begun { AppendsBeginning (refused_line mode offset message.now)
        (W.contents sink.old) (W.contents sink.new) }
    ensures fault { IfErr result (λ fault. fault ≡ WriteFault.Write) }
{
    let unpacked = unpack(message.payload.bytes());
    let text = MessageText {
        mode,
        offset,
        message,
        read: &unpacked,
    };
    write_text(sink, format_args!("{text}\n"))?;
    Ok(())
}
