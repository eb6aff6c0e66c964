//! What differs between lines of text and the rows of a table: what is written before the messages, for one that is
//! received, for one that is refused, and where there is no complete one.

ghost use Rattle.std.specs.Prelude.{◌≡◌, IfErr, OnOk};
ghost use Rattle.std.specs.Io.KnownBytes.{Appends};
ghost use Rattle.output.specs.Begun.{AppendsBeginning};
ghost use Rattle.payload.specs.Reading.{reading};
ghost use Rattle.listing.specs.Entries.{effect_entry, incomplete_entry, start_text};
ghost use Rattle.listing.specs.Listing.{names_in};
ghost use Rattle.listing.specs.steps.Message.{denies_memory, effect_of, fault_entry};

use crate::cells::{Columns, IncompleteRow};
use crate::form::Form;
use crate::input::ListInput;
use crate::lines::{write_effect_line, write_refused_line};
use crate::rows::{write_effect_row, write_refused_row};
use captures::{Offset, write_header_line};
use decoder::DecodeFault;
use message::{Header, Message};
use output::write_text;
use payload::Mode;
use receiver::ReceiveFault;
use retire::{Event, WriteFault};
use std::alloc::Allocator;
use std::io::Write;

/// Where a message is in a capture.
#[derive(Clone, Copy)]
pub(crate) struct At {
    /// How many messages come before it.
    pub(crate) number: u64,
    /// The offset of its first byte.
    pub(crate) offset: u64,
}

/// The events that a message adds to its hart's list, and how many that list has with them.
#[derive(Clone, Copy)]
pub(crate) struct Added<'a> {
    pub(crate) events: &'a [Event],
    pub(crate) rows: usize,
}

/// Writes what comes before the messages: the line of the header, if there is one, or the names of the columns.
pub(crate) fn write_start<W: Write>(
    form: Form,
    header: Option<Header>,
    sink: &mut W,
) -> Result<(), WriteFault>
    ensures text { OnOk result (Appends (W.contents sink.old) (W.contents sink.new) (start_text form header)) }
    ensures begun { AppendsBeginning (start_text form header) (W.contents sink.old) (W.contents sink.new) }
    ensures fault { IfErr result (λ fault. fault ≡ WriteFault.Write) }
{
    match form {
        Form::Lines { .. } => match header {
            Some(header) => write_header_line(sink, &header),
            None => Ok(()),
        },
        Form::Table => {
            write_text(sink, Columns)?;
            Ok(())
        }
    }
}

/// Writes the line or the row of a message that adds these events.
pub(crate) fn write_effect<S: Allocator, W: Write>(
    input: &ListInput<'_, S>,
    mode: Mode,
    at: At,
    message: &Message,
    added: Added<'_>,
    sink: &mut W,
) -> Result<(), WriteFault>
    ensures text { OnOk result (Appends (W.contents sink.old) (W.contents sink.new)
        (effect_entry input.now.form (names_in input.now) mode at.number at.offset message.now
        (effect_of added.entry.events.now added.entry.rows (reading message.now.payload)))) }
    ensures begun { AppendsBeginning (effect_entry input.now.form (names_in input.now) mode at.number at.offset
        message.now (effect_of added.entry.events.now added.entry.rows (reading message.now.payload)))
        (W.contents sink.old) (W.contents sink.new) }
    ensures fault { IfErr result (λ fault. fault ≡ WriteFault.Write) }
{
    match input.form {
        Form::Lines { .. } => write_effect_line(input, mode, at.offset, message, added, sink),
        Form::Table => write_effect_row(input.symbols, mode, at, message, added, sink),
    }
}

/// Whether a message is not received because an allocation failed.
fn denies_memory(why: ReceiveFault) -> bool
    ensures { result ≡ denies_memory why }
{
    matches!(why, ReceiveFault::Decode(DecodeFault::Memory))
}

/// Writes the line or the row of a message that is not received, for this reason. There is none where an allocation
/// failed.
pub(crate) fn write_fault<W: Write>(
    form: Form,
    mode: Mode,
    at: At,
    message: &Message,
    why: ReceiveFault,
    sink: &mut W,
) -> Result<(), WriteFault>
    ensures text { OnOk result (Appends (W.contents sink.old) (W.contents sink.new)
        (fault_entry form mode at message.now why)) }
    ensures begun { AppendsBeginning (fault_entry form mode at message.now why)
        (W.contents sink.old) (W.contents sink.new) }
    ensures fault { IfErr result (λ fault. fault ≡ WriteFault.Write) }
{
    if denies_memory(why) {
        return Ok(());
    }
    match form {
        Form::Lines { .. } => write_refused_line(mode, at.offset, message, sink),
        Form::Table => write_refused_row(mode, at, message, sink),
    }
}

/// Writes the line or the row of a place where there is no complete message.
pub(crate) fn write_incomplete<W: Write>(form: Form, at: At, sink: &mut W) -> Result<(), WriteFault>
    ensures text { OnOk result (Appends (W.contents sink.old) (W.contents sink.new)
        (incomplete_entry form at.number at.offset)) }
    ensures begun { AppendsBeginning (incomplete_entry form at.number at.offset)
        (W.contents sink.old) (W.contents sink.new) }
    ensures fault { IfErr result (λ fault. fault ≡ WriteFault.Write) }
{
    let At { number, offset } = at;
    match form {
        Form::Lines { .. } => {
            let offset = Offset(offset);
            write_text(sink, format_args!("{offset}\n"))?;
        }
        Form::Table => write_text(sink, IncompleteRow { at: number, offset })?,
    }
    Ok(())
}
