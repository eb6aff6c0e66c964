//! The line and the row of a message, and of bytes that belong to no frame.

ghost use Rattle.std.specs.Prelude.{◌≡◌, IfErr, OnOk, Some, option_map};
ghost use Rattle.std.specs.Io.KnownBytes.{Appends};
ghost use Rattle.output.specs.Begun.{AppendsBeginning};
ghost use Rattle.output.specs.Fields.{fields_line};
ghost use Rattle.listing.specs.SettledRows.{shows_rows};
ghost use Rattle.salvage_reports.specs.Lines.{treated_line};
ghost use Rattle.salvage_reports.specs.TreatedRows.{columns, run_row, treated_row};
ghost use Rattle.salvage_reports.specs.TreatedText.{message_text, run_text};

use crate::fields::{DoneCells, first_place, last_place};
use crate::hart_rows::TreatedInRows;
use crate::words::{far_text, late_text, write_word};
use captures::Offset;
use listing::{Form, MessageCells, MessageText, write_names};
use message::Message;
use output::write_text;
use payload::{Mode, unpack};
use retire::WriteFault;
use std::alloc::Allocator;
use std::fmt;
use std::io::Write;
use symbols::Symbols;

/// A message of a damaged capture, and what is done with it.
#[derive(Clone, Copy)]
pub(crate) struct TreatedMessage<'a> {
    /// The mode by which its address field is an address or a difference.
    pub(crate) mode: Mode,
    /// How many messages come before it.
    pub(crate) at: u64,
    /// The offset of its first byte in the capture.
    pub(crate) offset: u64,
    /// The message.
    pub(crate) message: &'a Message,
    /// What is done with it, and which rows it settles.
    pub(crate) treated: &'a TreatedInRows,
}

/// Writes the line or the row of a message.
pub(crate) fn write_message<S: Allocator, W: Write>(
    form: Form,
    symbols: Option<&Symbols<S>>,
    one: TreatedMessage<'_>,
    sink: &mut W,
) -> Result<(), WriteFault>
    ensures text { OnOk result (Appends (W.contents sink.old) (W.contents sink.new)
        (message_text form (option_map (λ file. file.now) symbols.entry) one.entry.mode one.entry.at one.entry.offset one.entry.message.now
        one.entry.treated.now)) }
    ensures begun { AppendsBeginning
        (message_text form (option_map (λ file. file.now) symbols.entry) one.entry.mode one.entry.at one.entry.offset one.entry.message.now
        one.entry.treated.now) (W.contents sink.old) (W.contents sink.new) }
    ensures fault { IfErr result (λ fault. fault ≡ WriteFault.Write) }
{
    match form {
        Form::Lines { .. } => write_line(form, symbols, one, sink),
        Form::Table => write_row(symbols, one, sink),
    }
}

/// Writes the line of a message.
fn write_line<S: Allocator, W: Write>(
    form: Form,
    symbols: Option<&Symbols<S>>,
    one: TreatedMessage<'_>,
    sink: &mut W,
) -> Result<(), WriteFault>
    ensures text { OnOk result (Appends (W.contents sink.old) (W.contents sink.new)
        (treated_line (shows_rows form) (option_map (λ file. file.now) symbols.entry) one.entry.mode one.entry.offset one.entry.message.now
        one.entry.treated.now)) }
    ensures begun { AppendsBeginning
        (treated_line (shows_rows form) (option_map (λ file. file.now) symbols.entry) one.entry.mode one.entry.offset one.entry.message.now
        one.entry.treated.now) (W.contents sink.old) (W.contents sink.new) }
    ensures fault { IfErr result (λ fault. fault ≡ WriteFault.Write) }
{
    let unpacked = unpack(one.message.payload.bytes());
    let text = MessageText {
        mode: one.mode,
        offset: one.offset,
        message: one.message,
        read: &unpacked,
    };
    write_text(sink, format_args!("{text} => "))?;
    write_word(form, symbols, &unpacked, one.treated, sink)?;
    let far = far_text(one.treated.treated.far);
    let late = late_text(one.treated.treated.late);
    write_text(sink, format_args!("{far}{late}\n"))?;
    Ok(())
}

/// Writes the row of a message.
fn write_row<S: Allocator, W: Write>(
    symbols: Option<&Symbols<S>>,
    one: TreatedMessage<'_>,
    sink: &mut W,
) -> Result<(), WriteFault>
    ensures text { OnOk result (Appends (W.contents sink.old) (W.contents sink.new)
        (treated_row (option_map (λ file. file.now) symbols.entry) one.entry.mode one.entry.at one.entry.offset one.entry.message.now
        one.entry.treated.now)) }
    ensures begun { AppendsBeginning
        (treated_row (option_map (λ file. file.now) symbols.entry) one.entry.mode one.entry.at one.entry.offset one.entry.message.now
        one.entry.treated.now) (W.contents sink.old) (W.contents sink.new) }
    ensures fault { IfErr result (λ fault. fault ≡ WriteFault.Write) }
{
    let unpacked = unpack(one.message.payload.bytes());
    let first = first_place(&one.treated.treated.treatment);
    let last = last_place(&one.treated.treated.treatment);
    let head = MessageCells {
        kind: "message",
        mode: one.mode,
        at: one.at,
        offset: one.offset,
        message: one.message,
        read: &unpacked,
    };
    let done = DoneCells {
        read: &unpacked,
        one: one.treated,
    };
    write_text(sink, format_args!("{head}{done}"))?;
    write_names(symbols, first, last, sink)?;
    Ok(())
}

/// The line of the names of the columns.
#[derive(Clone, Copy)]
pub(crate) struct TreatedColumns;

impl fmt::Display for TreatedColumns {
    ghost output = { λ names. Some (fields_line columns) };

    fn fmt<W: fmt::Write>(&self, f: &mut fmt::Formatter<W>) -> fmt::Result {
        f.write_str(
            "kind,place,offset,hart,number,packet,addr,diff,priv,branch,trap,cause,tval,handler,epc,map,report,mode,\
            ended,bad,waits,closed,treatment,reason,far,late,bytes,added,first_row,last_row,first,last,first_symbol,\
            first_distance,last_symbol,last_distance\n",
        )
    }
}

/// The row of bytes that belong to no frame.
#[derive(Clone, Copy)]
struct RunRow {
    /// The offset of the first.
    offset: u64,
    /// How many there are.
    count: u64,
}

impl fmt::Display for RunRow {
    ghost output = { λ row. Some (run_row row.offset row.count) };

    fn fmt<W: fmt::Write>(&self, f: &mut fmt::Formatter<W>) -> fmt::Result {
        let offset = Offset(self.offset);
        let count = self.count;
        write!(
            f,
            "bytes,,{offset},,,,,,,,,,,,,,,,,,,,,,,,{count},,,,,,,,,\n"
        )
    }
}

/// Writes the line or the row of bytes that belong to no frame.
pub(crate) fn write_run<W: Write>(
    form: Form,
    offset: u64,
    count: u64,
    sink: &mut W,
) -> Result<(), WriteFault>
    ensures text { OnOk result (Appends (W.contents sink.old) (W.contents sink.new) (run_text form offset count)) }
    ensures begun { AppendsBeginning (run_text form offset count) (W.contents sink.old) (W.contents sink.new) }
    ensures fault { IfErr result (λ fault. fault ≡ WriteFault.Write) }
{
    let first = Offset(offset);
    match form {
        Form::Lines { .. } => write_text(sink, format_args!("{first} bytes: {count}\n"))?,
        Form::Table => write_text(sink, RunRow { offset, count })?,
    }
    Ok(())
}
