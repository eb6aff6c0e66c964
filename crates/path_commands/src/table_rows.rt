//! What is in the rows of the table of an audit.

ghost use Rattle.std.specs.Prelude.{◌≡◌, Some, option_map};
ghost use Rattle.path_commands.specs.AuditRows.{all_fields, by_field, came_field, counts_fields};
ghost use Rattle.path_commands.specs.AuditRows.{fate_field, headers_field, result_fields, sent_field};
ghost use Rattle.output.specs.Fields.{fields_line};
ghost use Rattle.path_commands.specs.Rows.{bytes_row, exchanged_row};

use crate::ending::verdict_text;
use crate::total::Total;
use auditing::{Exchanged, Finding};
use captures::Offset;
use command_inputs::Format;
use output::{Digits, Number};
use std::fmt;
use std::fmt::Display;

/// The field of a message's fate.
pub(crate) fn fate_field(finding: Finding) -> &'static str
    ensures { result.now ≡ fate_field finding }
{
    match finding {
        Finding::Stranger => "stranger",
        Finding::Changed => "changed",
        Finding::Repeat => "repeat",
        Finding::Late { .. } => "late",
        Finding::InOrder { .. } => "skips",
    }
}

/// By how much a message is late, or how many numbers it skips.
#[derive(Clone, Copy)]
pub(crate) struct ByField(pub(crate) Finding);

impl fmt::Display for ByField {
    ghost output = { λ by. Some (by_field by.0) };

    fn fmt<W: fmt::Write>(&self, f: &mut fmt::Formatter<W>) -> fmt::Result {
        match self.0 {
            Finding::Late { by } => by.fmt(f),
            Finding::InOrder { skips } => skips.fmt(f),
            Finding::Stranger | Finding::Changed | Finding::Repeat => f.write_str(""),
        }
    }
}

/// The payload that was sent, where another one came.
#[derive(Clone, Copy)]
pub(crate) struct SentPayload<'a> {
    pub(crate) finding: Finding,
    pub(crate) sent: Option<&'a [u8]>,
}

impl fmt::Display for SentPayload<'_> {
    ghost output = { λ field. Some (sent_field (option_map (λ payload. payload.now) field.sent) field.finding) };

    fn fmt<W: fmt::Write>(&self, f: &mut fmt::Formatter<W>) -> fmt::Result {
        match self.finding {
            Finding::Changed => match self.sent {
                Some(sent) => Digits(sent).fmt(f),
                None => f.write_str(""),
            },
            Finding::Stranger | Finding::Repeat | Finding::Late { .. } | Finding::InOrder { .. } =>
                { f.write_str("") }
        }
    }
}

/// The payload that came, where another one was sent.
#[derive(Clone, Copy)]
pub(crate) struct CamePayload<'a> {
    pub(crate) finding: Finding,
    pub(crate) came: &'a [u8],
}

impl fmt::Display for CamePayload<'_> {
    ghost output = { λ field. Some (came_field field.came.now field.finding) };

    fn fmt<W: fmt::Write>(&self, f: &mut fmt::Formatter<W>) -> fmt::Result {
        match self.finding {
            Finding::Changed => Digits(self.came).fmt(f),
            Finding::Stranger | Finding::Repeat | Finding::Late { .. } | Finding::InOrder { .. } =>
                { f.write_str("") }
        }
    }
}

/// The row of a run of bytes of no message.
#[derive(Clone, Copy)]
pub(crate) struct BytesRow {
    pub(crate) format: Format,
    pub(crate) offset: u64,
    pub(crate) count: u64,
}

impl fmt::Display for BytesRow {
    ghost output = { λ row. Some (bytes_row row.format row.offset row.count) };

    fn fmt<W: fmt::Write>(&self, f: &mut fmt::Formatter<W>) -> fmt::Result {
        let offset = self.offset;
        let count = self.count;
        match self.format {
            Format::Csv => write!(f, "bytes,,{offset},,,,,{count},,,,,,,,,,,,,,\n"),
            Format::Text | Format::Other => {
                let first = Offset(offset);
                write!(f, "bytes: {count} at {first}\n")
            }
        }
    }
}

/// The row of the hart whose most of a hart's messages are that are not true, if there is one.
#[derive(Clone, Copy)]
pub(crate) struct ExchangedRow {
    pub(crate) hart: usize,
    pub(crate) exchanged: Option<Exchanged>,
}

impl fmt::Display for ExchangedRow {
    ghost output = { λ row. Some (exchanged_row row.hart row.exchanged) };

    fn fmt<W: fmt::Write>(&self, f: &mut fmt::Formatter<W>) -> fmt::Result {
        let hart = self.hart;
        match self.exchanged {
            Some(its) => {
                let other = its.hart;
                let count = its.count;
                write!(f, "exchanged,,,{hart},{other},,,{count},,,,,,,,,,,,,,\n")
            }
            None => f.write_str(""),
        }
    }
}

/// The fields of what is counted of a hart, or of all of them together.
#[derive(Clone, Copy)]
pub(crate) struct CountsFields(pub(crate) Total);

impl fmt::Display for CountsFields {
    ghost output = { λ fields. Some (counts_fields fields.0) };

    fn fmt<W: fmt::Write>(&self, f: &mut fmt::Formatter<W>) -> fmt::Result {
        let sent = self.0.sent;
        let came = self.0.came;
        let lost = self.0.lost;
        let repeated = self.0.repeated;
        let late = self.0.late;
        let changed = self.0.changed;
        let strange = self.0.strange;
        write!(
            f,
            "{sent},{came},{lost},{repeated},{late},{changed},{strange}"
        )
    }
}

/// The row of all harts together.
#[derive(Clone, Copy)]
pub(crate) struct AllFields(pub(crate) Total);

impl fmt::Display for AllFields {
    ghost output = { λ fields. Some (fields_line (all_fields fields.0)) };

    fn fmt<W: fmt::Write>(&self, f: &mut fmt::Formatter<W>) -> fmt::Result {
        let counts = CountsFields(self.0);
        let verdict = verdict_text(self.0.whole);
        let missing = self.0.lost.saturating_sub(self.0.changed);
        write!(f, "all,,,,,,,,,,{counts},,,,{verdict},{missing}\n")
    }
}

/// The row of the result.
#[derive(Clone, Copy)]
pub(crate) struct ResultRow {
    /// How many messages RECEIVED has.
    pub(crate) messages: u64,
    /// The place of the first message that has a row, if there is one.
    pub(crate) first: Option<u64>,
    /// Whether headers differ.
    pub(crate) unlike: bool,
    /// How many bytes of RECEIVED are of no message.
    pub(crate) bytes: u64,
    /// How many strangers came.
    pub(crate) strangers: u64,
    /// How many runs they are in.
    pub(crate) runs: u64,
    /// Whether the result is whole.
    pub(crate) whole: bool,
}

impl fmt::Display for ResultRow {
    ghost output = { λ row. Some (fields_line (result_fields row.messages row.first row.unlike row.bytes row.strangers row.runs
        row.whole)) };

    fn fmt<W: fmt::Write>(&self, f: &mut fmt::Formatter<W>) -> fmt::Result {
        let messages = self.messages;
        let first = Number(self.first);
        let headers = headers_field(self.unlike);
        let bytes = self.bytes;
        let strangers = self.strangers;
        let runs = self.runs;
        let verdict = verdict_text(self.whole);
        write!(f, "result,{messages},,,{first},,{headers},{bytes},,,")?;
        write!(f, ",,,,,,{strangers},{runs},,,{verdict},\n")
    }
}

/// Whether headers differ.
fn headers_field(unlike: bool) -> &'static str
    ensures { result.now ≡ headers_field unlike }
{
    if unlike { "headers differ" } else { "" }
}
