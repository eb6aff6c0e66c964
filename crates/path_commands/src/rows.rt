//! The rows of an audit by the numbers, each of them as text or as CSV.

ghost use Rattle.std.specs.Prelude.{◌≡◌, Some, option_map};
ghost use Rattle.path_commands.specs.AuditText.{row_total};
ghost use Rattle.path_commands.specs.Rows.{ending_row, front_row, hart_row, message_row, run_row};

use crate::ending::{Ending, EndingLines, verdict_text};
use crate::lines::{CountsText, ExchangedLine, FindingText, LateLine, RunsLine};
use crate::table_rows::{
    AllFields, ByField, CamePayload, CountsFields, ExchangedRow, ResultRow, SentPayload, fate_field,
};
use crate::total::Total;
use auditing::{Finding, HartRow, Lost};
use command_inputs::Format;
use std::fmt;
use std::fmt::Display;

/// What precedes all rows: in a table, the names of its columns.
#[derive(Clone, Copy)]
pub(crate) struct FrontRow(pub(crate) Format);

impl fmt::Display for FrontRow {
    ghost output = { λ row. Some (front_row row.0) };

    fn fmt<W: fmt::Write>(&self, f: &mut fmt::Formatter<W>) -> fmt::Result {
        match self.0 {
            Format::Csv => f.write_str(
                "kind,place,offset,hart,number,last,fate,by,sent_payload,came_payload,sent,came,lost,repeated,late,\
                changed,strange,runs,longest_run,most_late,verdict,missing\n",
            ),
            Format::Text | Format::Other => f.write_str(""),
        }
    }
}

/// The row of a message, where SENT has the first payload and the second came.
#[derive(Clone, Copy)]
pub(crate) struct MessageRow<'a> {
    pub(crate) format: Format,
    pub(crate) place: u64,
    pub(crate) hart: u16,
    pub(crate) number: u64,
    pub(crate) finding: Finding,
    pub(crate) sent: Option<&'a [u8]>,
    pub(crate) came: &'a [u8],
}

impl fmt::Display for MessageRow<'_> {
    ghost output = { λ row. Some (message_row row.format row.place row.hart row.number row.finding
        (option_map (λ payload. payload.now) row.sent) row.came.now) };

    fn fmt<W: fmt::Write>(&self, f: &mut fmt::Formatter<W>) -> fmt::Result {
        let place = self.place;
        let hart = self.hart;
        let number = self.number;
        let finding = self.finding;
        match self.format {
            Format::Csv => {
                let fate = fate_field(finding);
                let by = ByField(finding);
                let sent = SentPayload {
                    finding,
                    sent: self.sent,
                };
                let came = CamePayload {
                    finding,
                    came: self.came,
                };
                write!(f, "message,{place},,{hart},{number},,{fate},")?;
                write!(f, "{by},{sent},{came},,,,,,,,,,,,\n")
            }
            Format::Text | Format::Other => {
                let text = FindingText {
                    finding,
                    sent: self.sent,
                    came: self.came,
                };
                write!(f, "message {place}: hart {hart} number {number}: {text}\n")
            }
        }
    }
}

/// The row of a run of numbers of a hart that were lost.
#[derive(Clone, Copy)]
pub(crate) struct LostRow {
    pub(crate) format: Format,
    pub(crate) hart: usize,
    pub(crate) run: Lost,
}

impl fmt::Display for LostRow {
    ghost output = { λ row. Some (run_row row.format row.hart row.run) };

    fn fmt<W: fmt::Write>(&self, f: &mut fmt::Formatter<W>) -> fmt::Result {
        let hart = self.hart;
        let first = self.run.first;
        let last = self.run.last;
        match self.format {
            Format::Csv => write!(f, "run,,,{hart},{first},{last},,,,,,,,,,,,,,,,\n"),
            Format::Text | Format::Other => {
                if first == last {
                    write!(f, "hart {hart}: number {first} lost\n")
                } else {
                    write!(f, "hart {hart}: numbers {first} to {last} lost\n")
                }
            }
        }
    }
}

/// What is counted of a hart.
#[derive(Clone, Copy)]
pub(crate) struct CountsRow {
    pub(crate) format: Format,
    pub(crate) hart: usize,
    pub(crate) row: HartRow,
    /// How many of its messages were too late, in a live audit.
    pub(crate) too_late: Option<u64>,
}

impl fmt::Display for CountsRow {
    ghost output = { λ own. Some (hart_row own.format own.hart own.row own.too_late) };

    fn fmt<W: fmt::Write>(&self, f: &mut fmt::Formatter<W>) -> fmt::Result {
        let hart = self.hart;
        let runs = self.row.runs;
        let longest = self.row.longest;
        let latest = self.row.latest;
        let exchanged = self.row.exchanged;
        let total = row_total(self.row, self.too_late);
        match self.format {
            Format::Csv => {
                let counts = CountsFields(total);
                let verdict = verdict_text(self.row.tally.whole);
                let missing = self.row.tally.lost.saturating_sub(self.row.tally.changed);
                let other = ExchangedRow { hart, exchanged };
                write!(
                    f,
                    "hart,,,{hart},,,,,,,{counts},{runs},{longest},{latest},{verdict},{missing}\n{other}"
                )
            }
            Format::Text | Format::Other => {
                let counts = CountsText(total);
                let lost = RunsLine {
                    hart,
                    runs,
                    longest,
                };
                let late = LateLine { hart, latest };
                let other = ExchangedLine { hart, exchanged };
                write!(f, "hart {hart}: {counts}{lost}{late}{other}")
            }
        }
    }
}

/// The last rows.
#[derive(Clone, Copy)]
pub(crate) struct EndingRow {
    pub(crate) format: Format,
    pub(crate) ending: Ending,
}

impl fmt::Display for EndingRow {
    ghost output = { λ row. Some (ending_row row.format row.ending) };

    fn fmt<W: fmt::Write>(&self, f: &mut fmt::Formatter<W>) -> fmt::Result {
        match self.format {
            Format::Csv => {
                let all = AllFields(self.ending.total);
                let last = ResultRow {
                    messages: self.ending.messages,
                    first: self.ending.first,
                    unlike: self.ending.unlike,
                    bytes: self.ending.bytes,
                    strangers: self.ending.strangers,
                    runs: self.ending.runs,
                    whole: self.ending.whole,
                };
                write!(f, "{all}{last}")
            }
            Format::Text | Format::Other => {
                let lines = EndingLines(self.ending);
                lines.fmt(f)
            }
        }
    }
}

/// What one row counts, where so many messages were too late in a live audit.
fn row_total(row: HartRow, too_late: Option<u64>) -> Total
    ensures { result ≡ row_total row too_late }
{
    match too_late {
        Some(count) => Total::of(row).with_too_late(count),
        None => Total::of(row),
    }
}
