//! The rows of an audit by the payloads alone, each of them as text or as CSV.

ghost use Rattle.std.specs.Prelude.{Some};
ghost use Rattle.path_commands.specs.MatchedRows.{arrival_row, counts_row, total_row};

use crate::aligned_rows::{AlignedAllFields, ArrivalFields};
use crate::ending::{Closing, DamageLine, StrangersLine, verdict_text};
use crate::lines::RunsLine;
use crate::matched_lines::{AlignedAll, AlignedRow, ArrivalText, MoreLine};
use crate::table_rows::ResultRow;
use auditing::{AlignedTotal, HartCounts, Line};
use command_inputs::Format;
use std::fmt;
use std::fmt::Display;

/// The row of a message.
#[derive(Clone, Copy)]
pub(crate) struct ArrivalRow {
    pub(crate) format: Format,
    pub(crate) line: Line,
}

impl fmt::Display for ArrivalRow {
    ghost output = { λ row. Some (arrival_row row.format row.line) };

    fn fmt<W: fmt::Write>(&self, f: &mut fmt::Formatter<W>) -> fmt::Result {
        match self.format {
            Format::Csv => {
                let fields = ArrivalFields(self.line);
                fields.fmt(f)
            }
            Format::Text | Format::Other => {
                let text = ArrivalText(self.line);
                text.fmt(f)
            }
        }
    }
}

/// What is counted of a hart, and the runs of its lost numbers.
#[derive(Clone, Copy)]
pub(crate) struct MatchedRow {
    pub(crate) format: Format,
    pub(crate) hart: usize,
    pub(crate) counts: HartCounts,
    pub(crate) runs: u64,
    pub(crate) longest: u64,
}

impl fmt::Display for MatchedRow {
    ghost output = { λ row. Some (counts_row row.format row.hart row.counts row.runs row.longest) };

    fn fmt<W: fmt::Write>(&self, f: &mut fmt::Formatter<W>) -> fmt::Result {
        let hart = self.hart;
        let counts = self.counts;
        let runs = self.runs;
        let longest = self.longest;
        match self.format {
            Format::Csv => {
                let sent = counts.sent;
                let came = counts.came;
                let lost = counts.lost;
                let extra = counts.extra;
                let verdict = verdict_text(counts.whole);
                write!(f, "hart,,,{hart},,,,,,,{sent},{came},{lost},")?;
                write!(f, ",,,{extra},{runs},{longest},,{verdict},\n")
            }
            Format::Text | Format::Other => {
                let row = AlignedRow { hart, counts };
                let lost = RunsLine {
                    hart,
                    runs,
                    longest,
                };
                let more = MoreLine { hart, counts };
                write!(f, "{row}{lost}{more}")
            }
        }
    }
}

/// What is found of all messages together.
#[derive(Clone, Copy)]
pub(crate) struct MatchedTotal {
    /// How many harts are asked for.
    pub(crate) harts: usize,
    /// What is counted of all of them together.
    pub(crate) total: AlignedTotal,
    /// How many messages RECEIVED has.
    pub(crate) messages: u64,
    /// How many strangers came.
    pub(crate) strangers: u64,
    /// How many bytes of RECEIVED are of no message.
    pub(crate) bytes: u64,
    /// How many runs they are in.
    pub(crate) runs: u64,
    /// Whether headers differ.
    pub(crate) unlike: bool,
    /// The place of the first message that has a row, if there is one.
    pub(crate) first: Option<u64>,
    /// Whether the result is whole.
    pub(crate) whole: bool,
}

/// The last rows.
#[derive(Clone, Copy)]
pub(crate) struct TotalRow {
    pub(crate) format: Format,
    pub(crate) its: MatchedTotal,
}

impl fmt::Display for TotalRow {
    ghost output = { λ row. Some (total_row row.format row.its) };

    fn fmt<W: fmt::Write>(&self, f: &mut fmt::Formatter<W>) -> fmt::Result {
        let strangers = self.its.strangers;
        let bytes = self.its.bytes;
        let runs = self.its.runs;
        let unlike = self.its.unlike;
        let first = self.its.first;
        let whole = self.its.whole;
        match self.format {
            Format::Csv => {
                let all = AlignedAllFields(self.its.total);
                let last = ResultRow {
                    messages: self.its.messages,
                    first,
                    unlike,
                    bytes,
                    strangers,
                    runs,
                    whole,
                };
                write!(f, "{all}{last}")
            }
            Format::Text | Format::Other => {
                let all = AlignedAll {
                    harts: self.its.harts,
                    total: self.its.total,
                };
                let others = StrangersLine { strangers };
                let damage = DamageLine { bytes, runs };
                let closing = Closing {
                    unlike,
                    first,
                    whole,
                };
                write!(f, "{all}{others}{damage}{closing}")
            }
        }
    }
}
