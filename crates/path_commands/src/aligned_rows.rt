//! What is in the rows of the table of an audit of messages that carry no numbers.

ghost use Rattle.std.specs.Prelude.{[], Some, codes};
ghost use Rattle.std.specs.Fmt.{decimal};
ghost use Rattle.output.specs.Fields.{fields_line};
ghost use Rattle.path_commands.specs.AlignedRows.{aligned_all_fields, arrival_fields};
ghost use Rattle.path_commands.specs.AuditRows.{message_fields};

use crate::ending::verdict_text;
use auditing::{AlignedTotal, Line};
use std::fmt;
use std::fmt::Display;

/// The row of a message in a table.
#[derive(Clone, Copy)]
pub(crate) struct ArrivalFields(pub(crate) Line);

impl fmt::Display for ArrivalFields {
    ghost output = { λ fields. Some (fields_line (arrival_fields fields.0)) };

    fn fmt<W: fmt::Write>(&self, f: &mut fmt::Formatter<W>) -> fmt::Result {
        match self.0 {
            Line::Stranger { place, hart } => {
                write!(f, "message,{place},,{hart},,,stranger,,,,,,,,,,,,,,,\n")
            }
            Line::Extra { place, hart } => {
                write!(f, "message,{place},,{hart},,,extra,,,,,,,,,,,,,,,\n")
            }
            Line::Skips {
                place,
                hart,
                number,
                skips,
            } => {
                let row = SkipsRow {
                    place,
                    hart,
                    number,
                    skips,
                };
                row.fmt(f)
            }
        }
    }
}

/// The row of a message that skips numbers.
#[derive(Clone, Copy)]
struct SkipsRow {
    place: u64,
    hart: u16,
    number: u64,
    skips: u64,
}

impl fmt::Display for SkipsRow {
    ghost output = { λ row. Some (fields_line (message_fields row.place row.hart (decimal row.number) (codes "skips")
        (decimal row.skips) [] [])) };

    fn fmt<W: fmt::Write>(&self, f: &mut fmt::Formatter<W>) -> fmt::Result {
        let place = self.place;
        let hart = self.hart;
        let number = self.number;
        let skips = self.skips;
        write!(f, "message,{place},,{hart},{number},,")?;
        write!(f, "skips,{skips},,,,,,,,,,,,,,\n")
    }
}

/// The row of all harts together.
#[derive(Clone, Copy)]
pub(crate) struct AlignedAllFields(pub(crate) AlignedTotal);

impl fmt::Display for AlignedAllFields {
    ghost output = { λ fields. Some (fields_line (aligned_all_fields fields.0)) };

    fn fmt<W: fmt::Write>(&self, f: &mut fmt::Formatter<W>) -> fmt::Result {
        let sent = self.0.sent;
        let came = self.0.came;
        let lost = self.0.lost;
        let extra = self.0.extra;
        let verdict = verdict_text(self.0.whole);
        write!(f, "all,,,,,,,,,,{sent},{came},{lost},")?;
        write!(f, ",,,{extra},,,,{verdict},\n")
    }
}
