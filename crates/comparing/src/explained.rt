//! What is said of a hart whose log was compared, with the rows about the first difference.

ghost use Rattle.std.specs.Prelude.{Some};
ghost use Rattle.comparing.specs.Explained.{event_text, row_start, row_text};

use crate::near::NearRows;
use bench::ComparedHart;
use retire::Event;
use std::fmt;
use std::fmt::Display;

/// The type of an exception's row, and that of an interrupt's.
const EXCEPTION: u8 = 1;

const INTERRUPT: u8 = 2;

/// What a comparison says of a hart, and where its log and what is decoded of it first differ.
#[derive(Clone, Copy)]
pub struct ExplainedHart {
    /// What its line says.
    pub line: ComparedHart,
    /// The first row in which both differ, counted from 1; where one of both has ended before that, the row after its
    /// last.
    pub row: usize,
    /// The rows about that one.
    pub near: NearRows,
}

/// The text of an event's row, as a log has it.
#[derive(Clone, Copy)]
struct EventText {
    event: Event,
}

impl fmt::Display for EventText {
    ghost output = { λ text. Some (event_text text.event) };

    fn fmt<W: fmt::Write>(&self, f: &mut fmt::Formatter<W>) -> fmt::Result {
        match self.event {
            Event::Retire {
                addr,
                itype,
                privilege,
            } => write!(f, "{addr:x},{itype:x},{privilege:x},,"),
            Event::Trap {
                privilege,
                interrupt,
                cause,
                epc,
                tval,
            } => {
                if interrupt {
                    write!(f, "{epc:x},{INTERRUPT:x},{privilege:x},{cause:x},")
                } else {
                    write!(f, "{epc:x},{EXCEPTION:x},{privilege:x},{cause:x},{tval:x}")
                }
            }
        }
    }
}

/// The text of a row, or that there is none.
#[derive(Clone, Copy)]
struct RowText {
    row: Option<Event>,
}

impl fmt::Display for RowText {
    ghost output = { λ text. Some (row_text text.row) };

    fn fmt<W: fmt::Write>(&self, f: &mut fmt::Formatter<W>) -> fmt::Result {
        match self.row {
            Some(event) => {
                let text = EventText { event };
                text.fmt(f)
            }
            None => f.write_str("end"),
        }
    }
}

/// The line of a row of a hart, up to what the row's place is named: what it is a row of, and its text.
#[derive(Clone, Copy)]
pub(crate) struct RowStart {
    pub(crate) hart: usize,
    pub(crate) row: usize,
    /// What it is a row of.
    pub(crate) kind: RowKind,
    pub(crate) event: Option<Event>,
}

/// What a row is one of.
#[derive(Clone, Copy)]
pub(crate) enum RowKind {
    /// The log and the decoded events.
    Both,
    /// The log.
    Log,
    /// The decoded events.
    Decoded,
}

impl fmt::Display for RowStart {
    ghost output = { λ start. Some (row_start start.hart start.row start.kind start.event) };

    fn fmt<W: fmt::Write>(&self, f: &mut fmt::Formatter<W>) -> fmt::Result {
        let RowStart {
            hart,
            row,
            kind,
            event,
        } = *self;
        let text = RowText { row: event };
        match kind {
            RowKind::Both => write!(f, "hart {hart}: row {row}: both {text}"),
            RowKind::Log => write!(f, "hart {hart}: row {row}: log {text}"),
            RowKind::Decoded => write!(f, "hart {hart}: row {row}: decoded {text}"),
        }
    }
}
