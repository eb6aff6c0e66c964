//! The text of the lines of a live audit.

ghost use Rattle.std.specs.Prelude.{⊤};

use crate::live_rows::TooLateRow;
use crate::noting::Noted;
use crate::received::Progress;
use crate::report::Report;
use crate::rows::{LostRow, MessageRow};
use crate::table_rows::BytesRow;
use auditing::{Finding, Lost};
use live::{Arrived, LiveLines, LiveRows, SentMessage};
use output::write_text;
use std::alloc::{AllocError, Global};
use std::fmt::Display;

/// The text of the lines of a live audit that are decided and not written yet, and what all of them say.
#[derive(Drop)]
pub(crate) struct LinesText {
    /// What is reported.
    pub(crate) report: Report,
    /// What is counted of each hart.
    pub(crate) rows: LiveRows,
    /// What is noted of the messages of the harts that are asked for.
    pub(crate) noted: Noted,
    /// How far RECEIVED is read.
    pub(crate) read: Progress,
    /// The text.
    pub(crate) text: Vec<u8>,
    /// Whether an allocation failed. Lines are missing then.
    pub(crate) failed: bool,
}

impl LinesText {
    /// No line yet, where so many harts are known.
    pub(crate) fn new(alloc: Global, report: Report, harts: u16) -> Result<LinesText, AllocError> {
        Ok(LinesText {
            report,
            rows: LiveRows::new(alloc, harts)?,
            noted: Noted::NONE,
            read: Progress::START,
            text: Vec::new(alloc),
            failed: false,
        })
    }

    /// A run of so many bytes of no message is passed, the first of them at this offset.
    pub(crate) fn pass_bytes(&mut self, offset: u64, count: u64) {
        self.read = self.read.with_bytes(count);
        let row = BytesRow {
            format: self.report.format,
            offset,
            count,
        };
        self.append(row);
    }

    /// Appends a row, but none in a summary.
    fn append<D: Display + Drop>(&mut self, row: D) {
        if self.failed || self.report.summary {
            return;
        }
        match write_text(&mut self.text, row) {
            Ok(()) => {}
            Err(_) => self.failed = true,
        }
    }
}

impl LiveLines for LinesText {
    ghost Told = { λ _ _ _. ⊤ };

    fn decided(&mut self, one: &Arrived, finding: Finding, sent: Option<&[u8]>) {
        self.rows.decided(one, finding, sent);
        if !self.report.harts.selects(one.message.hart) {
            return;
        }
        self.noted = self.noted.with(one.place, finding);
        if finding.is_plain() {
            return;
        }
        let row = MessageRow {
            format: self.report.format,
            place: one.place,
            hart: one.message.hart,
            number: one.message.number,
            finding,
            sent,
            came: one.message.payload.bytes(),
        };
        self.append(row);
    }

    fn too_late(&mut self, one: &Arrived) {
        self.rows.too_late(one);
        if !self.report.harts.selects(one.message.hart) {
            return;
        }
        self.noted = self.noted.with_place(one.place);
        let row = TooLateRow {
            place: one.place,
            hart: one.message.hart,
            number: one.message.number,
        };
        self.append(row);
    }

    fn given_up(&mut self, slot: &SentMessage) {
        self.rows.given_up(slot);
    }

    fn missing(&mut self, hart: u16, lost: Lost) {
        self.rows.missing(hart, lost);
        if !self.report.harts.selects(hart) {
            return;
        }
        let row = LostRow {
            format: self.report.format,
            hart: usize::from(hart),
            run: lost,
        };
        self.append(row);
    }

    ghost nothing = { λ _. tt };

    ghost joined = { λ _ _ _ _ _ _ _. tt };
}
