//! What is in the lines of messages and of harts.

ghost use Rattle.std.specs.Prelude.{Some, option_map};
ghost use Rattle.path_commands.specs.AuditText.{counts_text, exchanged_line, finding_text, late_line, runs_line};
ghost use Rattle.path_commands.specs.AuditText.{too_late_text};

use crate::ending::verdict_text;
use crate::total::Total;
use auditing::{Exchanged, Finding};
use output::Digits;
use std::fmt;

/// What is found of a message, where SENT has the first payload and the second came.
#[derive(Clone, Copy)]
pub(crate) struct FindingText<'a> {
    pub(crate) finding: Finding,
    pub(crate) sent: Option<&'a [u8]>,
    pub(crate) came: &'a [u8],
}

impl fmt::Display for FindingText<'_> {
    ghost output = { λ text. Some (finding_text (option_map (λ payload. payload.now) text.sent) text.came.now
        text.finding) };

    fn fmt<W: fmt::Write>(&self, f: &mut fmt::Formatter<W>) -> fmt::Result {
        let came = Digits(self.came);
        match self.finding {
            Finding::Stranger => f.write_str("stranger"),
            Finding::Changed => match self.sent {
                Some(sent) => write!(f, "changed, sent {} came {came}", Digits(sent)),
                None => write!(f, "changed, sent  came {came}"),
            },
            Finding::Repeat => f.write_str("repeat"),
            Finding::Late { by } => write!(f, "late by {by}"),
            Finding::InOrder { skips } => write!(f, "skips {skips}"),
        }
    }
}

/// What is counted of a hart, or of all of them together.
#[derive(Clone, Copy)]
pub(crate) struct CountsText(pub(crate) Total);

impl fmt::Display for CountsText {
    ghost output = { λ text. Some (counts_text text.0) };

    fn fmt<W: fmt::Write>(&self, f: &mut fmt::Formatter<W>) -> fmt::Result {
        let sent = self.0.sent;
        let came = self.0.came;
        let lost = self.0.lost;
        let repeated = self.0.repeated;
        let late = self.0.late;
        let changed = self.0.changed;
        let strange = self.0.strange;
        let too_late = TooLateText(self.0.too_late);
        let verdict = verdict_text(self.0.whole);
        write!(f, "{sent} sent, {came} came, {lost} lost, ")?;
        write!(
            f,
            "{repeated} repeated, {late} late, {changed} changed, {strange} strange, {too_late}{verdict}\n"
        )
    }
}

/// How many messages were too late, in a live audit.
#[derive(Clone, Copy)]
struct TooLateText(Option<u128>);

impl fmt::Display for TooLateText {
    ghost output = { λ text. Some (too_late_text text.0) };

    fn fmt<W: fmt::Write>(&self, f: &mut fmt::Formatter<W>) -> fmt::Result {
        match self.0 {
            Some(count) => write!(f, "{count} too late, "),
            None => f.write_str(""),
        }
    }
}

/// The line of the runs of a hart's lost numbers, where there are any.
#[derive(Clone, Copy)]
pub(crate) struct RunsLine {
    pub(crate) hart: usize,
    pub(crate) runs: u64,
    pub(crate) longest: u64,
}

impl fmt::Display for RunsLine {
    ghost output = { λ line. Some (runs_line line.hart line.runs line.longest) };

    fn fmt<W: fmt::Write>(&self, f: &mut fmt::Formatter<W>) -> fmt::Result {
        let hart = self.hart;
        let runs = self.runs;
        let longest = self.longest;
        if runs == 0 {
            f.write_str("")
        } else {
            write!(
                f,
                "hart {hart}: lost in {runs} runs, the longest of {longest}\n"
            )
        }
    }
}

/// The line of the most by which a message of a hart is late, where one is.
#[derive(Clone, Copy)]
pub(crate) struct LateLine {
    pub(crate) hart: usize,
    pub(crate) latest: u64,
}

impl fmt::Display for LateLine {
    ghost output = { λ line. Some (late_line line.hart line.latest) };

    fn fmt<W: fmt::Write>(&self, f: &mut fmt::Formatter<W>) -> fmt::Result {
        let hart = self.hart;
        let latest = self.latest;
        if latest == 0 {
            f.write_str("")
        } else {
            write!(f, "hart {hart}: late by at most {latest}\n")
        }
    }
}

/// The line of the hart whose most of a hart's messages are that are not true, if there is one.
#[derive(Clone, Copy)]
pub(crate) struct ExchangedLine {
    pub(crate) hart: usize,
    pub(crate) exchanged: Option<Exchanged>,
}

impl fmt::Display for ExchangedLine {
    ghost output = { λ line. Some (exchanged_line line.hart line.exchanged) };

    fn fmt<W: fmt::Write>(&self, f: &mut fmt::Formatter<W>) -> fmt::Result {
        let hart = self.hart;
        match self.exchanged {
            Some(its) => {
                let count = its.count;
                let other = its.hart;
                write!(f, "hart {hart}: {count} of what came is hart {other}'s\n")
            }
            None => f.write_str(""),
        }
    }
}
