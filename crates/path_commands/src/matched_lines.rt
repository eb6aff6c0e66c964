//! The lines of messages and of harts that carry no numbers.

ghost use Rattle.std.specs.Prelude.{◌≡◌, Some};
ghost use Rattle.path_commands.specs.UnnumberedText.{aligned_all, aligned_row, aligned_text, arrival_text};
ghost use Rattle.path_commands.specs.UnnumberedText.{hart_of, may_match_more, more_line, place_of};

use crate::ending::verdict_text;
use auditing::{AlignedTotal, HartCounts, Line, MOST_EDITS};
use std::fmt;

/// The line of a message.
#[derive(Clone, Copy)]
pub(crate) struct ArrivalText(pub(crate) Line);

impl fmt::Display for ArrivalText {
    ghost output = { λ text. Some (arrival_text text.0) };

    fn fmt<W: fmt::Write>(&self, f: &mut fmt::Formatter<W>) -> fmt::Result {
        match self.0 {
            Line::Stranger { place, hart } => {
                write!(f, "message {place}: hart {hart}: stranger\n")
            }
            Line::Extra { place, hart } => write!(f, "message {place}: hart {hart}: extra\n"),
            Line::Skips {
                place,
                hart,
                number,
                skips,
            } => write!(
                f,
                "message {place}: hart {hart} number {number}: skips {skips}\n"
            ),
        }
    }
}

/// The place of the message that a line is of.
pub(crate) fn place_of(line: Line) -> u64
    ensures { result ≡ place_of line }
{
    match line {
        Line::Stranger { place, .. } | Line::Extra { place, .. } | Line::Skips { place, .. } => {
            place
        }
    }
}

/// The hart of the message that a line is of.
pub(crate) fn hart_of(line: Line) -> u16
    ensures { result ≡ hart_of line }
{
    match line {
        Line::Stranger { hart, .. } | Line::Extra { hart, .. } | Line::Skips { hart, .. } => hart,
    }
}

/// The line of what is counted of a hart.
#[derive(Clone, Copy)]
pub(crate) struct AlignedRow {
    pub(crate) hart: usize,
    pub(crate) counts: HartCounts,
}

impl fmt::Display for AlignedRow {
    ghost output = { λ row. Some (aligned_row row.hart row.counts) };

    fn fmt<W: fmt::Write>(&self, f: &mut fmt::Formatter<W>) -> fmt::Result {
        let hart = self.hart;
        let sent = self.counts.sent;
        let came = self.counts.came;
        let lost = self.counts.lost;
        let extra = self.counts.extra;
        let verdict = verdict_text(self.counts.whole);
        write!(
            f,
            "hart {hart}: {sent} sent, {came} came, {lost} lost, {extra} extra, {verdict}\n"
        )
    }
}

/// The line of a hart of which more messages may match, if it is one.
#[derive(Clone, Copy)]
pub(crate) struct MoreLine {
    pub(crate) hart: usize,
    pub(crate) counts: HartCounts,
}

impl fmt::Display for MoreLine {
    ghost output = { λ line. Some (more_line line.hart line.counts) };

    fn fmt<W: fmt::Write>(&self, f: &mut fmt::Formatter<W>) -> fmt::Result {
        let hart = self.hart;
        let most = MOST_EDITS;
        if may_match_more(self.counts) {
            write!(
                f,
                "hart {hart}: more than {most} lost and extra, more may match\n"
            )
        } else {
            f.write_str("")
        }
    }
}

/// Whether more messages of a hart may match: the search for matches did not come to its end, and some are lost and
/// some extra.
fn may_match_more(counts: HartCounts) -> bool
    ensures { result ≡ may_match_more counts }
{
    let unmatched = u128::from(counts.lost) + u128::from(counts.extra);
    counts.lost > 0 && counts.extra > 0 && unmatched > MOST_EDITS as u128
}

/// The line of all harts together, where there is more than one.
#[derive(Clone, Copy)]
pub(crate) struct AlignedAll {
    pub(crate) harts: usize,
    pub(crate) total: AlignedTotal,
}

impl fmt::Display for AlignedAll {
    ghost output = { λ line. Some (aligned_all line.harts line.total) };

    fn fmt<W: fmt::Write>(&self, f: &mut fmt::Formatter<W>) -> fmt::Result {
        let sent = self.total.sent;
        let came = self.total.came;
        let lost = self.total.lost;
        let extra = self.total.extra;
        let verdict = verdict_text(self.total.whole);
        if self.harts > 1 {
            write!(
                f,
                "all: {sent} sent, {came} came, {lost} lost, {extra} extra, {verdict}\n"
            )
        } else {
            f.write_str("")
        }
    }
}
