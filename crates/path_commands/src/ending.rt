//! What follows the lines of the harts.

ghost use Rattle.std.specs.Prelude.{◌≡◌, ◌++◌, Some};
ghost use Rattle.path_commands.specs.AuditText.{all_line, damage_line, ending_text, first_line, headers_line, result_line};
ghost use Rattle.path_commands.specs.AuditText.{strangers_line, verdict_text};

use crate::lines::CountsText;
use crate::total::Total;
use std::fmt;

/// What is found of all messages together.
#[derive(Clone, Copy)]
pub(crate) struct Ending {
    /// How many harts SENT has.
    pub(crate) harts: usize,
    /// What is found of all of them together.
    pub(crate) total: Total,
    /// How many messages RECEIVED has.
    pub(crate) messages: u64,
    /// How many strangers came.
    pub(crate) strangers: u64,
    /// How many bytes of RECEIVED are of no message.
    pub(crate) bytes: u64,
    /// How many runs they are in.
    pub(crate) runs: u64,
    /// Whether headers differ.
    pub(crate) unlike: bool,
    /// The place of the first message that is not in order or skips a number, if there is one.
    pub(crate) first: Option<u64>,
    /// Whether the result is whole.
    pub(crate) whole: bool,
}

/// The last lines of an audit.
#[derive(Clone, Copy)]
pub(crate) struct EndingLines(pub(crate) Ending);

impl fmt::Display for EndingLines {
    ghost output = { λ lines. Some (ending_text lines.0) };

    fn fmt<W: fmt::Write>(&self, f: &mut fmt::Formatter<W>) -> fmt::Result {
        let all = AllLine {
            harts: self.0.harts,
            total: self.0.total,
        };
        let others = StrangersLine {
            strangers: self.0.strangers,
        };
        let damage = DamageLine {
            bytes: self.0.bytes,
            runs: self.0.runs,
        };
        let closing = Closing {
            unlike: self.0.unlike,
            first: self.0.first,
            whole: self.0.whole,
        };
        write!(f, "{all}{others}{damage}{closing}")
    }
}

/// The line of all harts together, where there is more than one.
#[derive(Clone, Copy)]
struct AllLine {
    harts: usize,
    total: Total,
}

impl fmt::Display for AllLine {
    ghost output = { λ line. Some (all_line line.harts line.total) };

    fn fmt<W: fmt::Write>(&self, f: &mut fmt::Formatter<W>) -> fmt::Result {
        if self.harts > 1 {
            let counts = CountsText(self.total);
            write!(f, "all: {counts}")
        } else {
            f.write_str("")
        }
    }
}

/// The line of strangers, where there are any.
#[derive(Clone, Copy)]
pub(crate) struct StrangersLine {
    pub(crate) strangers: u64,
}

impl fmt::Display for StrangersLine {
    ghost output = { λ line. Some (strangers_line line.strangers) };

    fn fmt<W: fmt::Write>(&self, f: &mut fmt::Formatter<W>) -> fmt::Result {
        let strangers = self.strangers;
        if strangers == 0 {
            f.write_str("")
        } else {
            write!(f, "strangers: {strangers} messages\n")
        }
    }
}

/// The line of the bytes that are of no message, where there are any.
#[derive(Clone, Copy)]
pub(crate) struct DamageLine {
    pub(crate) bytes: u64,
    pub(crate) runs: u64,
}

impl fmt::Display for DamageLine {
    ghost output = { λ line. Some (damage_line line.bytes line.runs) };

    fn fmt<W: fmt::Write>(&self, f: &mut fmt::Formatter<W>) -> fmt::Result {
        let bytes = self.bytes;
        let runs = self.runs;
        if bytes == 0 {
            f.write_str("")
        } else {
            write!(f, "bytes: {bytes} in {runs} runs\n")
        }
    }
}

/// What follows the line of the bytes.
#[derive(Clone, Copy)]
pub(crate) struct Closing {
    pub(crate) unlike: bool,
    pub(crate) first: Option<u64>,
    pub(crate) whole: bool,
}

impl fmt::Display for Closing {
    ghost output = { λ closing. Some (headers_line closing.unlike
        ++ (first_line closing.first ++ result_line closing.whole)) };

    fn fmt<W: fmt::Write>(&self, f: &mut fmt::Formatter<W>) -> fmt::Result {
        let headers = headers_line(self.unlike);
        let first = FirstLine { first: self.first };
        let verdict = verdict_text(self.whole);
        write!(f, "{headers}{first}result: {verdict}\n")
    }
}

/// The line of the first message that is not in order or skips a number, where there is one.
#[derive(Clone, Copy)]
struct FirstLine {
    first: Option<u64>,
}

impl fmt::Display for FirstLine {
    ghost output = { λ line. Some (first_line line.first) };

    fn fmt<W: fmt::Write>(&self, f: &mut fmt::Formatter<W>) -> fmt::Result {
        match self.first {
            Some(place) => write!(f, "first: message {place}\n"),
            None => f.write_str(""),
        }
    }
}

/// The line for headers that differ.
fn headers_line(unlike: bool) -> &'static str
    ensures { result.now ≡ headers_line unlike }
{
    if unlike { "headers differ\n" } else { "" }
}

/// Whether a hart, or all of them, are whole.
pub(crate) fn verdict_text(whole: bool) -> &'static str
    ensures { result.now ≡ verdict_text whole }
{
    if whole { "whole" } else { "not whole" }
}
