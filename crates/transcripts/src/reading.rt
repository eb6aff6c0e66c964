//! Transcripts: files, runs of the program over them, and what each prints and reports.
//!
//! A line of a transcript begins with
//!
//! - `#`: a remark; so is a line with nothing in it;
//! - `played`: in which ways the runs below it are played, such as `played whole, shown`;
//! - `file NAME`: a file, which holds what the lines that begin with `|` add to it;
//! - `$`: a run of the program with these arguments; or `%`: the request that they are, as it is displayed for
//!   debugging; or `&`: a call of what shows progress or of the machine's files;
//! - `>`: what is printed, `!`: what is reported, and `?`: the exit status where it is not 0.
//!
//! The ways are `whole`: over outputs that take all, and once more with a standard error that fails; `shown`: the same
//! with `--progress` where a capture is read; `failing`: over outputs that fail at each of their calls in turn; `bare`:
//! over no file at all; `disk`: over files that are written to the folder where this program runs. Each way begins with
//! no file.
//!
//! After `|`, `>` and `!` comes a text; or `=` and bytes in hexadecimal; or `~` and a message, as its hart, its number
//! and its payload; or `<` and a file's name, for what that file holds; or `+` and a text without an end of line. `*`
//! and a count before these repeat them that often, in lines that `\n` separates; each `@` is then the number of the
//! repetition, from 0 on. `*{A..B}` numbers them from A to B instead. `@{A+S}` is the hexadecimal number A at number 0,
//! and S more at each further number, with eight digits at least.
//!
//! Among the arguments of a run, `COUNT*WORD` repeats an argument, `{A..B}` means a run with each number from A to B,
//! `NAME:COUNT` names a file's first bytes, and `full` names a file whose allocation fails; `␣`, `␉` and `␤` are a blank,
//! a tabulator and an end of line. A file takes the place of one that had its name before. No run reads a file more
//! often than its arguments name it, and one of status 0 or 1 reads each as often. A request has no status.

use crate::calls::Progress;
use crate::parts::{add, add_line};
use crate::shelf::Shelf;
use crate::verdict::Outcome;
use cases::Case;
use std::alloc::Global;

/// How the runs of a transcript are played.
#[derive(Clone, Copy)]
pub(crate) enum Way {
    /// Over outputs that take all.
    Whole,
    /// Over outputs that take all, and with `--progress` where a capture is read.
    Shown,
    /// Over outputs that fail at each of their calls in turn.
    Failing,
    /// Over no file.
    Bare,
    /// Over files of the machine.
    Disk,
}

/// The ways that there are, in the order in which they are played.
pub(crate) const WAYS: [Way; 5] = [Way::Whole, Way::Shown, Way::Failing, Way::Bare, Way::Disk];

impl Way {
    /// The way's name in transcripts.
    fn name(self) -> &'static str {
        match self {
            Way::Whole => "whole",
            Way::Shown => "shown",
            Way::Failing => "failing",
            Way::Bare => "bare",
            Way::Disk => "disk",
        }
    }

    /// Whether names of ways, such as `whole, shown`, have this one among them.
    pub(crate) fn is_among(self, names: &str) -> bool {
        for name in names.split(", ") {
            if name == self.name() {
                return true;
            }
        }
        false
    }

    /// Whether some runs of a transcript are played in this way.
    pub(crate) fn is_in(self, transcript: &str) -> bool {
        for line in transcript.lines() {
            if let Some(names) = line.strip_prefix("played ") {
                if self.is_among(names) {
                    return true;
                }
            }
        }
        false
    }
}

/// Whether each of these names, such as `whole, shown`, is a way's.
fn are_ways(names: &str) -> bool {
    for name in names.split(", ") {
        let mut is_way = false;
        for way in WAYS {
            is_way = is_way || way.name() == name;
        }
        if !is_way {
            return false;
        }
    }
    true
}

/// A run, and what it has to print and report.
#[derive(Drop)]
pub(crate) struct Run<'a> {
    /// The number of its line in the transcript.
    pub(crate) number: usize,
    /// `$`, `%` or `&`, and arguments; nothing where no run is meant.
    pub(crate) line: &'a str,
    pub(crate) status: u64,
    pub(crate) written: Vec<u8>,
    pub(crate) reported: Vec<u8>,
}

impl<'a> Run<'a> {
    /// A run of this line; nothing is expected of it yet.
    pub(crate) fn new(alloc: Global, number: usize, line: &'a str) -> Run<'a> {
        Run {
            number,
            line,
            status: 0,
            written: Vec::new(alloc),
            reported: Vec::new(alloc),
        }
    }

    /// What is expected.
    pub(crate) fn outcome(&self) -> Outcome<'_> {
        (
            self.status,
            self.written.as_slice(),
            self.reported.as_slice(),
        )
    }

    /// Adds to what is expected.
    fn expect(&mut self, case: &Case, shelf: &Shelf, line: &str) {
        if self.line.is_empty() {
            case.unread();
        } else if let Some(text) = line.strip_prefix('>') {
            add_line(case, shelf, &mut self.written, text);
        } else if let Some(text) = line.strip_prefix('!') {
            add_line(case, shelf, &mut self.reported, text);
        } else {
            self.status = case.decimal(line.strip_prefix("? ").unwrap_or(""));
        }
    }
}

/// What was read of a transcript.
#[derive(Drop)]
pub(crate) struct Page<'a> {
    /// The names of the ways that runs are played in.
    pub(crate) ways: &'a str,
    pub(crate) shelf: Shelf,
    pub(crate) progress: Progress,
    /// The run that lines may still add to.
    pub(crate) run: Run<'a>,
}

impl<'a> Page<'a> {
    /// Nothing was read.
    pub(crate) fn new(alloc: Global) -> Page<'a> {
        Page {
            ways: "",
            shelf: Shelf::new(alloc),
            progress: Progress::new(),
            run: Run::new(alloc, 0, ""),
        }
    }

    /// Adds to the newest file.
    fn fill(&mut self, case: &Case, text: &str) {
        let mut bytes = Vec::new(case.alloc);
        add_line(case, &self.shelf, &mut bytes, text);
        match self.shelf.newest() {
            Some(file) => add(case, file, bytes.as_slice()),
            None => case.unread(),
        }
    }

    /// Reads a line: it begins a file or a run, or adds to one.
    pub(crate) fn read_line(&mut self, case: &Case, number: usize, line: &'a str) {
        if line.is_empty() || line.starts_with('#') {
            return;
        }
        if line.starts_with(['$', '%', '&']) {
            self.run = Run::new(case.alloc, number, line);
            if self.ways.is_empty() {
                case.unread();
            }
        } else if let Some(content) = line.strip_prefix('|') {
            self.fill(case, content);
        } else if let Some(name) = line.strip_prefix("file ") {
            let done = self.shelf.begin(name);
            case.note(done);
        } else {
            match line.strip_prefix("played ") {
                Some(names) if are_ways(names) => self.ways = names,
                _ => self.run.expect(case, &self.shelf, line),
            }
        }
    }
}

/// Whether a line ends the run before it.
pub(crate) fn ends_run(line: &str) -> bool {
    line.starts_with(['$', '%', '&']) || line.starts_with("file ") || line.starts_with("played ")
}
