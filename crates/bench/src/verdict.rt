//! How what was decoded compares with the log.

ghost use Rattle.std.specs.Prelude.{◌≡◌, ◌≤◌, Some, length};
ghost use Rattle.bench.specs.Report.{is_whole_verdict, verdict_text};
ghost use Rattle.bench.specs.Verdict.{count_alike, is_alike, verdict};

use retire::Event;
use std::fmt;

/// How what was decoded of a hart compares with its log.
#[derive(Clone, Copy)]
pub enum Verdict {
    /// The closing packet was decoded, and the whole log.
    Whole,
    /// A prefix of the log, or all of it, was decoded.
    Beginning,
    /// In this row, counted from 1, the decoded event is another than the log's, or the log has no such row.
    Differs(u64),
}

impl fmt::Display for Verdict {
    ghost output = { λ verdict. Some (verdict_text verdict) };

    fn fmt<W: fmt::Write>(&self, f: &mut fmt::Formatter<W>) -> fmt::Result {
        match *self {
            Verdict::Whole => f.write_str("whole"),
            Verdict::Beginning => f.write_str("beginning"),
            Verdict::Differs(row) => write!(f, "differs at row {row}"),
        }
    }
}

impl Verdict {
    /// Whether the complete log came back.
    pub fn is_whole(&self) -> bool
        ensures { result ≡ is_whole_verdict self.now }
    {
        matches!(self, Verdict::Whole)
    }
}

/// How the events that were decoded of a hart compare with its log.
pub fn compare(closed: bool, decoded: &[Event], log: &[Event]) -> Verdict
    ensures { result ≡ verdict closed decoded.now log.now }
{
    let alike = count_alike(decoded, log);
    if closed && alike == decoded.len() && alike == log.len() {
        Verdict::Whole
    } else if alike == decoded.len() {
        Verdict::Beginning
    } else {
        Verdict::Differs(alike as u64 + 1)
    }
}

/// How many events come before the first place where the lists differ or one of them has no event.
fn count_alike(decoded: &[Event], log: &[Event]) -> usize
    ensures count { result ≡ count_alike decoded.now log.now }
    ensures within { result ≤ length decoded.now }
{
    for place in 0..decoded.len() {
        if place >= log.len() {
            return place;
        }
        if !is_alike(&decoded[place], &log[place]) {
            return place;
        }
    }
    decoded.len()
}

/// Whether two events are alike.
fn is_alike(event: &Event, other: &Event) -> bool
    ensures { result ≡ is_alike event.now other.now }
{
    *event == *other
}
