//! The text of one hart in a report.

ghost use Rattle.std.specs.Prelude.{Some};
ghost use Rattle.bench.specs.Report.{hart_text};

use crate::verdict::Verdict;
use std::fmt;

/// What a comparison says of a hart. Its text is the line of the hart without the line's end.
#[derive(Clone, Copy)]
pub struct ComparedHart {
    /// The number of the hart.
    pub hart: usize,
    /// How many events its log has.
    pub events: usize,
    /// How many of its messages came before decoding stops.
    pub taken: u64,
    /// How many bytes their payloads have.
    pub bytes: u64,
    /// How many events were decoded.
    pub decoded: usize,
    /// How these compare with the log.
    pub verdict: Verdict,
}

impl fmt::Display for ComparedHart {
    ghost output = { λ line. Some (hart_text line.hart line.events line.taken line.bytes line.decoded line.verdict) };

    fn fmt<W: fmt::Write>(&self, f: &mut fmt::Formatter<W>) -> fmt::Result {
        let ComparedHart {
            hart,
            events,
            taken,
            bytes,
            decoded,
            verdict,
        } = *self;
        write!(f, "hart {hart}: {events} events, {taken} packets, ")?;
        write!(f, "{bytes} payload bytes, decoded {decoded}, {verdict}")
    }
}
