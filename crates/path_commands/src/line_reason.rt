//! What only `capture` stops at.

ghost use Rattle.std.specs.Prelude.{◌≡◌, Some, refl};
ghost use Rattle.path_commands.specs.LineFaultText.{line_reason_text};
ghost use Rattle.path_commands.specs.LineFaults.{line_reason_status, lines_fault};

use captures::{LineFault, LinesFault};
use command_inputs::{Reason, Status};
use std::fmt;

/// Why `capture` stops.
pub type Fault<'a> = command_inputs::Fault<'a, LineReason<'a>>;

/// What only `capture` stops at.
#[derive(Clone, Copy)]
pub enum LineReason<'a> {
    /// More harts are asked for than this many, the most that a capture of the version has.
    ManyHarts(u16),
    /// Lines that have a fault are to be skipped, and the lines are not written as they come.
    SkipAlone,
    /// The line with this number of the file at this path, counted from 1, is the first that has a fault.
    Line(&'a str, u64, LineFault),
    /// So many lines of the file at this path have a fault and were skipped.
    Skipped(&'a str, u64),
}

impl fmt::Display for LineReason<'_> {
    ghost output = { λ why. Some (line_reason_text why) };

    fn fmt<W: fmt::Write>(&self, f: &mut fmt::Formatter<W>) -> fmt::Result {
        match self {
            LineReason::ManyHarts(most) => write!(f, "more than {most} harts"),
            LineReason::SkipAlone => f.write_str("--skip needs --harts or --v1"),
            LineReason::Line(path, line, why) => write!(f, "{path}: line {line}: {why}"),
            LineReason::Skipped(path, count) => write!(f, "{path}: lines skipped: {count}"),
        }
    }
}

impl Reason for LineReason<'_> {
    ghost text = { line_reason_text };

    ghost status = { line_reason_status };

    fn status(&self) -> Status {
        match self {
            LineReason::Skipped(..) => Status::NotWhole,
            _ => Status::Refused,
        }
    }

    ghost shown = { λ why. refl };
}

/// Why the lines at a path are not written as a capture.
pub(crate) fn lines_fault<'a>(path: &'a str, why: LinesFault) -> Fault<'a>
    ensures { result ≡ lines_fault path.entry why }
{
    match why {
        LinesFault::Line { line, why } => Fault::Own(LineReason::Line(path, line, why)),
        LinesFault::Write => Fault::Output,
    }
}
