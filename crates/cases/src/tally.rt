//! How many cases were played, and which of them failed.

use crate::case::Case;
use crate::lines::Line;
use std::io;
use std::process::ExitCode;

/// How many bytes of what is wanted and of what came are shown whole.
const MOST_SHOWN: usize = 4_000;

/// The first lines that differ of texts that are not shown whole.
fn differing<'t>(wanted: &'t str, came: &'t str) -> (&'t str, &'t str) {
    if wanted.len() > MOST_SHOWN || came.len() > MOST_SHOWN {
        for (one, other) in wanted.lines().zip(came.lines()) {
            if one != other {
                return (one, other);
            }
        }
    }
    (wanted, came)
}

/// Counts cases, and those that failed.
#[derive(Drop)]
pub struct Tally {
    played: u64,
    failed: u64,
}

impl Tally {
    /// No case yet.
    pub fn new() -> Tally {
        Tally {
            played: 0,
            failed: 0,
        }
    }

    /// Counts a case that was played, if it does not only set something. Where what came is not what was wanted, both go
    /// to standard error.
    pub fn judge<R: Eprint + AllocGlobal>(
        &mut self,
        rt: &R,
        line: &Line<'_>,
        case: &Case,
    ) -> io::Result<()> {
        let notes = Case::new(rt.alloc(), "");
        line.put_wanted(&notes);
        case.join(&notes);
        let (wanted, came) = (notes.taken(), case.end()?);
        let came = came.as_str().trim_end_matches('\n');
        if case.is_setting() && wanted.as_str() == came {
            return Ok(());
        }
        self.count(rt, (line.file, line.number), wanted.as_str(), came)
    }

    /// Counts a case, at this line of a file; its lines are counted from 1. Where what came is not what was wanted, both
    /// go to standard error, of long texts the first lines that differ.
    pub fn count(
        &mut self,
        rt: &impl Eprint,
        (file, line): (&str, usize),
        wanted: &str,
        came: &str,
    ) -> io::Result<()> {
        self.played = self.played.saturating_add(1);
        if wanted == came {
            return Ok(());
        }
        self.failed = self.failed.saturating_add(1);
        let (wanted, came) = differing(wanted, came);
        eprintln!(rt; "{file}:{line}: wanted {wanted}, came {came}")
    }

    /// Prints how many cases were played, as `COUNT UNIT`. The status is a failure's if one of them failed or none was
    /// played.
    pub fn end(self, rt: &impl Print, unit: &str) -> io::Result<ExitCode> {
        let Tally { played, failed } = self;
        println!(rt; "{played} {unit}")?;
        if failed == 0 && played > 0 {
            Ok(ExitCode::SUCCESS)
        } else {
            Ok(ExitCode::FAILURE)
        }
    }
}
