//! The lines of files of cases.

use crate::case::Case;
use crate::files::DataFile;
use std::alloc::{AllocError, Global};

/// A line of a file at which a case begins.
#[derive(Clone, Copy)]
pub struct Line<'a> {
    /// The file's name.
    pub file: &'a str,
    /// The number of the line, from 1.
    pub number: usize,
    /// The case and what is wanted in its line.
    parts: (&'a str, &'a str),
    /// The text of the file from this line on.
    text: &'a str,
}

/// Whether a case begins at a line.
fn begins_case(line: &str) -> bool {
    !line.is_empty() && !line.starts_with('#') && !line.starts_with("> ")
}

impl<'a> Line<'a> {
    /// The case: its verb and its arguments.
    pub fn case(&self) -> &'a str {
        self.parts.0
    }

    /// Appends what is wanted.
    pub(crate) fn put_wanted(&self, wanted: &Case) {
        wanted.put(self.parts.1);
        for line in self.text.lines().skip(1) {
            if let Some(further) = line.strip_prefix("> ") {
                if !wanted.has_nothing() {
                    wanted.put("\n");
                }
                wanted.put(further);
            } else if begins_case(line) {
                return;
            }
        }
    }
}

/// Adds the lines of a file at which cases begin.
fn add_lines<'a>(notes: &Case, lines: &mut Vec<Line<'a>>, file: &'a DataFile) {
    let mut offset: usize = 0;
    for (place, line) in file.text.split('\n').enumerate() {
        if begins_case(line) {
            let case = Line {
                file: file.name.as_str(),
                number: file.numbers.get(place).copied().unwrap_or(0),
                parts: line.split_once(" -> ").unwrap_or((line, "")),
                text: file.text.get(offset..).unwrap_or(line),
            };
            notes.push(lines, case);
        }
        offset = offset.saturating_add(line.len()).saturating_add(1);
    }
}

/// The lines of files at which cases begin.
pub fn lines_of<'a>(alloc: Global, files: &'a [DataFile]) -> Result<Vec<Line<'a>>, AllocError> {
    let notes = Case::new(alloc, "");
    let mut lines = Vec::new(alloc);
    for file in files {
        add_lines(&notes, &mut lines, file);
    }
    notes.is_read()?;
    Ok(lines)
}
