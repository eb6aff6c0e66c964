//! Which rows of its hart a message settles.

ghost use Rattle.std.specs.Prelude.{◌++◌, Some, codes};
ghost use Rattle.listing.specs.SettledRows.{first_row, last_row, row_field, rows_text, shown_rows, shows_rows};

use crate::form::Form;
use std::fmt;
use std::fmt::Display;

/// The rows of a message's events. Its text is `, rows A to B`, or `, row A` of one event, or nothing of none.
#[derive(Clone, Copy)]
pub struct SettledRows {
    /// How many events its hart has with those of the message.
    pub rows: usize,
    /// How many events the message adds.
    pub added: usize,
}

impl fmt::Display for SettledRows {
    ghost output = { λ settled. Some (rows_text settled.rows settled.added) };

    fn fmt<W: fmt::Write>(&self, f: &mut fmt::Formatter<W>) -> fmt::Result {
        let last = self.rows;
        match self.added {
            0 => f.write_str(""),
            1 => write!(f, ", row {last}"),
            _ => {
                let first = last.saturating_sub(self.added.saturating_sub(1));
                write!(f, ", rows {first} to {last}")
            }
        }
    }
}

/// The first row of a message's events and the last as fields, with a comma between. Without an event both are empty.
#[derive(Clone, Copy)]
pub struct RowCells(pub SettledRows);

impl fmt::Display for RowCells {
    ghost output = { λ cells. Some (row_field (first_row cells.0.rows cells.0.added) ++ (codes ","
        ++ row_field (last_row cells.0.rows cells.0.added))) };

    fn fmt<W: fmt::Write>(&self, f: &mut fmt::Formatter<W>) -> fmt::Result {
        let SettledRows { rows, added } = self.0;
        if added == 0 {
            return f.write_str(",");
        }
        let first = rows.saturating_sub(added.saturating_sub(1));
        write!(f, "{first},{rows}")
    }
}

/// The text of these rows, where lines of this form say it.
#[derive(Clone, Copy)]
pub struct ShownRows {
    /// The form of the lines.
    pub form: Form,
    /// The rows.
    pub settled: SettledRows,
}

impl fmt::Display for ShownRows {
    ghost output = { λ text. Some (shown_rows (shows_rows text.form) text.settled.rows text.settled.added) };

    fn fmt<W: fmt::Write>(&self, f: &mut fmt::Formatter<W>) -> fmt::Result {
        if self.form.shows_rows() {
            return self.settled.fmt(f);
        }
        f.write_str("")
    }
}
