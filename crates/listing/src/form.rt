//! The forms in which messages are written.

ghost use Rattle.std.specs.Prelude.{◌≡◌};
ghost use Rattle.listing.specs.SettledRows.{shows_rows};

/// How messages are written: a line of text for each, or a row of CSV below the names of the columns.
#[derive(Clone, Copy)]
pub enum Form {
    /// A line of text for each message.
    Lines {
        /// Whether it says which rows of its hart the message settles.
        rows: bool,
    },
    /// A row of CSV for each message, which has these rows always.
    Table,
}

impl Form {
    /// Whether lines say which rows a message settles.
    pub(crate) fn shows_rows(self) -> bool
        ensures { result ≡ shows_rows self }
    {
        match self {
            Form::Lines { rows } => rows,
            Form::Table => false,
        }
    }
}
