//! A fact that follows from the definition of rows.

ghost use Rattle.listing.specs.ReadBack.{AreRowsReadBack};

/// The table of a listing is read back: at each of its rows `csv` reads just the fields of the row, with the names of
/// symbols whatever bytes they have, and goes on after it.
pub fn rows_are_read_back()
    ensures { AreRowsReadBack }
{}
