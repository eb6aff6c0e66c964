//! A fact that follows from the definitions of fields.

ghost use Rattle.output.specs.ReadBack.{AreReadBack};

/// A row of two fields or more, each written by [`write_field`](crate::write_field), is read back: `csv` reads just these
/// fields, and goes on after the row.
pub fn quoted_rows_are_read_back()
    ensures { AreReadBack }
{}
