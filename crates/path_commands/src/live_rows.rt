//! The rows that only a live audit has.

ghost use Rattle.std.specs.Prelude.{Some};
ghost use Rattle.path_commands.specs.LiveText.{too_late_line};

use std::fmt;

/// The row of a message that is too late.
#[derive(Clone, Copy)]
pub(crate) struct TooLateRow {
    pub(crate) place: u64,
    pub(crate) hart: u16,
    pub(crate) number: u64,
}

impl fmt::Display for TooLateRow {
    ghost output = { λ row. Some (too_late_line row.place row.hart row.number) };

    fn fmt<W: fmt::Write>(&self, f: &mut fmt::Formatter<W>) -> fmt::Result {
        let place = self.place;
        let hart = self.hart;
        let number = self.number;
        write!(
            f,
            "message {place}: hart {hart} number {number}: too late\n"
        )
    }
}
