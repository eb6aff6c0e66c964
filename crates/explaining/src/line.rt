//! Why an event is illegal, as text.

ghost use Rattle.std.specs.Prelude.{Some};
ghost use Rattle.explaining.specs.Explanation.{place_line, privilege_line};

use crate::following::{Place, Privileges};
use crate::standing::Before;
use retire::Event;
use rvclass::ProgramOver;
use std::fmt;

/// Where the row has to be, by the event before, and where it is.
#[derive(Clone, Copy)]
pub(crate) struct PlaceLine<'a> {
    pub(crate) program: &'a ProgramOver<'a>,
    pub(crate) before: Option<Event>,
    pub(crate) place: u64,
}

impl fmt::Display for PlaceLine<'_> {
    ghost output = { λ text. Some (place_line text.program.now text.before text.place) };

    fn fmt<W: fmt::Write>(&self, f: &mut fmt::Formatter<W>) -> fmt::Result {
        let program = self.program;
        let event = self.before;
        let before = Before { program, event };
        let wanted = Place {
            program,
            before: event,
        };
        let place = self.place;
        write!(f, "{before}: {wanted} follows, not {place:x}")
    }
}

/// The privileges that the row may have, by the event before, and the one that it has.
#[derive(Clone, Copy)]
pub(crate) struct PrivilegeLine<'a> {
    pub(crate) program: &'a ProgramOver<'a>,
    pub(crate) before: Option<Event>,
    pub(crate) privilege: u8,
}

impl fmt::Display for PrivilegeLine<'_> {
    ghost output = { λ text. Some (privilege_line text.program.now text.before text.privilege) };

    fn fmt<W: fmt::Write>(&self, f: &mut fmt::Formatter<W>) -> fmt::Result {
        let program = self.program;
        let event = self.before;
        let before = Before { program, event };
        let privileges = Privileges {
            program,
            before: event,
        };
        let privilege = self.privilege;
        write!(
            f,
            "{before}: privilege {privileges} follows, not {privilege:x}"
        )
    }
}
