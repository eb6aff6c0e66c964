//! What may follow an event.

ghost use Rattle.std.specs.Prelude.{Some};
ghost use Rattle.rvclass.specs.Fetch.{words_of};
ghost use Rattle.explaining.specs.Following.{next_text, place_text, privileges_text};

use legalpath::{Next, successor};
use retire::Event;
use rvclass::{Class, ProgramOver, Return};
use std::fmt;
use std::fmt::Display;

/// Where an event may be, by where the event before leads.
#[derive(Clone, Copy)]
struct Target(Next);

impl fmt::Display for Target {
    ghost output = { λ text. Some (next_text text.0) };

    fn fmt<W: fmt::Write>(&self, f: &mut fmt::Formatter<W>) -> fmt::Result {
        match self.0 {
            Next::One(to) => write!(f, "{to:x}"),
            Next::Any => f.write_str("any address"),
            Next::NoneInside => f.write_str("no address"),
        }
    }
}

/// Where an event may be after the event before, if there is one.
#[derive(Clone, Copy)]
pub(crate) struct Place<'a> {
    pub(crate) program: &'a ProgramOver<'a>,
    pub(crate) before: Option<Event>,
}

impl fmt::Display for Place<'_> {
    ghost output = { λ text. Some (place_text (words_of text.program.now) text.before) };

    fn fmt<W: fmt::Write>(&self, f: &mut fmt::Formatter<W>) -> fmt::Result {
        match self.before {
            None => f.write_str("any address"),
            Some(event) => Target(successor(self.program, &event)).fmt(f),
        }
    }
}

/// The privileges that may follow the event before, if there is one.
#[derive(Clone, Copy)]
pub(crate) struct Privileges<'a> {
    pub(crate) program: &'a ProgramOver<'a>,
    pub(crate) before: Option<Event>,
}

impl fmt::Display for Privileges<'_> {
    ghost output = { λ text. Some (privileges_text (words_of text.program.now) text.before) };

    fn fmt<W: fmt::Write>(&self, f: &mut fmt::Formatter<W>) -> fmt::Result {
        match self.before {
            None => f.write_str("0, 1 or 3"),
            Some(
                Event::Retire {
                    addr,
                    privilege,
                    ..
                },
            ) => match self.program.at(addr) {
                Some((Class::TrapReturn(Return::Mret), _)) => f.write_str("0, 1 or 3"),
                Some((Class::TrapReturn(Return::Sret), _)) => f.write_str("0 or 1"),
                _ => write!(f, "{privilege:x}"),
            },
            Some(Event::Trap { privilege, .. }) => {
                f.write_str(if privilege > 1 { "3" } else { "1 or 3" })
            }
        }
    }
}
