//! What is at a row of a log.

ghost use Rattle.std.specs.Prelude.{◌≡◌, Some};
ghost use Rattle.explaining.specs.Standing.{before_text, class_text, standing_text, trap_text, way_text};

use crate::code::Code;
use retire::Event;
use rvclass::{Class, ProgramOver, Return};
use std::fmt;

/// What is at an event's row: the address of a retirement and the word there, or the exception program counter of a
/// trap, its kind and the privilege that it was taken from.
#[derive(Clone, Copy)]
pub(crate) struct Standing<'a> {
    pub(crate) program: &'a ProgramOver<'a>,
    pub(crate) event: Event,
}

impl fmt::Display for Standing<'_> {
    ghost output = { λ text. Some (standing_text text.program.now text.event) };

    fn fmt<W: fmt::Write>(&self, f: &mut fmt::Formatter<W>) -> fmt::Result {
        match self.event {
            Event::Retire { addr, .. } => match self.program.instruction(addr) {
                None => write!(f, "{addr:x}: no whole word"),
                Some(word) => {
                    let code = Code {
                        bits: word.code,
                        length: word.length,
                    };
                    let class = class_text(word.class);
                    write!(f, "{addr:x}: {code} {class}")
                }
            },
            Event::Trap {
                epc,
                privilege,
                interrupt,
                ..
            } => {
                let kind = trap_text(interrupt);
                write!(f, "{epc:x}: {kind} from privilege {privilege:x}")
            }
        }
    }
}

/// What is at the row before, and which way it went if it is a branch.
#[derive(Clone, Copy)]
pub(crate) struct Before<'a> {
    pub(crate) program: &'a ProgramOver<'a>,
    pub(crate) event: Option<Event>,
}

impl fmt::Display for Before<'_> {
    ghost output = { λ text. Some (before_text text.program.now text.event) };

    fn fmt<W: fmt::Write>(&self, f: &mut fmt::Formatter<W>) -> fmt::Result {
        let program = self.program;
        match self.event {
            None => f.write_str("no row before"),
            Some(event) => {
                let way = way_text(&event);
                write!(f, "{}{way}", Standing { program, event })
            }
        }
    }
}

/// What a word of this class is or does.
fn class_text(class: Class) -> &'static str
    ensures { result.now ≡ class_text class }
{
    match class {
        Class::Plain => "is a plain word",
        Class::Jump(_) => "is a jump",
        Class::Branch(_) => "is a branch",
        Class::Uninferable => "is an uninferable jump",
        Class::TrapReturn(Return::Mret) => "is MRET",
        Class::TrapReturn(Return::Sret) => "is SRET",
        Class::NotRetirable => "does not retire",
    }
}

/// The kind of a trap.
fn trap_text(interrupt: bool) -> &'static str
    ensures { result.now ≡ trap_text interrupt }
{
    if interrupt {
        "an interrupt"
    } else {
        "an exception"
    }
}

/// Which way a branch went; nothing for another event.
fn way_text(event: &Event) -> &'static str
    ensures { result.now ≡ way_text event.now }
{
    if event.is_taken() {
        ", taken"
    } else if event.is_branch() {
        ", not taken"
    } else {
        ""
    }
}
