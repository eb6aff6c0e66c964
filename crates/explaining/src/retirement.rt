//! Why a retirement is illegal, as text.

ghost use Rattle.std.specs.Prelude.{◌≡◌, Some};
ghost use Rattle.retire.specs.declared.event.Event.TheVariants.{Retire};
ghost use Rattle.rvclass.specs.Fetch.{words_of};
ghost use Rattle.explaining.specs.Explanation.{retirement_line, retires_at};
ghost use Rattle.explaining.specs.Explanation.{word_privileges_text, word_types_text};

use crate::line::{PlaceLine, PrivilegeLine};
use crate::ranges::ImageRanges;
use crate::standing::Standing;
use isa::is_privilege;
use legalpath::{Why, may_retire_at};
use retire::Event;
use rvclass::{Class, ProgramOver, Return};
use std::fmt;
use std::fmt::Display;

/// Why a retirement is illegal.
#[derive(Clone, Copy)]
pub(crate) struct RetirementLine<'a> {
    pub(crate) program: &'a ProgramOver<'a>,
    pub(crate) before: Option<Event>,
    pub(crate) addr: u64,
    pub(crate) itype: u8,
    pub(crate) privilege: u8,
    pub(crate) why: Why,
}

impl fmt::Display for RetirementLine<'_> {
    ghost output = { λ text.
        Some (retirement_line text.program.now text.before text.addr text.itype text.privilege text.why) };

    fn fmt<W: fmt::Write>(&self, f: &mut fmt::Formatter<W>) -> fmt::Result {
        let program = self.program;
        let before = self.before;
        let event = Event::Retire {
            addr: self.addr,
            itype: self.itype,
            privilege: self.privilege,
        };
        let standing = Standing { program, event };
        match self.why {
            Why::OffProgram => write!(f, "{standing}: {}", ImageRanges(program)),
            Why::NotRetirable => standing.fmt(f),
            Why::WrongType => {
                let types = types_text(program, self.addr);
                write!(f, "{standing}: its type is {types}")
            }
            Why::WrongPrivilege => {
                if retires_at(program, self.addr, self.privilege) {
                    let line = PrivilegeLine {
                        program,
                        before,
                        privilege: self.privilege,
                    };
                    line.fmt(f)
                } else {
                    let privileges = privileges_text(program, self.addr);
                    write!(f, "{standing}: its privilege is {privileges}")
                }
            }
            Why::WrongNext | Why::WrongEpc => {
                let line = PlaceLine {
                    program,
                    before,
                    place: self.addr,
                };
                line.fmt(f)
            }
        }
    }
}

/// The types that a retirement at an address may have, by the word there.
fn types_text(program: &ProgramOver, addr: u64) -> &'static str
    ensures { result.now ≡ word_types_text (words_of program.now addr) }
{
    match program.at(addr) {
        Some((Class::Plain | Class::Jump(_), _)) => "0",
        Some((Class::Branch(_), _)) => "4 or 5",
        Some((Class::Uninferable, _)) => "6",
        Some((Class::TrapReturn(_), _)) => "3",
        Some((Class::NotRetirable, _)) | None => "none",
    }
}

/// Whether the word at an address, if there is one, may retire at this privilege, which is a level.
fn retires_at(program: &ProgramOver, addr: u64, privilege: u8) -> bool
    ensures { result ≡ retires_at (words_of program.now addr) privilege }
{
    let is_level = is_privilege(u64::from(privilege));
    match program.at(addr) {
        Some((class, _)) => is_level && may_retire_at(class, privilege),
        None => is_level,
    }
}

/// The privileges that the word at an address may retire at, if there is one.
fn privileges_text(program: &ProgramOver, addr: u64) -> &'static str
    ensures { result.now ≡ word_privileges_text (words_of program.now addr) }
{
    match program.at(addr) {
        Some((Class::TrapReturn(Return::Mret), _)) => "3",
        Some((Class::TrapReturn(Return::Sret), _)) => "1 or 3",
        _ => "0, 1 or 3",
    }
}
