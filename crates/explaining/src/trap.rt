//! Why a trap is illegal, as text.

ghost use Rattle.std.specs.Prelude.{Some};
ghost use Rattle.explaining.specs.Explanation.{trap_line};

use crate::line::{PlaceLine, PrivilegeLine};
use crate::standing::Standing;
use isa::is_privilege;
use legalpath::Why;
use retire::Event;
use rvclass::ProgramOver;
use std::fmt;
use std::fmt::Display;

/// Why a trap is illegal.
#[derive(Clone, Copy)]
pub(crate) struct TrapLine<'a> {
    pub(crate) program: &'a ProgramOver<'a>,
    pub(crate) before: Option<Event>,
    pub(crate) privilege: u8,
    pub(crate) interrupt: bool,
    pub(crate) cause: u8,
    pub(crate) epc: u64,
    pub(crate) tval: u64,
    pub(crate) why: Why,
}

impl fmt::Display for TrapLine<'_> {
    ghost output = { λ text. Some (trap_line text.program.now text.before text.privilege text.interrupt text.cause
        text.epc text.tval text.why) };

    fn fmt<W: fmt::Write>(&self, f: &mut fmt::Formatter<W>) -> fmt::Result {
        let program = self.program;
        let before = self.before;
        let event = Event::Trap {
            privilege: self.privilege,
            interrupt: self.interrupt,
            cause: self.cause,
            epc: self.epc,
            tval: self.tval,
        };
        let standing = Standing { program, event };
        match self.why {
            Why::WrongType => {
                if self.cause < 64 {
                    write!(f, "{standing}: its value is 0")
                } else {
                    write!(f, "{standing}: its cause is at most 3f")
                }
            }
            Why::WrongPrivilege => {
                if is_privilege(u64::from(self.privilege)) {
                    let line = PrivilegeLine {
                        program,
                        before,
                        privilege: self.privilege,
                    };
                    line.fmt(f)
                } else {
                    write!(f, "{standing}: its privilege is 0, 1 or 3")
                }
            }
            Why::WrongEpc => {
                if self.epc.is_multiple_of(2) {
                    let line = PlaceLine {
                        program,
                        before,
                        place: self.epc,
                    };
                    line.fmt(f)
                } else {
                    write!(f, "{standing}: its address is even")
                }
            }
            Why::OffProgram | Why::NotRetirable | Why::WrongNext => standing.fmt(f),
        }
    }
}
