//! Where an event leads.

ghost use Rattle.std.specs.Prelude.{◌≡◌, ◌+◌, ◌^◌, ◌<◌};
ghost use Rattle.rvclass.specs.Fetch.{words_of};
ghost use Rattle.legalpath.specs.Successor as path;

use retire::{Event, ITYPE_TAKEN};
use rvclass::{Class, ProgramOver};

/// Where the event after another may be.
#[derive(Clone, Copy)]
pub enum Next {
    /// At this address alone.
    One(u64),
    /// Anywhere: at any instruction of the program, and at any even exception program counter.
    Any,
    /// Nowhere, since the event itself is off the program or does not retire.
    NoneInside,
}

/// Where an event leads: to one address after a plain instruction, a jump, or a branch, which was taken if and only if
/// the type is 5; anywhere after an uninferable discontinuity or a trap; and nowhere where the event itself is off the
/// program or does not retire.
#[inline]
pub fn successor(program: &ProgramOver, event: &Event) -> Next
    ensures { result ≡ path.successor (words_of program.now) event.now }
{
    match *event {
        Event::Retire { addr, itype, .. } => match program.at(addr) {
            Some((class, length)) => leads(addr, itype, class, length),
            None => Next::NoneInside,
        },
        Event::Trap { .. } => Next::Any,
    }
}

/// Where a retirement of a type leads from an address, by the class and the length of the instruction there.
#[inline]
pub fn leads(addr: u64, itype: u8, class: Class, length: u8) -> Next
    requires { addr + length < 2 ^ 64 }
    ensures { result ≡ path.leads addr itype class length }
{
    let behind = addr + u64::from(length);
    match class {
        Class::Plain => Next::One(behind),
        Class::Jump(to) => Next::One(to),
        Class::Branch(to) => Next::One(if itype == ITYPE_TAKEN { to } else { behind }),
        Class::Uninferable | Class::TrapReturn(_) => Next::Any,
        Class::NotRetirable => Next::NoneInside,
    }
}
