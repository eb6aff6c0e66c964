//! The rules by which events are reported.

ghost use Rattle.std.specs.Prelude.{◌≡◌};
ghost use Rattle.rvclass.specs.Fetch.{words_of};
ghost use Rattle.legalpath.specs.Backward.{jumps_back};
ghost use Rattle.encoder.specs.steps.Stepping.{rule_before, rule_at_end, jumps_back_to};

use crate::due::Due;
use retire::{Event, ITYPE_OTHER};
use rvclass::{Class, ProgramOver};

/// By which rule an event is reported.
#[derive(Clone, Copy)]
pub enum Rule {
    /// A trap is reported.
    Trap {
        /// With the retirement after it, its handler.
        handler: bool,
    },
    /// A retirement is reported with the trap before it.
    Handler,
    /// A retirement is reported as a new start.
    Sync,
    /// A retirement is reported as the target of an uninferable discontinuity.
    Target {
        /// A trap or a new start comes next.
        cut_off: bool,
    },
    /// A retirement is reported because a trap, a new start or nothing comes next.
    Explicit,
    /// A retirement is reported as a backward jump.
    Notify,
    /// No other rule applies. The event gives a map where it is the 31st branch since the last cut, and else nothing.
    MapOrNothing,
}

/// The rule of the held event before the next one, which is no handler. `due` is due for the held event, and `after`
/// for the next one.
#[inline]
pub fn rule_before(program: &ProgramOver, held: &Event, due: Due, next: &Event, after: Due) -> Rule
    ensures { result ≡ rule_before (words_of program.now) held.now due next.now after }
{
    match due {
        Due::Nothing => {
            if after.cuts_off() {
                Rule::Explicit
            } else if jumps_back(program, held, next) {
                Rule::Notify
            } else {
                Rule::MapOrNothing
            }
        }
        Due::TrapOrHandler | Due::Trap => Rule::Trap { handler: false },
        Due::Handler => Rule::Handler,
        Due::Sync => Rule::Sync,
        Due::Target => Rule::Target {
            cut_off: after.cuts_off(),
        },
    }
}

/// The rule of the last event of a log, for which `due` is due.
pub fn rule_at_end(due: Due) -> Rule
    ensures { result ≡ rule_at_end due }
{
    match due {
        Due::TrapOrHandler | Due::Trap => Rule::Trap { handler: false },
        Due::Handler => Rule::Handler,
        Due::Sync => Rule::Sync,
        Due::Target => Rule::Target { cut_off: false },
        Due::Nothing => Rule::Explicit,
    }
}

/// Whether an event is a backward jump, where `next` comes next. The instruction is looked at only where the event is a
/// retirement of type 0 and the next event is not at a higher address. Few events are such.
#[inline(always)]
pub fn jumps_back(program: &ProgramOver, event: &Event, next: &Event) -> bool
    ensures { result ≡ jumps_back_to (words_of program.now) event.now next.now }
{
    match event {
        Event::Retire { addr, itype, .. } => {
            *itype == ITYPE_OTHER && next.place() <= *addr && is_backward(program, *addr)
        }
        Event::Trap { .. } => false,
    }
}

/// Whether the instruction at this address, if there is one, jumps to an address that is not greater.
#[inline(never)]
fn is_backward(program: &ProgramOver, addr: u64) -> bool
    ensures { result ≡ jumps_back addr (words_of program.now addr) }
{
    match program.at(addr) {
        Some((Class::Jump(to), _)) => to <= addr,
        _ => false,
    }
}
