//! Which events give no packet, so that the encoder passes over them.

ghost use Rattle.std.specs.Prelude.{◌≡◌};
ghost use Rattle.retire.specs.Is64Bit.{Is64Bit};
ghost use Rattle.rvclass.specs.Fetch.{words_of};
ghost use Rattle.encoder.specs.steps.Stepping.{passes};

use crate::due::is_discontinuity;
use crate::rule::jumps_back;
use payload::{MOST_OUTCOMES, Outcomes};
use retire::Event;
use rvclass::ProgramOver;

/// Whether the event `next` gives no packet, and nothing is due for it. It comes after the event `held`, for which
/// nothing is due. `left` retirements come before the next periodic sync. No packet has reported the outcomes in
/// `pending`.
#[inline(always)]
pub fn passes(
    program: &ProgramOver,
    held: &Event,
    left: u16,
    pending: &Outcomes,
    next: Event,
) -> bool
    ensures value { result ≡ passes (words_of program.now) held.now left pending.now next }
    ensures numbers { Is64Bit next }
{
    match next {
        Event::Retire { privilege, .. } => match held {
            Event::Retire {
                itype,
                privilege: level,
                ..
            } => {
                privilege == *level
                    && left != 0
                    && !is_discontinuity(*itype)
                    && pending.len() < MOST_OUTCOMES
                    && !jumps_back(program, held, &next)
            }
            Event::Trap { .. } => false,
        },
        Event::Trap { .. } => false,
    }
}
