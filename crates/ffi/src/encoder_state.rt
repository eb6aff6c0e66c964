//! What an encoder keeps, as numbers.

ghost use Rattle.std.specs.Prelude.{◌≡◌, ◌≤◌, ◌↔◌, IfSome, IsTrue, length};
ghost use Rattle.encoder.specs.declared.state.EncoderState.{EncoderState as AnyState};
ghost use Rattle.payload.specs.Limits.{most_outcomes};
ghost use Rattle.ffi.specs.EncoderKept.{IsOfState, number_of_due, numbers_of_state};
ghost use Rattle.ffi.specs.steps.ReadingStates.{due_in, state_in};

use crate::events::{EventNumbers, event_if_any, numbers_if_any};
use crate::numbers::{mode_in, number_of_mode, outcomes_in};
use encoder::{Due, EncoderState};

/// Nothing, unless what comes next or the event itself calls for a packet.
pub const DUE_NOTHING: u32 = 0;
/// A sync packet.
pub const DUE_SYNC: u32 = 1;
/// An address packet, as the target of an uninferable discontinuity.
pub const DUE_TARGET: u32 = 2;
/// The packet of a trap, with its own address.
pub const DUE_TRAP: u32 = 3;
/// The packet of a trap, with its handler if a retirement comes next.
pub const DUE_TRAP_OR_HANDLER: u32 = 4;
/// Nothing more: the event is a handler, and was reported with its trap.
pub const DUE_HANDLER: u32 = 5;

/// What an encoder keeps between two events, as numbers.
#[repr(C)]
#[derive(Clone, Copy, PartialEq, Eq)]
pub struct EncoderNumbers {
    /// How many retirements come between two periodic syncs: the period less 1.
    pub between: u16,
    /// How many retirements come before the next periodic sync.
    pub left: u16,
    /// What the address fields hold: [`DIFFERENTIAL`](crate::DIFFERENTIAL) or [`FULL`](crate::FULL).
    pub mode: u32,
    /// 1 where an event is held back until it is known what follows, and else 0.
    pub holds: u32,
    /// What is due for the held event: [`DUE_NOTHING`] to [`DUE_HANDLER`].
    pub due: u32,
    /// How many outcomes of branches no packet has reported yet, 0 to 31.
    pub outcomes: u32,
    /// These outcomes, the oldest in the lowest bit. A taken branch is 0.
    pub map: u32,
    /// The last reported address; 0 before the first.
    pub reported: u64,
    /// The event that is held back; all its numbers are 0 where none is.
    pub held: EventNumbers,
}

/// The numbers of a state.
#[inline(always)]
pub(crate) fn numbers_of_state(state: &EncoderState) -> EncoderNumbers
    ensures same { result ≡ numbers_of_state state.now }
    ensures few { length state.now.pending ≤ most_outcomes }
{
    EncoderNumbers {
        between: state.between,
        left: state.left,
        mode: number_of_mode(state.mode),
        holds: u32::from(state.held.is_some()),
        due: number_of_due(state.due),
        outcomes: state.pending.len() as u32,
        map: state.pending.map(),
        reported: state.reported,
        held: numbers_if_any(&state.held),
    }
}

/// The state that has these numbers, if there is one.
#[inline(always)]
pub(crate) fn state_of(numbers: &EncoderNumbers) -> Option<EncoderState>
    ensures found { IfSome result (λ state. IsOfState numbers.now state) }
    ensures only { (state : AnyState) → IsOfState numbers.now state → result ≡ Some state }
{
    let state = state_in(numbers);
    if has_numbers(&state, numbers) {
        Some(state)
    } else {
        None
    }
}

/// Whether a state has these numbers.
#[inline(always)]
fn has_numbers(state: &EncoderState, numbers: &EncoderNumbers) -> bool
    ensures value { IsTrue result ↔ (numbers.now ≡ numbers_of_state state.now) }
    ensures few { length state.now.pending ≤ most_outcomes }
{
    numbers_of_state(state) == *numbers
}

/// A state that has these numbers, if any has.
#[inline(always)]
fn state_in(numbers: &EncoderNumbers) -> EncoderState
    ensures { result ≡ state_in numbers.now }
{
    EncoderState {
        between: numbers.between,
        left: numbers.left,
        held: event_if_any(numbers.holds, &numbers.held),
        due: due_in(numbers.due),
        pending: outcomes_in(numbers.outcomes, numbers.map),
        mode: mode_in(numbers.mode),
        reported: numbers.reported,
    }
}

/// The number of what is due.
fn number_of_due(due: Due) -> u32
    ensures { result ≡ number_of_due due }
{
    match due {
        Due::Nothing => DUE_NOTHING,
        Due::Sync => DUE_SYNC,
        Due::Target => DUE_TARGET,
        Due::Trap => DUE_TRAP,
        Due::TrapOrHandler => DUE_TRAP_OR_HANDLER,
        Due::Handler => DUE_HANDLER,
    }
}

/// What is due that has this number, if anything has.
fn due_in(number: u32) -> Due
    ensures { result ≡ due_in number }
{
    match number {
        DUE_NOTHING => Due::Nothing,
        DUE_SYNC => Due::Sync,
        DUE_TARGET => Due::Target,
        DUE_TRAP => Due::Trap,
        DUE_TRAP_OR_HANDLER => Due::TrapOrHandler,
        _ => Due::Handler,
    }
}
