//! What a decoder remembers, as numbers.

ghost use Rattle.std.specs.Prelude.{◌≡◌, ◌↔◌, IfSome, IsTrue, Some};
ghost use Rattle.decoder.specs.declared.state.DecoderState.{DecoderState as AnyState};
ghost use Rattle.ffi.specs.DecoderKept.{HasFewOutcomes, IsOfState, delta_waiting, number_of_announced};
ghost use Rattle.ffi.specs.DecoderKept.{number_of_phase, numbers_of_state, outcomes_waiting};
ghost use Rattle.ffi.specs.steps.ReadingDecoders.{announced_in, phase_in, state_in, waiting_in};

use crate::events::{EventNumbers, event_if_any, numbers_if_any};
use crate::numbers::{mode_in, number_of_mode, outcomes_in};
use decoder::{DecoderState, Phase, Waiting};
use payload::{Mode, Outcomes};

/// No packet came.
pub const UNOPENED: u32 = 0;
/// The trace was opened.
pub const RUNNING: u32 = 1;
/// Packets were lost: those that come are passed over until a synchronisation.
pub const PASSING_OVER: u32 = 2;
/// The trace was closed.
pub const CLOSED: u32 = 3;

/// All that a decoder remembers, as numbers. A flag is 0 or 1. What a flag says is absent is 0.
#[repr(C)]
#[derive(Clone, Copy, PartialEq, Eq)]
pub struct DecoderNumbers {
    /// How far the trace has come: [`UNOPENED`], [`RUNNING`], [`PASSING_OVER`] or [`CLOSED`].
    pub phase: u32,
    /// What address fields hold: [`DIFFERENTIAL`] or [`FULL`](crate::FULL).
    pub mode: u32,
    /// The packet that opens the trace came.
    pub is_announced: u32,
    /// The mode that it announced.
    pub announced: u32,
    /// There is a last event.
    pub has_last: u32,
    /// An address packet waits for the one that follows it.
    pub waits: u32,
    /// How many outcomes of branches it has, 0 to 31.
    pub outcomes: u32,
    /// These outcomes, the oldest in the lowest bit. A taken branch is 0.
    pub map: u32,
    /// What its address field holds.
    pub delta: u64,
    /// The last reported address; 0 before the first.
    pub reported: u64,
    /// The last event.
    pub last: EventNumbers,
}

/// The numbers of a state.
#[inline(always)]
pub(crate) fn numbers_of_state(state: &DecoderState) -> DecoderNumbers
    ensures { IsOfState result state.now }
{
    let outcomes = outcomes_waiting(&state.waiting);
    DecoderNumbers {
        phase: number_of_phase(state.phase),
        mode: number_of_mode(state.mode),
        is_announced: u32::from(state.announced.is_some()),
        announced: number_of_announced(state.announced),
        has_last: u32::from(state.last.is_some()),
        waits: u32::from(state.waiting.is_some()),
        outcomes: outcomes.len() as u32,
        map: outcomes.map(),
        delta: delta_waiting(&state.waiting),
        reported: state.reported,
        last: numbers_if_any(&state.last),
    }
}

/// The number of a phase.
fn number_of_phase(phase: Phase) -> u32
    ensures { result ≡ number_of_phase phase }
{
    match phase {
        Phase::Unopened => UNOPENED,
        Phase::Running => RUNNING,
        Phase::PassingOver => PASSING_OVER,
        Phase::Closed => CLOSED,
    }
}

/// The number of the mode that was announced, if one was.
fn number_of_announced(announced: Option<Mode>) -> u32
    ensures { result ≡ number_of_announced announced }
{
    match announced {
        Some(mode) => number_of_mode(mode),
        None => 0,
    }
}

/// The outcomes of the packet that waits, if one does.
fn outcomes_waiting(waiting: &Option<Waiting>) -> Outcomes
    ensures { result ≡ outcomes_waiting waiting.now }
{
    match waiting {
        Some(waiting) => waiting.outcomes,
        None => Outcomes::new(),
    }
}

/// What the address field of the packet holds that waits, if one does.
fn delta_waiting(waiting: &Option<Waiting>) -> u64
    ensures { result ≡ delta_waiting waiting.now }
{
    match waiting {
        Some(waiting) => waiting.delta,
        None => 0,
    }
}

/// The state that has these numbers, if there is one.
#[inline(always)]
pub(crate) fn state_of(numbers: &DecoderNumbers) -> Option<DecoderState>
    ensures found { IfSome result (λ state. IsOfState numbers.now state) }
    ensures only { (state : AnyState) → IsOfState numbers.now state → result ≡ Some state }
{
    let state = state_in(numbers);
    if has_numbers(&state, numbers) {
        Some(state)
    } else {
        None
    }
}

/// Whether a state has these numbers.
#[inline(always)]
fn has_numbers(state: &DecoderState, numbers: &DecoderNumbers) -> bool
    ensures value { IsTrue result ↔ (numbers.now ≡ numbers_of_state state.now) }
    ensures few { HasFewOutcomes state.now }
{
    numbers_of_state(state) == *numbers
}

/// A state that has these numbers, if any has.
#[inline(always)]
fn state_in(numbers: &DecoderNumbers) -> DecoderState
    ensures { result ≡ state_in numbers.now }
{
    DecoderState {
        phase: phase_in(numbers.phase),
        waiting: waiting_in(numbers),
        last: event_if_any(numbers.has_last, &numbers.last),
        mode: mode_in(numbers.mode),
        announced: announced_in(numbers),
        reported: numbers.reported,
    }
}

/// The phase that has this number, if any has.
fn phase_in(number: u32) -> Phase
    ensures { result ≡ phase_in number }
{
    match number {
        UNOPENED => Phase::Unopened,
        RUNNING => Phase::Running,
        PASSING_OVER => Phase::PassingOver,
        _ => Phase::Closed,
    }
}

/// The mode that was announced, if one was.
fn announced_in(numbers: &DecoderNumbers) -> Option<Mode>
    ensures { result ≡ announced_in numbers.now }
{
    match numbers.is_announced {
        0 => None,
        _ => Some(mode_in(numbers.announced)),
    }
}

/// The packet that waits, if one does.
fn waiting_in(numbers: &DecoderNumbers) -> Option<Waiting>
    ensures { result ≡ waiting_in numbers.now }
{
    match numbers.waits {
        0 => None,
        _ => Some(Waiting {
            outcomes: outcomes_in(numbers.outcomes, numbers.map),
            delta: numbers.delta,
        }),
    }
}
