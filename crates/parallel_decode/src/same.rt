//! Whether the states of two decoders are one.

ghost use Rattle.std.specs.Prelude.{◌≡◌, IsTrue};

use decoder::{DecoderState, Phase};
use payload::Mode;
use retire::Event;

/// Whether this state is the other one, where both are behind a retirement and no packet waits. Else the answer is no.
pub(crate) fn is_state(one: &DecoderState, other: &DecoderState) -> bool
    ensures { IsTrue result → one.now ≡ other.now }
{
    if !are_running(one.phase, other.phase) || one.waiting.is_some() || other.waiting.is_some() {
        return false;
    }
    if !is_mode(one.mode, other.mode) || !is_announced(one.announced, other.announced) {
        return false;
    }
    one.reported == other.reported && is_retirement(&one.last, &other.last)
}

/// Whether both traces were opened, and go on.
fn are_running(one: Phase, other: Phase) -> bool
    ensures { IsTrue result → one ≡ other }
{
    match (one, other) {
        (Phase::Running, Phase::Running) => true,
        _ => false,
    }
}

/// Whether this is the other mode.
fn is_mode(one: Mode, other: Mode) -> bool
    ensures { IsTrue result → one ≡ other }
{
    match (one, other) {
        (Mode::Differential, Mode::Differential) => true,
        (Mode::Full, Mode::Full) => true,
        _ => false,
    }
}

/// Whether the same mode was announced.
fn is_announced(one: Option<Mode>, other: Option<Mode>) -> bool
    ensures { IsTrue result → one ≡ other }
{
    match (one, other) {
        (Some(one), Some(other)) => is_mode(one, other),
        _ => false,
    }
}

/// Whether both are the same retirement.
fn is_retirement(one: &Option<Event>, other: &Option<Event>) -> bool
    ensures { IsTrue result → one.now ≡ other.now }
{
    let Some(
        Event::Retire {
            addr,
            itype,
            privilege,
        },
    ) = one
    else {
        return false;
    };
    let Some(
        Event::Retire {
            addr: other_addr,
            itype: other_itype,
            privilege: other_privilege,
        },
    ) = other
    else {
        return false;
    };
    *addr == *other_addr && (*itype == *other_itype && *privilege == *other_privilege)
}
