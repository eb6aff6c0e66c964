//! What a decoder remembers of a packet that it took.

ghost use Rattle.std.specs.Prelude.{◌≡◌, Some};
ghost use Rattle.decoder.specs.steps.Planning.{mode_past, announced_past, reported_past};
ghost use Rattle.decoder.specs.DecoderStands.{phase_after, waiting_after};

use crate::settling::Waiting;
use crate::state::Phase;
use payload::{Mode, Packet, Report, Support};

/// The phase after a packet.
pub(crate) fn phase_after(packet: &Packet) -> Phase
    ensures { result ≡ phase_after (Some packet.now) }
{
    if packet.is_closing() {
        Phase::Closed
    } else {
        Phase::Running
    }
}

/// What waits after a packet.
pub(crate) fn waiting_after(packet: &Packet) -> Option<Waiting>
    ensures { result ≡ waiting_after (Some packet.now) }
{
    match packet {
        Packet::Address {
            outcomes,
            delta,
            report: Report::Plain,
        } => Some(Waiting {
            outcomes: *outcomes,
            delta: *delta,
        }),
        _ => None,
    }
}

/// The mode after a packet: the one that it announces, where it opens a trace, or else this one.
pub(crate) fn mode_past(packet: &Packet, mode: Mode) -> Mode
    ensures { result ≡ mode_past packet.now mode }
{
    match packet {
        Packet::Support(Support::Open(announced)) => *announced,
        _ => mode,
    }
}

/// The announced mode after a packet: the one that it announces, where it opens the trace, or else the one that was
/// announced before, if one was.
pub(crate) fn announced_past(packet: &Packet, announced: Option<Mode>) -> Option<Mode>
    ensures { result ≡ announced_past packet.now announced }
{
    match packet {
        Packet::Support(Support::Open(mode)) => Some(*mode),
        _ => announced,
    }
}

/// The last reported address after a packet, where this is the place of its last event.
pub(crate) fn reported_past(packet: &Packet, reported: u64, at: u64) -> u64
    ensures { result ≡ reported_past packet.now reported at }
{
    match packet {
        Packet::Map(_) => reported,
        _ => at,
    }
}
