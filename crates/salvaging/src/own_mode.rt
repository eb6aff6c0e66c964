//! The mode in which a hart's trace is read.

ghost use Rattle.std.specs.Prelude.{◌≡◌, Ok};
ghost use Rattle.losses.specs.Runs.{mode_or};
ghost use Rattle.payload.specs.Reading.{reading};
ghost use Rattle.salvaging.specs.Leaving.{mode_by, own_mode};
ghost use Rattle.salvaging.specs.steps.Arrivals.{arrivals_in};
ghost use Rattle.salvaging.specs.steps.Grouping.{entries_by};

use crate::entry::Entry;
use crate::grouping::first_entry;
use crate::received::ReceivedMessage;
use message::Message;
use payload::{Mode, Packet, Support, unpack};

/// The mode that a packet announces, if it opens a trace, and else this one.
fn mode_or(mode: Mode, packet: &Packet) -> Mode
    ensures { result ≡ mode_or mode packet.now }
{
    match packet {
        Packet::Support(Support::Open(announced)) => *announced,
        _ => mode,
    }
}

/// The mode that a message announces, if its number is 0 and its packet opens a trace, and else this one.
fn mode_by(mode: Mode, message: &Message) -> Mode
    ensures { result ≡ mode_by message.now.number mode (reading message.now.payload) }
{
    if message.number != 0 {
        return mode;
    }
    match unpack(message.payload.bytes()) {
        Ok(packet) => mode_or(mode, &packet),
        Err(_) => mode,
    }
}

/// The mode in which a hart's trace is read, where this one is handed in. Its messages are in the order of their
/// numbers.
pub(crate) fn own_mode(mode: Mode, came: &[ReceivedMessage<'_>]) -> Mode
    ensures { result ≡ own_mode mode (entries_by (arrivals_in came.now)) }
{
    match first_entry(came) {
        Some((Entry::Used { message, .. }, _)) => mode_by(mode, message),
        _ => mode,
    }
}
