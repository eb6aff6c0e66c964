//! The packets of an event by its rule.

ghost use Rattle.std.specs.Prelude.{◌≡◌, [], ◌∷◌, ◌<◌, Bool, List};
ghost use Rattle.std.specs.Option.{option_to_list};
ghost use Rattle.retire.specs.Events.{place};
ghost use Rattle.payload.specs.AddressField.{delta};
ghost use Rattle.encoder.specs.Packets.{reported_by, trap_packet};
ghost use Rattle.encoder.specs.steps.Stepping.{packets_by, handler_packet};

use crate::rule::Rule;
use payload::{Mode, Outcomes, Packet, Report};
use retire::Event;

/// The packet of an event by its rule, with these outcomes, in this mode and after this last reported address. A
/// handler has none, since the packet of its trap reports it.
pub fn packet_by(
    rule: Rule,
    held: &Event,
    outcomes: &Outcomes,
    mode: Mode,
    reported: u64,
) -> Option<Packet>
    ensures { option_to_list result ≡ packets_by rule held.now outcomes.now mode reported }
{
    match rule {
        Rule::Trap { .. } => Some(trap_packet(held, false, held.privilege(), false, held.place())),
        Rule::Handler => None,
        Rule::Sync => Some(Packet::Sync {
            taken: held.is_taken(),
            privilege: held.privilege(),
            address: held.place(),
        }),
        Rule::Target { cut_off: true } => {
            Some(address(held, outcomes, mode, reported, Report::Updiscon))
        }
        Rule::Target { cut_off: false } | Rule::Explicit => {
            Some(address(held, outcomes, mode, reported, Report::Plain))
        }
        Rule::Notify => Some(address(held, outcomes, mode, reported, Report::Notify)),
        Rule::MapOrNothing => Some(Packet::Map(*outcomes)),
    }
}

/// The packet of a trap and its handler.
pub fn handler_packet(trap: &Event, handler: &Event) -> Packet
    ensures { result ≡ handler_packet trap.now handler.now }
{
    trap_packet(
        trap,
        handler.is_taken(),
        handler.privilege(),
        true,
        handler.place(),
    )
}

/// The last reported address after the packet of an event by its rule. A branch map leaves it as it was.
pub fn reported_by(rule: Rule, reported: u64, held: &Event) -> u64
    ensures { result ≡ reported_by rule reported held.now }
{
    match rule {
        Rule::MapOrNothing => reported,
        _ => held.place(),
    }
}

/// An address packet.
fn address(held: &Event, outcomes: &Outcomes, mode: Mode, reported: u64, report: Report) -> Packet
    ensures { result ≡ Packet.Address outcomes.now (delta mode reported (place held.now)) report }
{
    Packet::Address {
        outcomes: *outcomes,
        delta: mode.delta(reported, held.place()),
        report,
    }
}

/// The packet of a trap, with this branch, privilege, `thaddr` and address. It is asked for no retirement.
fn trap_packet(trap: &Event, taken: bool, privilege: u8, handler: bool, address: u64) -> Packet
    ensures { result ≡ trap_packet trap.now taken privilege handler address }
{
    let (cause, interrupt, tval) = match trap {
        Event::Trap {
            interrupt,
            cause,
            tval,
            ..
        } => (*cause, *interrupt, *tval),
        Event::Retire { .. } => (0, false, 0),
    };
    Packet::Trap {
        taken,
        privilege,
        cause,
        interrupt,
        handler,
        address,
        tval,
    }
}
