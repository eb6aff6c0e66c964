//! The channel in one thread: two ports, the outlet, and what becomes of ends that are dropped.

ghost use Rattle.std.specs.Option.{ForSome};
ghost use Rattle.std.specs.Prelude.{◌≡◌};

use crate::messages::put_message;
use cases::{Case, bytes_of, payload_of};
use funnel::{Ended, Outlet, Port, Receipt, SendFault, open};
use payload::Payload;
use std::sync::Wait;

/// The ends of a channel of two harts, but for those that were dropped.
#[derive(Drop)]
pub(crate) struct Ends {
    first: Option<Port>,
    second: Option<Port>,
    outlet: Option<Outlet>,
    /// How many messages more the channel holds, and how many wait in it.
    space: u64,
    waiting: u64,
    ghost one: { ForSome outlet (λ outlet.
        ForSome first (λ port. port.funnel ≡ outlet.funnel) × ForSome second (λ port. port.funnel ≡ outlet.funnel)) },
}

/// `channel CAPACITY`: a new channel of two harts.
pub(crate) fn opened(case: &Case) -> Option<Ends> {
    let digits = case.text();
    let capacity = case.decimal(digits).min(1 << 16) as u32;
    case.sets();
    let Ok((mut ports, outlet)) = open(case.alloc, 2, capacity) else {
        case.unread();
        return None;
    };
    let second = ports.pop();
    let first = ports.pop();
    Some(Ends {
        first,
        second,
        outlet: Some(outlet),
        space: u64::from(capacity),
        waiting: 0,
    })
}

/// Takes out the port of a hart.
fn port_of(ends: &mut Ends, hart: &str) -> Option<Port>
    ensures { ForSome ends.new.outlet (λ outlet. ForSome result (λ port. port.funnel ≡ outlet.funnel)) }
{
    match hart {
        "0" => ends.first.take(),
        _ => ends.second.take(),
    }
}

/// Puts the port of a hart back.
fn put_back(ends: &mut Ends, hart: &str, port: Port)
    requires { ForSome ends.old.outlet (λ outlet. port.funnel ≡ outlet.funnel) }
{
    match hart {
        "0" => ends.first = Some(port),
        _ => ends.second = Some(port),
    }
}

/// Sends a payload, and appends that it is sent, or why it comes back and what comes back. Returns whether it is sent.
fn is_sent<R: Wait>(case: &Case, rt: &R, port: &mut Port, payload: Payload) -> bool
    ensures { port.new.funnel ≡ port.old.funnel }
{
    let (why, back) = match port.send(rt, payload) {
        Ok(()) => {
            case.put_part("sent");
            return true;
        }
        Err(SendFault::Closed(back)) => ("closed", back),
        Err(SendFault::HandedBack(back)) => ("handed back", back),
    };
    case.put_part(why);
    case.put_bytes(back.bytes());
    false
}

/// `send HART BYTES`: whether a payload is sent, or why it comes back, with what comes back.
fn send<R: Wait>(case: &Case, rt: &R, ends: &mut Ends) {
    let (hart, digits) = (case.word(), case.text());
    let bytes = bytes_of(case, digits);
    let Some(payload) = payload_of(case, bytes.as_slice()) else {
        return;
    };
    if ends.space == 0 && ends.outlet.is_some() {
        return case.put_part("would wait");
    }
    let Some(mut port) = port_of(ends, hart) else {
        return case.unread();
    };
    let sent = is_sent(case, rt, &mut port, payload);
    put_back(ends, hart, port);
    ends.space = ends.space.saturating_sub(u64::from(sent));
    ends.waiting = ends.waiting.saturating_add(u64::from(sent));
}

/// `receive`: the oldest message, or that the channel has ended.
fn receive<R: Wait>(case: &Case, rt: &R, ends: &mut Ends) {
    let is_left = ends.first.is_some() || ends.second.is_some();
    let Some(outlet) = &mut ends.outlet else {
        return case.unread();
    };
    if ends.waiting == 0 && is_left {
        return case.put_part("would wait");
    }
    match outlet.take(rt) {
        Ok(message) => {
            ends.space = ends.space.saturating_add(1);
            ends.waiting = ends.waiting.saturating_sub(1);
            put_message(case, &message);
        }
        Err(Ended) => case.put_part("ended"),
    }
}

/// Settles a receipt, and appends of which hart it is, how many messages were sent, and how many were received.
fn put_settled(case: &Case, outlet: &mut Outlet, receipt: Receipt)
    requires { receipt.funnel ≡ outlet.old.funnel }
    ensures { outlet.new.funnel ≡ outlet.old.funnel }
{
    let settled = outlet.settle(receipt);
    let numbers = [u64::from(settled.hart), settled.sent, settled.taken];
    case.put_filled("hart # sent #, received #", &numbers);
}

/// Ends a port, and settles its receipt where the verb says so, or drops it.
fn end_port(case: &Case, ends: &mut Ends, verb: &str, port: Port)
    requires { ForSome ends.old.outlet (λ outlet. port.funnel ≡ outlet.funnel) }
{
    let Some(outlet) = &mut ends.outlet else {
        return case.unread();
    };
    let receipt = port.finish();
    if verb == "settle" {
        put_settled(case, outlet, receipt);
    }
}

/// `settle HART`: the port finishes, and its receipt says of which hart it is, how many messages were sent, and how many
/// were received. `finish HART`: the port finishes, and its receipt is dropped.
fn finish(case: &Case, ends: &mut Ends, verb: &str) {
    let hart = case.word();
    match port_of(ends, hart) {
        Some(port) => end_port(case, ends, verb, port),
        None => case.unread(),
    }
}

/// `drop END`: the port of a hart, or the outlet, is dropped.
fn leave(case: &Case, ends: &mut Ends) {
    match case.word() {
        "outlet" => ends.outlet = None,
        hart => drop(port_of(ends, hart)),
    }
}

/// Does what a verb says with the ends of the channel.
pub(crate) fn answer<R: Wait>(case: &Case, rt: &R, ends: &mut Option<Ends>, verb: &str) {
    let Some(ends) = ends.as_mut() else {
        return case.unread();
    };
    match verb {
        "send" => send(case, rt, ends),
        "receive" => receive(case, rt, ends),
        "drop" => leave(case, ends),
        _ => finish(case, ends, verb),
    }
}
