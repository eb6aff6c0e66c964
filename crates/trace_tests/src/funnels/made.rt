//! Payloads of one byte, and what becomes of them.

ghost use Rattle.std.specs.Prelude.{◌≡◌};

use crate::fixtures::message;
use crate::same::same_at;
use funnel::{Outlet, Port, SendFault};
use payload::Payload;
use std::alloc::Allocator;
use std::process::Abort;
use std::sync::Wait;

/// The packet Open.
pub(crate) const OPEN: u8 = 0x1f;

/// The packet EndedRep.
pub(crate) const ENDED: u8 = 0x4f;

/// What becomes of a payload: a word, which is compared as such. Derived traits of a type would each be proved.
pub(crate) type Fate = &'static str;

/// It is sent.
pub(crate) const SENT: Fate = "sent";

/// It comes back, since the port is closed.
pub(crate) const CLOSED: Fate = "closed";

/// It comes back, since the channel handed it back.
pub(crate) const HANDED_BACK: Fate = "handed back";

/// What becomes of a payload of this byte at a port. Where a payload comes back, it is that one.
pub(crate) fn fate_of<A: Allocator, R: Abort + Wait>(rt: &R, port: &mut Port<A>, byte: u8) -> Fate
    ensures { port.new.funnel ≡ port.old.funnel }
{
    let payload = Payload::new(&[byte]).expect(rt, "a payload");
    let (back, fate) = match port.send(rt, payload) {
        Ok(()) => return SENT,
        Err(SendFault::Closed(back)) => (back, CLOSED),
        Err(SendFault::HandedBack(back)) => (back, HANDED_BACK),
    };
    same_at(rt, byte, back.bytes(), [byte].as_slice());
    fate
}

/// A payload of this byte is sent.
pub(crate) fn sends<A: Allocator, R: Abort + Wait>(rt: &R, port: &mut Port<A>, byte: u8)
    ensures { port.new.funnel ≡ port.old.funnel }
{
    same_at(rt, byte, fate_of(rt, port, byte), SENT);
}

/// The next message that is taken is this one.
pub(crate) fn comes<A: Allocator, R: Abort + Wait>(
    rt: &R,
    outlet: &mut Outlet<A>,
    hart: u16,
    number: u64,
    byte: u8,
)
    ensures { outlet.new.funnel ≡ outlet.old.funnel }
{
    let wanted = message(rt, hart, number, &[byte]);
    same_at(rt, (hart, number), outlet.take(rt), Ok(wanted));
}
