//! The phases over a funnel: messages that are sent and taken.

use crate::fault::Fault;
use crate::least::{Phase, RUNS, nanos};
use crossbeam_channel::bounded_with;
use crossbeam_channel::protocol::{Lesson, Outcome, Protocol};
use funnel::{Outlet, Port, open};
use message::Message;
use payload::{PackFault, Payload};
use std::alloc::{AllocError, Global};
use std::rt::Clock;
use std::sync::Wait;
use std::thread;
use std::thread::{Scope, Threads};

/// How many messages are sent and taken in one thread.
pub(crate) const IN_ONE_THREAD: u64 = 100_000;

/// How many messages the channel holds in one thread.
const ROOM: u32 = 1024;

/// How many messages go through a funnel with a capacity of 1, and with a greater one.
const FEW: u64 = 6_400;

const MANY: u64 = 64_000;

/// The funnels with senders in threads of their own: a name, how many harts send, the capacity, and how many messages all
/// harts send.
pub(crate) const FUNNELS: [(&str, u16, u32, u64); 9] = [
    ("funnel 1, 1", 1, 1, FEW),
    ("funnel 4, 1", 4, 1, FEW),
    ("funnel 64, 1", 64, 1, FEW),
    ("funnel 1, 16", 1, 16, MANY),
    ("funnel 4, 16", 4, 16, MANY),
    ("funnel 64, 16", 64, 16, MANY),
    ("funnel 1, 1024", 1, 1024, MANY),
    ("funnel 4, 1024", 4, 1024, MANY),
    ("funnel 64, 1024", 64, 1024, MANY),
];

/// A payload of an address packet.
fn payload() -> Result<Payload, PackFault> {
    Payload::new(&[0x06, 0x00, 0x10])
}

/// Messages that are each sent and then taken, in one thread.
#[derive(Drop)]
pub(crate) struct OneThread<'a, R> {
    pub(crate) rt: &'a R,
    pub(crate) alloc: Global,
    /// Whether they go through a bare channel and not through a funnel.
    pub(crate) bare: bool,
}

impl<R: Wait> Phase for OneThread<'_, R> {
    fn run(&mut self) -> Result<u64, Fault> {
        let (rt, alloc) = (self.rt, self.alloc);
        if !self.bare {
            return in_one_thread(rt, alloc, IN_ONE_THREAD);
        }
        match through_a_channel(rt, alloc, IN_ONE_THREAD) {
            Ok(taken) => Ok(taken),
            Err(_) => Err(Fault::Memory),
        }
    }
}

/// How many of these messages are sent and then taken, one after the other.
fn in_one_thread<R: Wait>(rt: &R, alloc: Global, messages: u64) -> Result<u64, Fault> {
    let Ok((mut ports, mut outlet)) = open(alloc, 1, ROOM) else {
        return Err(Fault::Memory);
    };
    match ports.pop() {
        Some(mut port) => Ok(in_turn(rt, &mut port, &mut outlet, messages)),
        None => Err(Fault::Memory),
    }
}

/// The same through this port.
fn in_turn<R: Wait>(rt: &R, port: &mut Port, outlet: &mut Outlet, messages: u64) -> u64 {
    let mut taken = 0u64;
    for _ in 0..messages {
        let Ok(payload) = payload() else {
            break;
        };
        if port.send(rt, payload).is_err() || outlet.take(rt).is_err() {
            break;
        }
        taken = taken.wrapping_add(1);
    }
    taken
}

/// A rule that holds of every channel.
pub(crate) struct Anything;

impl Protocol<Message, ()> for Anything {
    ghost holds = { λ queue views. Unit {0} };

    ghost first = { tt };
}

impl Outcome<Message, ()> for Anything {
    ghost then = { λ before message after. Unit {0} };
}

impl Lesson<Message, ()> for Anything {
    ghost fact = { λ view queue. Unit {0} };
}

/// How many of these messages are sent and then taken on a bare channel.
fn through_a_channel<R: Wait>(rt: &R, alloc: Global, messages: u64) -> Result<u64, AllocError> {
    let (sender, receiver, mut pass) = bounded_with::<Message, (), Anything, Global>(
        alloc,
        ROOM as usize,
    )?;
    let mut taken = 0u64;
    for number in 0..messages {
        let Ok(payload) = payload() else {
            break;
        };
        let message = Message {
            hart: 0,
            number,
            payload,
        };
        if sender
            .send_as::<Anything, R>(rt, &mut pass, message)
            .is_err()
            || receiver.recv_as::<Anything, R>(rt, &mut pass).is_err()
        {
            break;
        }
        taken = taken.wrapping_add(1);
    }
    Ok(taken)
}

/// The least time of several runs of a funnel in nanoseconds, where each hart sends in a thread of its own, and how many
/// messages the last one took.
pub(crate) fn least_over_threads<R: Clock + AllocGlobal + Threads + Wait + Sync>(
    rt: &R,
    harts: u16,
    capacity: u32,
    messages: u64,
) -> Result<(u128, u64), Fault> {
    let mut least = u128::MAX;
    let mut taken = 0;
    for _ in 0..RUNS {
        let start = nanos(rt)?;
        taken = through_a_funnel(rt, harts, capacity, messages)?;
        let time = nanos(rt)?.saturating_sub(start);
        least = least.min(time);
    }
    Ok((least, taken))
}

/// How many of these messages are taken, of which each hart sends its share in a thread of its own.
fn through_a_funnel<R: AllocGlobal + Threads + Wait + Sync>(
    rt: &R,
    harts: u16,
    capacity: u32,
    messages: u64,
) -> Result<u64, Fault> {
    let each = messages / u64::from(harts.max(1));
    match open(rt.alloc(), harts, capacity) {
        Ok((ports, outlet)) => Ok(through_threads(rt, ports, outlet, each)),
        Err(_) => Err(Fault::Memory),
    }
}

/// Starts a thread for each port, and takes to the end.
fn through_threads<R: Threads + Wait + Sync>(
    rt: &R,
    ports: Vec<Port>,
    mut outlet: Outlet,
    each: u64,
) -> u64 {
    thread::scope(thread::scope_env(), rt, move |scope| {
        for port in ports {
            start(scope, rt, port, each);
        }
        take_to_the_end(rt, &mut outlet)
    })
}

/// Starts a thread that sends this many messages through a port.
fn start<'s, E, R: Wait + Sync>(scope: &Scope<'s, E>, rt: &'s R, port: Port, count: u64) {
    let _ = scope.spawn(move || send(rt, port, count));
}

/// Sends this many messages.
fn send<R: Wait>(rt: &R, mut port: Port, count: u64) {
    for _ in 0..count {
        let Ok(payload) = payload() else {
            break;
        };
        if port.send(rt, payload).is_err() {
            break;
        }
    }
}

/// How many messages come before the channel ends.
fn take_to_the_end<R: Wait>(rt: &R, outlet: &mut Outlet) -> u64 {
    let mut taken = 0u64;
    for _ in rt.forever() {
        if outlet.take(rt).is_err() {
            break;
        }
        taken = taken.wrapping_add(1);
    }
    taken
}
