//! A worker for each hart, which sends.

ghost use Rattle.std.specs.Prelude.{◌≡◌, All};

use super::made::{ENDED, OPEN, sends};
use crate::same::same_at;
use funnel::{Ended, Outlet, Port, Receipt, open};
use message::Message;
use std::process::Abort;
use std::snapshot::Snapshot;
use std::sync::Wait;
use std::thread;
use std::thread::{Promise, PromisedHandle, Scope, Threads};

// What a worker promises: a receipt of its port's funnel.
#[derive(Drop)]
struct Sending(Snapshot<Port>);

impl Promise<Receipt> for Sending {
    ghost kept_by = { λ promise receipt. receipt.funnel ≡ promise.0.value.funnel };
}

type Worker = PromisedHandle<Receipt, Sending>;

// Sends this many payloads, none of them closing.
pub(crate) fn send_open<R: Abort + Wait>(rt: &R, port: &mut Port, count: u64)
    ensures { port.new.funnel ≡ port.old.funnel }
{
    for _ in 0..count {
        sends(rt, port, OPEN);
    }
}

// Sends this many payloads; the last one alone is closing.
fn send_all<R: Abort + Wait>(rt: &R, mut port: Port, count: u64) -> Receipt
    ensures { result.funnel ≡ port.funnel }
{
    send_open(rt, &mut port, count.saturating_sub(1));
    sends(rt, &mut port, ENDED);
    port.finish()
}

// Starts a worker.
fn start<'s, E, R: Abort + Wait + Sync>(
    scope: &Scope<'s, E>,
    rt: &'s R,
    port: Port,
    count: u64,
) -> Worker
    ensures { result.promise.0.value.funnel ≡ port.funnel }
{
    let promise = Sending(Snapshot::of(&port));
    scope
        .spawn_with(
            promise,
            move || -> Receipt
                ensures { result.funnel ≡ port.funnel }
            { send_all(rt, port, count) },
        )
        .ok()
        .expect(rt, "a thread")
}

// Starts a worker for each port.
fn start_all<'s, E, R: Abort + AllocGlobal + Wait + Sync>(
    scope: &Scope<'s, E>,
    rt: &'s R,
    mut ports: Vec<Port>,
    count: u64,
    outlet: &Outlet,
) -> Vec<Worker>
    requires { All (λ port. port.funnel ≡ outlet.now.funnel) ports.items }
    ensures { All (λ worker. worker.promise.0.value.funnel ≡ outlet.now.funnel) result.items }
{
    let mut workers = Vec::new(rt.alloc());
    while let Some(port) = ports.pop() {
        let worker = start(scope, rt, port, count);
        workers.push(worker).ok().expect(rt, "memory");
    }
    workers
}

// The message is the next of its hart, and closing where it is the last of this count. Where it is not, the failure
// names the capacity and the hart.
fn is_next<R: Abort>(rt: &R, message: &Message, next: &mut [u64; 64], capacity: u32, count: u64) {
    let number = next
        .get_mut(usize::from(message.hart))
        .expect(rt, "one of 64 harts");
    let wanted = *number;
    *number = wanted.saturating_add(1);
    let found = (message.number, message.payload.is_closing());
    same_at(
        rt,
        (capacity, message.hart),
        found,
        (wanted, *number == count),
    );
}

// Whether a message comes, the next of its hart, before the channel ends.
pub(crate) fn take_next<R: Abort + Wait>(
    rt: &R,
    outlet: &mut Outlet,
    next: &mut [u64; 64],
    capacity: u32,
    count: u64,
) -> bool
    ensures { outlet.new.funnel ≡ outlet.old.funnel }
{
    let Ok(message) = outlet.take(rt) else {
        return false;
    };
    is_next(rt, &message, next, capacity, count);
    true
}

// Takes this many messages, each the next of its hart.
fn take_some<R: Abort + Wait>(
    rt: &R,
    outlet: &mut Outlet,
    next: &mut [u64; 64],
    messages: u64,
    capacity: u32,
    count: u64,
)
    ensures { outlet.new.funnel ≡ outlet.old.funnel }
{
    for _ in 0..messages {
        let comes = take_next(rt, outlet, next, capacity, count);
        same_at(rt, (capacity, "the channel ends early"), comes, true);
    }
}

// Joins all workers: each sent this count of payloads, and the outlet returns how many of them were taken.
fn settle_all<R: Abort + Threads>(
    rt: &R,
    mut workers: Vec<Worker>,
    outlet: &mut Outlet,
    next: &[u64; 64],
    capacity: u32,
    count: u64,
)
    requires { All (λ worker. worker.promise.0.value.funnel ≡ outlet.old.funnel) workers.items }
{
    while let Some(worker) = workers.pop() {
        let settled = outlet.settle(worker.join(rt));
        let taken = next.get(usize::from(settled.hart)).copied();
        let found = (settled.sent, Some(settled.taken));
        same_at(rt, (capacity, settled.hart), found, (count, taken));
    }
}

// Starts the workers, takes until this many messages are left, settles the receipts, and takes what is left, which the
// channel can hold. No sending end is left by then, so a lost message shows as the channel's end. Where no messages are
// left, each receipt has to say that all its hart sent was taken.
fn conduct<'s, E, R: Abort + AllocGlobal + Threads + Wait + Sync>(
    scope: &Scope<'s, E>,
    rt: &'s R,
    ports: Vec<Port>,
    mut outlet: Outlet,
    capacity: u32,
    count: u64,
    left: u64,
)
    requires { All (λ port. port.funnel ≡ outlet.funnel) ports.items }
{
    let all = (ports.len() as u64).saturating_mul(count);
    let mut next = [0u64; 64];
    let workers = start_all(scope, rt, ports, count, &outlet);
    let first = all.saturating_sub(left);
    take_some(rt, &mut outlet, &mut next, first, capacity, count);
    let taken = if left == 0 { [count; 64] } else { next };
    settle_all(rt, workers, &mut outlet, &taken, capacity, count);
    take_some(rt, &mut outlet, &mut next, left, capacity, count);
    same_at(rt, (capacity, "the end"), outlet.take(rt), Err(Ended));
}

// All that the workers of these harts send is taken in order, their receipts say so while this many messages are left,
// and then the channel ends.
pub(crate) fn is_settled<R: Abort + AllocGlobal + Threads + Wait + Sync>(
    rt: &R,
    harts: u16,
    capacity: u32,
    count: u64,
    left: u64,
) {
    let (ports, outlet) = open(rt.alloc(), harts, capacity).expect(rt, "a funnel");
    thread::scope(
        thread::scope_env(),
        rt,
        move |scope| -> ()
            requires { All (λ port. port.funnel ≡ outlet.funnel) ports.items }
        { conduct(scope, rt, ports, outlet, capacity, count, left) },
    )
}

// How many harts send, the capacity, how many payloads each hart sends, and how many messages are left: those that fill
// the channel; none, where each of the two receipts says that 1,000 were sent and 1,000 taken; those that fill it, where
// a port sends more than 131,072, and more than in any other test.
const WORKED: [(u16, u32, u64, u64); 3] = [
    (2, 1, 1_000, 1),
    (2, 1, 1_000, 0),
    (1, 1_024, 131_074, 1_024),
];

#[test]
fn workers_are_settled(rt: HostRuntime) {
    for (harts, capacity, count, left) in WORKED {
        is_settled(&rt, harts, capacity, count, left);
    }
}
