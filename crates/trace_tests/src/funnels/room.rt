//! A sender waits while the channel is full.

use super::made::{ENDED, Fate, HANDED_BACK, OPEN, SENT, comes, fate_of};
use crate::same::same_at;
use funnel::{Outlet, Port, open};
use std::process::Abort;
use std::sync::Wait;
use std::sync::atomic::{AtomicBool, Ordering};
use std::thread;
use std::thread::Threads;
use std::time::{Clock, Duration};

// The port and the outlet of a funnel of one hart.
pub(crate) fn ends_of<R: Abort + AllocGlobal>(rt: &R, capacity: u32) -> (Port, Outlet) {
    let (mut ports, outlet) = open(rt.alloc(), 1, capacity).expect(rt, "a funnel");
    (ports.pop().expect(rt, "a port"), outlet)
}

// Sends this many payloads, which fill the channel. What becomes of them is not asked: where the sender's thread is
// slow to start, the outlet may have been dropped.
pub(crate) fn fill<R: Abort + Wait>(rt: &R, port: &mut Port, capacity: u32) {
    for _ in 0..capacity {
        fate_of(rt, port, OPEN);
    }
}

// Fills the channel, sends the closing payload, ends the test unless this becomes of it, and raises the flag.
fn send_all<R: Abort + Wait>(
    rt: &R,
    mut port: Port,
    capacity: u32,
    wanted: Fate,
    flag: &AtomicBool,
) {
    fill(rt, &mut port, capacity);
    same_at(rt, capacity, fate_of(rt, &mut port, ENDED), wanted);
    flag.store(true, Ordering::SeqCst);
}

// The flag is down at each of 100 looks, a millisecond apart.
fn stays_down<R: Abort + Clock>(rt: &R, flag: &AtomicBool) {
    for look in 0..100 {
        same_at(rt, look, flag.load(Ordering::SeqCst), false);
        thread::sleep(rt, Duration::from_millis(1));
    }
}

// Lets a waiting sender go on: takes a message where its payload is to be sent, or else drops the outlet.
fn let_go<R: Abort + Wait>(rt: &R, mut outlet: Outlet, wanted: Fate) -> Option<Outlet> {
    if wanted == HANDED_BACK {
        return None;
    }
    comes(rt, &mut outlet, 0, 0, OPEN);
    Some(outlet)
}

// The messages after the first one come, that with the closing payload last.
fn comes_whole<R: Abort + Wait>(rt: &R, mut outlet: Outlet, capacity: u32) {
    let last = u64::from(capacity);
    for number in 1..last {
        comes(rt, &mut outlet, 0, number, OPEN);
    }
    comes(rt, &mut outlet, 0, last, ENDED);
}

// A sender that fills the channel waits with its closing payload until it is let go, and then this becomes of the
// payload. The scope ends when the sender does.
fn is_held<R: Abort + AllocGlobal + Clock + Threads + Wait + Sync>(
    rt: &R,
    capacity: u32,
    wanted: Fate,
) {
    let (port, outlet) = ends_of(rt, capacity);
    let flag = AtomicBool::new(false);
    let raised = &flag;
    let left = thread::scope(thread::scope_env(), rt, move |scope| {
        let _ = scope.spawn(move || send_all(rt, port, capacity, wanted, raised));
        stays_down(rt, raised);
        let_go(rt, outlet, wanted)
    });
    same_at(rt, capacity, flag.load(Ordering::SeqCst), true);
    if let Some(outlet) = left {
        comes_whole(rt, outlet, capacity);
    }
}

/// One place is enough for a sender that waits. Where the outlet is dropped, it gets its payload back.
#[test]
fn a_full_channel_holds_a_sender(rt: HostRuntime) {
    for (capacity, wanted) in [(1, SENT), (8, SENT), (8, HANDED_BACK)] {
        is_held(&rt, capacity, wanted);
    }
}
