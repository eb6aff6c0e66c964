//! All ports that wait while the funnel is full are called where no message waits, and where the outlet is dropped.
//!
//! As in `waking`, a port that no one calls looks for a free place again by itself, 10 ms later, and the rounds are
//! counted in which every port goes on sooner. Three ports wait in a full funnel. One of them is called at each mark,
//! when half of the funnel is taken and when all of it is. What these two send does not reach a mark, so the third goes
//! on sooner only where it is called since no message waits. A dropped outlet calls all three, or none goes on sooner.

use super::made::{Fate, HANDED_BACK, OPEN, SENT, fate_of};
use super::room::fill;
use super::waking::{CAPACITY, ENOUGH, LONGEST, ROUNDS};
use crate::same::same_at;
use funnel::{Outlet, Port, open};
use std::process::Abort;
use std::sync::Wait;
use std::sync::atomic::{AtomicU64, Ordering};
use std::thread;
use std::thread::Threads;
use std::time::{Clock, Duration, Instant};

/// How many ports wait for all that a funnel holds.
const PORTS: u16 = 3;

/// How many of the ports began to send, and how many went on sooner than a port that no one calls.
#[derive(Drop)]
struct Counts {
    begun: AtomicU64,
    called: AtomicU64,
}

/// Sends a payload through a port that finds the funnel full, and ends the test unless this becomes of it.
fn wait_for_room<R: Abort + Clock + Wait>(rt: &R, mut port: Port, counts: &Counts, wanted: Fate) {
    let start = Instant::now(rt).expect(rt, "a clock");
    counts.begun.fetch_add(1, Ordering::SeqCst);
    same_at(rt, "a port", fate_of(rt, &mut port, OPEN), wanted);
    let waited = start.elapsed(rt).expect(rt, "a clock");
    if waited.as_millis() < LONGEST {
        counts.called.fetch_add(1, Ordering::SeqCst);
    }
}

/// Waits until all ports began to send, and then for as long as they need to fall asleep.
fn all_wait<R: Abort + Clock>(rt: &R, counts: &Counts, ports: u16) {
    for _ in 0..50_000 {
        let begun = counts.begun.load(Ordering::SeqCst);
        thread::sleep(rt, Duration::from_millis(1));
        if begun == u64::from(ports) {
            return;
        }
    }
    panic!(rt; "a port never sends");
}

/// Lets the ports go on: takes so many messages, or drops the outlet where their payloads are to come back.
fn let_go<R: Abort + Wait>(
    rt: &R,
    mut outlet: Outlet,
    messages: u64,
    wanted: Fate,
) -> Option<Outlet> {
    if wanted == HANDED_BACK {
        return None;
    }
    for number in 0..messages {
        same_at(rt, number, outlet.take(rt).is_ok(), true);
    }
    Some(outlet)
}

/// Whether all of so many ports that wait in a full funnel go on sooner than one that no one calls. Ends the test unless
/// this becomes of their payloads.
fn all_are_called<R: Abort + AllocGlobal + Clock + Threads + Wait + Sync>(
    rt: &R,
    waiting: u16,
    messages: u64,
    wanted: Fate,
) -> bool {
    let harts = waiting.saturating_add(1);
    let (mut ports, outlet) = open(rt.alloc(), harts, CAPACITY).expect(rt, "a funnel");
    let mut last = ports.pop().expect(rt, "a port");
    fill(rt, &mut last, CAPACITY);
    let counts = Counts {
        begun: AtomicU64::new(0),
        called: AtomicU64::new(0),
    };
    let noted = &counts;
    // The outlet is there until the ports went on.
    let _left = thread::scope(thread::scope_env(), rt, move |scope| {
        for port in ports {
            let _ = scope.spawn(move || wait_for_room(rt, port, noted, wanted));
        }
        all_wait(rt, noted, waiting);
        let_go(rt, outlet, messages, wanted)
    });
    counts.called.load(Ordering::SeqCst) == u64::from(waiting)
}

/// Ends the test unless all of so many ports that wait are called in enough rounds, where so many messages are taken, or
/// the outlet is dropped.
pub(crate) fn calls_all<R: Abort + AllocGlobal + Clock + Threads + Wait + Sync>(
    rt: &R,
    waiting: u16,
    messages: u64,
    wanted: Fate,
) {
    let mut called = 0u64;
    for _ in 0..ROUNDS {
        if called < ENOUGH && all_are_called(rt, waiting, messages, wanted) {
            called = called.saturating_add(1);
        }
    }
    same_at(rt, "rounds in which all were called", called, ENOUGH);
}

/// Where no message waits, and where the outlet is dropped.
#[test]
fn all_ports_that_wait_are_called(rt: HostRuntime) {
    let all = u64::from(CAPACITY).saturating_add(u64::from(PORTS));
    for wanted in [SENT, HANDED_BACK] {
        calls_all(&rt, PORTS, all, wanted);
    }
}
