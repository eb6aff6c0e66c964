//! How ports wait while the funnel is full, and when they are woken.
//!
//! The channel by itself wakes a port for each message that is taken, at the cost of a system call in the outlet's
//! thread. Here a port that finds the funnel full waits until the outlet has drained it to its low-water mark, half of
//! its capacity. Then the port sends many messages before it waits again. One of the waiting ports stays awake for a
//! while and looks for the outlet's call, which then costs the outlet no system call. The others sleep.
//!
//! No contract says anything about this. Tests in `trace_tests` show that ports are woken, that one is called at the
//! mark, and that all are called where no message waits and where the outlet is dropped. No test shows the rest: that
//! no port is called before the mark; that none is called where no message waits and one was called since the last
//! message; which port stays awake, and when. All of this changes when a port goes on, and not what is sent: it is a
//! matter of speed.

use std::alloc::Allocator;
use std::hint;
use std::sync::atomic::{AtomicU64, AtomicUsize, Ordering};
use std::sync::{Arc, Wait};
use std::time::Duration;

/// The most milliseconds that a port sleeps. Before that one is called at a mark where none is awake, and all of them
/// where no message waits. `funnels/waking.rt` and `funnels/calling.rt` of `trace_tests` count on so many.
const LONGEST: u64 = 10;

/// How often a port looks for a free place before it waits, in a funnel so small that each message that is taken
/// reaches the mark. It rests longer after each look. A place is free sooner there than a thread is woken.
const MANY_LOOKS: u32 = 7;

/// How often the port that stays awake looks for a call before it sleeps. That takes about as long as a thread is
/// woken.
const AWAKE_LOOKS: u32 = 128;

/// Where looks were in vain so many times in a row, as on a single processor or in a large funnel, ports sleep at once.
const FEW: usize = 4;

/// Of so many ports that would sleep at once, one looks again.
const SELDOM: usize = 64;

/// Rests between two looks, longer each time.
pub(crate) fn rest(look: u32) {
    for _ in 0..1u32 << look.min(6) {
        hint::spin_loop();
    }
}

/// What the ports and the outlet of a funnel share, for ports that wait while the funnel is full.
#[derive(Drop)]
pub(crate) struct LowWater {
    /// How often a port looks for a free place before it waits.
    pub(crate) looks: u32,
    /// How often ports were called to look for a free place again.
    calls: AtomicU64,
    /// How many ports wait for a free place.
    waiting: AtomicUsize,
    /// How many of them are awake and look for a call.
    awake: AtomicUsize,
    /// How many times in a row looks for a call were in vain, or left out.
    vain: AtomicUsize,
}

impl LowWater {
    /// What they share at first, where the funnel's capacity is this many messages: no port waits.
    pub(crate) fn new(capacity: usize) -> LowWater {
        LowWater {
            looks: if capacity < 4 { MANY_LOOKS } else { 1 },
            calls: AtomicU64::new(0),
            waiting: AtomicUsize::new(0),
            awake: AtomicUsize::new(0),
            vain: AtomicUsize::new(0),
        }
    }

    /// Counts one more port that waits, and returns the lowest 32 bits of how many calls there were. The port has to
    /// look for a free place once more before it sleeps, so that it misses no call.
    pub(crate) fn enter(&self) -> u32 {
        self.waiting.fetch_add(1, Ordering::SeqCst);
        self.made()
    }

    /// The lowest 32 bits of how many calls there were.
    fn made(&self) -> u32 {
        (self.calls.load(Ordering::SeqCst) & 0xffff_ffff) as u32
    }

    /// Counts one waiting port less.
    pub(crate) fn leave(&self) {
        self.waiting.fetch_sub(1, Ordering::SeqCst);
    }

    /// Waits until there is a call that the port did not hear yet, or for the longest time. Then counts one waiting
    /// port less.
    pub(crate) fn wait<R: Wait>(&self, rt: &R, heard: u32) {
        if !self.hears(heard) {
            self.calls
                .park_timeout(rt, heard, Duration::from_millis(LONGEST));
        }
        self.leave();
    }

    /// Looks for a call that the port did not hear yet, and returns whether one came. Only one port looks at a time, and
    /// none where looks were in vain.
    fn hears(&self, heard: u32) -> bool {
        let vain = self.vain.load(Ordering::SeqCst);
        if vain >= FEW && vain % SELDOM != 0 {
            self.vain.store(vain.wrapping_add(1), Ordering::SeqCst);
            return false;
        }
        let called = self.awake.fetch_add(1, Ordering::SeqCst) == 0 && self.finds_call(heard, vain);
        self.awake.fetch_sub(1, Ordering::SeqCst);
        called
    }

    /// Looks for a call that the port did not hear yet, and returns whether one came. Before that, looks were in vain
    /// this many times in a row.
    fn finds_call(&self, heard: u32, vain: usize) -> bool {
        for look in 0..AWAKE_LOOKS {
            if self.made() != heard {
                self.vain.store(0, Ordering::SeqCst);
                return true;
            }
            rest(look.min(4));
        }
        self.vain.store(vain.wrapping_add(1), Ordering::SeqCst);
        false
    }

    /// Calls one port, where one waits: the one that is awake, or else one that sleeps.
    fn call_one(&self) {
        if self.waiting.load(Ordering::SeqCst) != 0 {
            self.calls.fetch_add(1, Ordering::SeqCst);
            if self.awake.load(Ordering::SeqCst) == 0 {
                self.calls.wake_one();
            }
        }
    }

    /// Calls all ports that wait.
    fn call_all(&self) {
        if self.waiting.load(Ordering::SeqCst) != 0 {
            self.calls.fetch_add(1, Ordering::SeqCst);
            self.calls.wake_all();
        }
    }
}

/// What the outlet drained since it called a port.
pub(crate) struct Drain<A: Allocator> {
    low: Arc<LowWater, A>,
    /// By how many messages the funnel is drained from full to its low-water mark.
    depth: usize,
    /// How many messages were taken since.
    taken: usize,
}

impl<A: Allocator> Drain<A> {
    /// What was drained at first, where the funnel holds this many messages: nothing.
    pub(crate) fn new(low: Arc<LowWater, A>, capacity: usize) -> Drain<A> {
        Drain {
            low,
            depth: (capacity / 2).max(1),
            taken: 0,
        }
    }

    /// Notes that a message was taken, and calls a port at the low-water mark.
    pub(crate) fn note_taken(&mut self) {
        self.taken = self.taken.saturating_add(1);
        if self.taken >= self.depth {
            self.taken = 0;
            self.low.call_one();
        }
    }

    /// Notes that no message waits, and calls all ports, unless one was called since the last message.
    pub(crate) fn note_empty(&mut self) {
        if self.taken > 0 {
            self.taken = 0;
            self.low.call_all();
        }
    }
}

/// Calls all ports that wait, so that they find that the outlet is gone.
impl<A: Allocator> Drop for Drain<A> {
    fn drop(self) {
        let Self {
            low,
            depth: _,
            taken: _,
        } = self;
        low.call_all();
    }
}
