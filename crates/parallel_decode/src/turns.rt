//! What each of several threads does that decode stretches.

ghost use Rattle.std.specs.Prelude.{◌<◌, length};
ghost use Rattle.parallel_decode.specs.steps.Shelves.{ShelvesHold};

use crate::shelf::{Held, Shelf};
use crate::slot::fill_slot;
use crate::stretch::Plan;
use std::sync::Mutex;
use std::sync::atomic::{AtomicBool, AtomicUsize, Ordering};
use std::thread::yield_now;

/// After so many turns in which it finds nothing to do, a thread ends. They take some milliseconds.
pub(crate) const IDLE_TURNS: usize = 10_000;

/// What threads share that decode stretches.
#[derive(Drop)]
pub(crate) struct Job<'a, 's, H: Held> {
    pub(crate) plan: Plan<'a>,
    pub(crate) shelves: &'s [Mutex<Shelf<H>>],
    /// The place of the stretch that is taken next. All are taken where it is not below their count.
    pub(crate) taken: &'s AtomicUsize,
    /// The place of the stretch that is written next.
    pub(crate) written: &'s AtomicUsize,
    /// Whether a thread ended since no slot was free for some time, or all threads ended.
    pub(crate) idle: &'s AtomicBool,
}

/// Decodes stretches until all are taken, or no slot is free for some time.
pub(crate) fn decode_stretches<H: Held>(job: &Job<'_, '_, H>)
    requires { ShelvesHold H.Holds job.now.plan }
{
    for _ in 0..job.plan.stretches.len() {
        if !decode_once_free(job) {
            return;
        }
    }
}

/// Decodes a stretch once a slot is free. Returns false where all stretches are taken, or no slot is free for some
/// time.
fn decode_once_free<H: Held>(job: &Job<'_, '_, H>) -> bool
    requires { ShelvesHold H.Holds job.now.plan }
{
    for _ in 0..IDLE_TURNS {
        if job.taken.load(Ordering::SeqCst) >= job.plan.stretches.len() {
            return false;
        }
        if decode_next(job) {
            return true;
        }
        yield_now();
    }
    job.idle.store(true, Ordering::SeqCst);
    false
}

/// Takes the stretch that comes next, and decodes it into a slot that is free. Returns whether there were both.
pub(crate) fn decode_next<H: Held>(job: &Job<'_, '_, H>) -> bool
    requires { ShelvesHold H.Holds job.now.plan }
{
    if !may_be_free(job) {
        return false;
    }
    for shelf in job.shelves {
        if decode_into(job, shelf) {
            return true;
        }
    }
    false
}

/// Whether fewer stretches than there are slots are taken and not written. Else no slot is free, and none is looked at.
fn may_be_free<H: Held>(job: &Job<'_, '_, H>) -> bool {
    let written = job.written.load(Ordering::SeqCst);
    job.taken.load(Ordering::SeqCst) < written.saturating_add(job.shelves.len())
}

/// Takes the stretch that comes next, and decodes it into the slot of a shelf, if that is free.
fn decode_into<H: Held>(job: &Job<'_, '_, H>, shelf: &Mutex<Shelf<H>>) -> bool
    requires { ShelvesHold H.Holds job.now.plan }
{
    let Some(mut guard) = shelf.try_lock() else {
        return false;
    };
    if guard.slot.end > job.written.load(Ordering::SeqCst) {
        return false;
    }
    let place = job.taken.fetch_add(1, Ordering::SeqCst);
    if place >= job.plan.stretches.len() {
        return false;
    }
    fill_shelf(job, place, &mut guard);
    true
}

/// Decodes the stretch at a place into the slot of a shelf.
fn fill_shelf<H: Held>(job: &Job<'_, '_, H>, place: usize, shelf: &mut Shelf<H>)
    requires job { ShelvesHold H.Holds job.now.plan }
    requires within { place < length job.now.plan.stretches.now }
{
    fill_slot(&job.plan, place, &mut shelf.slot);
}
