//! What the calling thread does while others decode: it writes what is decoded, in order.
//!
//! Each call writes the text of the stretches from a place on, and returns the place after those that were written.

ghost use Rattle.parallel_decode.specs.steps.Filled.{IsFilled};
ghost use Rattle.parallel_decode.specs.steps.Putting.{PutsOn};
ghost use Rattle.parallel_decode.specs.steps.Shelves.{ShelvesHold};
ghost use Rattle.parallel_decode.specs.steps.Stretches.{HaveTexts};

use crate::RowBuffers;
use crate::shelf::{Held, Shelf};
use crate::slot::Slot;
use crate::stretch::Plan;
use crate::turns::{IDLE_TURNS, Job, decode_next};
use crate::writing::{put, write_at};
use retire::WriteFault;
use std::io::Write;
use std::sync::Mutex;
use std::sync::atomic::Ordering;
use std::thread::yield_now;

/// Writes text as it is decoded, and decodes some: that of all stretches, unless a thread ended and nothing was ready, or
/// nothing was decoded for some time. Other threads take no stretch afterwards.
pub(crate) fn write_as_decoded<H: Held, O: Write>(
    job: &Job<'_, '_, H>,
    from: usize,
    rows: &mut RowBuffers,
    out: &mut O,
) -> Result<usize, WriteFault>
    requires { ShelvesHold H.Holds job.now.plan }
    ensures { PutsOn job.now.plan from result (O.contents out.old) (O.contents out.new) }
{
    let ended = write_on(job, from, rows, out);
    job.taken.store(job.plan.stretches.len(), Ordering::SeqCst);
    ended
}

/// The same, but other threads may take stretches afterwards. Where a thread ended, only what slots have is written.
pub(crate) fn write_on<H: Held, O: Write>(
    job: &Job<'_, '_, H>,
    from: usize,
    rows: &mut RowBuffers,
    out: &mut O,
) -> Result<usize, WriteFault>
    requires { ShelvesHold H.Holds job.now.plan }
    ensures { PutsOn job.now.plan from result (O.contents out.old) (O.contents out.new) }
{
    let mut at = from;
    for _ in from..job.plan.stretches.len() {
        let next = write_next(job, at, rows, out)?;
        if next == at {
            return Ok(at);
        }
        at = next;
    }
    Ok(at)
}

/// Writes text once it is decoded, as far as it is. Until then it decodes stretches.
fn write_next<H: Held, O: Write>(
    job: &Job<'_, '_, H>,
    from: usize,
    rows: &mut RowBuffers,
    out: &mut O,
) -> Result<usize, WriteFault>
    requires { ShelvesHold H.Holds job.now.plan }
    ensures { PutsOn job.now.plan from result (O.contents out.old) (O.contents out.new) }
{
    let mut at = from;
    for _ in 0..IDLE_TURNS {
        at = write_shelves(job, at, rows, out)?;
        if at > from || job.idle.load(Ordering::SeqCst) || at == job.plan.stretches.len() {
            return Ok(at);
        }
        if !decode_next(job) {
            yield_now();
        }
    }
    Ok(at)
}

/// Looks at each slot once, and writes its text if that comes next. Then the slot is free.
fn write_shelves<H: Held, O: Write>(
    job: &Job<'_, '_, H>,
    from: usize,
    rows: &mut RowBuffers,
    out: &mut O,
) -> Result<usize, WriteFault>
    requires { ShelvesHold H.Holds job.now.plan }
    ensures { PutsOn job.now.plan from result (O.contents out.old) (O.contents out.new) }
{
    let mut at = from;
    for shelf in job.shelves {
        at = write_shelf(job, at, shelf, rows, out)?;
        job.written.store(at, Ordering::SeqCst);
    }
    Ok(at)
}

/// Writes the text of the slot of a shelf, if no thread is filling it, it is not free, and its text comes next.
fn write_shelf<H: Held, O: Write>(
    job: &Job<'_, '_, H>,
    from: usize,
    shelf: &Mutex<Shelf<H>>,
    rows: &mut RowBuffers,
    out: &mut O,
) -> Result<usize, WriteFault>
    requires { ShelvesHold H.Holds job.now.plan }
    ensures { PutsOn job.now.plan from result (O.contents out.old) (O.contents out.new) }
{
    let Some(guard) = shelf.try_lock() else {
        return Ok(from);
    };
    if guard.slot.end <= from {
        return Ok(from);
    }
    write_slot(&job.plan, from, &guard.slot, rows, out)
}

/// Writes the text that a slot has, if that comes next. If the slot lacked the capacity for it, the stretch is decoded
/// here.
fn write_slot<O: Write>(
    plan: &Plan<'_>,
    at: usize,
    slot: &Slot,
    rows: &mut RowBuffers,
    out: &mut O,
) -> Result<usize, WriteFault>
    requires sound { HaveTexts plan.now }
    requires filled { IsFilled plan.now slot.now }
    ensures { PutsOn plan.now at result (O.contents out.old) (O.contents out.new) }
{
    if slot.place != at || at >= plan.stretches.len() {
        return Ok(at);
    }
    if !slot.is_whole {
        return write_at(plan, at, rows, out);
    }
    put(out, slot.text.held.as_slice())?;
    Ok(at + 1)
}
