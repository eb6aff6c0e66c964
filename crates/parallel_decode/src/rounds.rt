//! Stretches that are decoded and written side by side.

ghost use Rattle.std.specs.Prelude.{◌≡◌, false, All};
ghost use Rattle.std.specs.Thread.{IsSync, IsSend};
ghost use Rattle.parallel_decode.specs.steps.Putting.{PutsOn, PutsRest};
ghost use Rattle.parallel_decode.specs.steps.Shelves.{ShelvesHold};

use crate::RowBuffers;
use crate::ready::{write_as_decoded, write_on};
use crate::shelf::{Held, Shelf, shelves_of};
use crate::slot::Slot;
use crate::stretch::Plan;
use crate::turns::{Job, decode_stretches};
use crate::writing::write_stretches;
use retire::WriteFault;
use side_by_side::drop_side_by_side;
use std::alloc::Global;
use std::io::Write;
use std::sync::Mutex;
use std::sync::atomic::{AtomicBool, AtomicUsize, Ordering};
use std::thread;
use std::thread::Threads;

/// How many slots there are for each thread that decodes.
pub(crate) const SLOTS_A_THREAD: usize = 2;

/// About how much memory of a slot is written.
const SLOT_MEMORY: usize = 1 << 20;

/// Writes the text that each stretch adds, in order. Threads decode them, each the one that comes next, into slots that are
/// free; the calling thread writes what is decoded, and decodes too while that is nothing. A slot whose text was written is
/// free again. Where there is no slot, the calling thread decodes alone.
///
/// If the output is slow for long, the other threads end, and are started again. Where nothing comes of that, the calling
/// thread decodes alone.
pub(crate) fn write_in_rounds<'a, H: Held + Send + Sync + Drop, R: Threads + Sync, O: Write>(
    alloc: Global,
    rt: &R,
    plan: Plan<'a>,
    slots: Vec<Slot>,
    rows: &mut RowBuffers,
    out: &mut O,
) -> Result<(), WriteFault>
    requires job { ShelvesHold H.Holds plan }
    requires new { All (λ slot. slot.is_whole ≡ false) slots.items }
    ensures { PutsRest plan.entry 0 result (O.contents out.old) (O.contents out.new) }
{
    let memory = slots.len().saturating_mul(SLOT_MEMORY);
    if memory == 0 {
        return write_stretches(&plan, 0, rows, out);
    }
    let Ok(shelves) = shelves_of::<H>(alloc, slots) else {
        return write_stretches(&plan, 0, rows, out);
    };
    let at = write_rounds(alloc, rt, plan, shelves.as_slice(), rows, out)?;
    let rest = write_stretches(&plan, at, rows, out);
    drop_side_by_side(rt, shelves, memory);
    rest
}

/// Writes the text of the stretches from the first on, in several threads, which are started again where one ended. Returns
/// the place after those that were written.
fn write_rounds<'a, H: Held + Send + Sync + Drop, R: Threads + Sync, O: Write>(
    alloc: Global,
    rt: &R,
    plan: Plan<'a>,
    shelves: &[Mutex<Shelf<H>>],
    rows: &mut RowBuffers,
    out: &mut O,
) -> Result<usize, WriteFault>
    requires { ShelvesHold H.Holds plan }
    ensures { PutsOn plan.entry 0 result (O.contents out.old) (O.contents out.new) }
{
    let mut at = 0;
    for _ in 0..plan.stretches.len() {
        let taken = AtomicUsize::new(at);
        let written = AtomicUsize::new(at);
        let idle = AtomicBool::new(false);
        let job = Job {
            plan,
            shelves,
            taken: &taken,
            written: &written,
            idle: &idle,
        };
        let next = write_round(alloc, rt, &job, at, rows, out)?;
        if next == at || next == plan.stretches.len() {
            return Ok(next);
        }
        at = next;
    }
    Ok(at)
}

/// Writes the text of the stretches from a place on, in several threads. Returns the place after those that were written.
fn write_round<H: Held + Send + Sync + Drop, R: Threads + Sync, O: Write>(
    alloc: Global,
    rt: &R,
    job: &Job<'_, '_, H>,
    from: usize,
    rows: &mut RowBuffers,
    out: &mut O,
) -> Result<usize, WriteFault>
    requires { ShelvesHold H.Holds job.now.plan }
    ensures { PutsOn job.now.plan from result (O.contents out.old) (O.contents out.new) }
{
    let at = write_in_threads(alloc, rt, job, from, rows, out)?;
    job.idle.store(true, Ordering::SeqCst);
    write_on(job, at, rows, out)
}

/// The same, but for what was decoded last.
fn write_in_threads<H: Held + Send + Sync + Drop, R: Threads + Sync, O: Write>(
    alloc: Global,
    rt: &R,
    job: &Job<'_, '_, H>,
    from: usize,
    rows: &mut RowBuffers,
    out: &mut O,
) -> Result<usize, WriteFault>
    requires { ShelvesHold H.Holds job.now.plan }
    ensures { PutsOn job.now.plan from result (O.contents out.old) (O.contents out.new) }
{
    let others = (job.shelves.len() / SLOTS_A_THREAD).saturating_sub(1);
    let mut decoding = ||
        requires { IsSync R.row × IsSync H.row × IsSend H.row × ShelvesHold H.Holds job.now.plan }
    { decode_beside(alloc, rt, others, job) };
    let mut writing = || -> Result<usize, WriteFault>
        requires { ShelvesHold H.Holds job.now.plan }
        ensures { PutsOn job.entry.now.plan from result (O.contents out.entry.now) (O.contents out.exit.now) }
    { write_as_decoded(job, from, rows, out) };
    let (_, written) = thread::join_mut(rt, &mut decoding, &mut writing);
    written
}

/// Decodes stretches in so many threads.
fn decode_beside<H: Held + Send + Sync, R: Threads + Sync>(
    alloc: Global,
    rt: &R,
    count: usize,
    job: &Job<'_, '_, H>,
)
    requires { ShelvesHold H.Holds job.now.plan }
{
    let one = move |_: usize| -> bool
        requires { ShelvesHold H.Holds job.now.plan }
    {
        decode_stretches(job);
        true
    };
    let _ = thread::map_indices(rt, alloc, count, &one);
}
