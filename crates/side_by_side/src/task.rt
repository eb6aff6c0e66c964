//! Jobs that are done side by side.

ghost use Rattle.std.specs.Prelude.{◌≡◌, ℕ, ◌≤◌, ◌<◌, IfOk, length, slice_index_or};
ghost use Rattle.side_by_side.specs.Places.{HoldsBelow};

use std::alloc::{AllocError, Global};
use std::thread;
use std::thread::Threads;

/// How a job is done.
pub trait Task<J, X> {
    /// This may be the result of the job at this place.
    ghost Gives: { Self → ℕ → J → X → Type 0 };

    /// Does the job at this place among the jobs, counted from 0.
    fn call(&self, place: usize, job: &J) -> X
        ensures { Gives self.now place job.now result };
}

/// How many threads can run at once: the processors that this program may use, or 1 if their count is not known.
pub fn processors<R: Threads>(rt: &R) -> usize
    ensures { 1 ≤ result }
{
    match thread::available_parallelism(rt) {
        Ok(count) => count.get(),
        Err(_) => 1,
    }
}

/// Into how many parts work is cut for each processor. If a machine lends its processors to others for a while, or a part
/// takes longer than another, the processors that are done go on with other parts.
const PARTS_A_PROCESSOR: usize = 4;

/// Into how many parts work is best cut that can be cut anywhere: 1 for a single processor, else some for each.
pub fn part_count<R: Threads>(rt: &R) -> usize
    ensures { 1 ≤ result }
{
    match processors(rt) {
        1 => 1,
        count => count.saturating_mul(PARTS_A_PROCESSOR),
    }
}

/// The result of each job, in order. Each job but one is done in a thread of its own, where one can be started, and
/// else in the caller's. All threads have ended when this returns.
///
/// If allocation for the threads or for the list of a part of the results fails, all jobs are done again, one after the
/// other, in the caller's thread. The only error is that allocation for the list of all results fails then too.
pub fn results<R: Threads + Sync, J: Sync, X: Send + Drop, T: Task<J, X> + Sync>(
    alloc: Global,
    rt: &R,
    task: &T,
    jobs: &[J],
) -> Result<Vec<X>, AllocError>
    ensures count { IfOk result (λ found. length found.items ≡ length jobs.now) }
    ensures each { IfOk result (λ found. HoldsBelow (T.Gives task.now) (length jobs.now) jobs.now found.items) }
{
    let one = move |place: usize| -> X
        requires { place < length jobs.now }
        ensures { (d : _) → T.Gives task.entry.now place (slice_index_or jobs.entry.now place d) result }
    { task.call(place, &jobs[place]) };
    match thread::map_indices(rt, alloc, jobs.len(), &one) {
        Ok(found) => Ok(found),
        Err(_) => results_in_turn(alloc, task, jobs),
    }
}

/// The result of each job, in order. The jobs are done one after the other.
fn results_in_turn<J, X: Drop, T: Task<J, X>>(
    alloc: Global,
    task: &T,
    jobs: &[J],
) -> Result<Vec<X>, AllocError>
    ensures count { IfOk result (λ found. length found.items ≡ length jobs.now) }
    ensures each { IfOk result (λ found. HoldsBelow (T.Gives task.now) (length jobs.now) jobs.now found.items) }
{
    let mut found = Vec::new(alloc);
    found.reserve(jobs.len())?;
    for (place, job) in jobs.iter().enumerate() {
        found.push(task.call(place, job))?;
    }
    Ok(found)
}
