//! Jobs that are done side by side (`side_by_side`): the results of few, and of more than there are processors, and into
//! how many parts work is cut.

ghost use Rattle.std.specs.Prelude.{◌≡◌};

use crate::same::same_at;
use side_by_side::{Task, part_count, processors, results};
use std::process::Abort;
use std::thread::Threads;

/// Doubles a job, and adds its place.
#[derive(Drop)]
struct Doubling;

impl Task<usize, usize> for Doubling {
    ghost Gives = { λ task place job found. found ≡ found };

    fn call(&self, place: usize, job: &usize) -> usize {
        job.wrapping_mul(2).wrapping_add(place)
    }
}

/// Ends the test unless each of so many jobs has its right result.
fn are_found<R: Abort>(rt: &R, count: usize, found: &[usize]) {
    same_at(rt, count, found.len(), count);
    for (place, one) in found.iter().enumerate() {
        let job = place.wrapping_add(100);
        let wanted = job.wrapping_mul(2).wrapping_add(place);
        same_at(rt, (count, place), *one, wanted);
    }
}

/// Does so many jobs.
fn are_done<R: Abort + AllocGlobal + Threads + Sync>(rt: &R, count: usize) {
    let mut jobs = Vec::new(rt.alloc());
    for place in 0..count {
        jobs.push(place.wrapping_add(100)).expect(rt, "memory");
    }
    let all = results(rt.alloc(), rt, &Doubling, jobs.as_slice());
    are_found(rt, count, &all.expect(rt, "memory"));
}

#[test]
fn few_and_many(rt: HostRuntime) {
    for count in 0..18usize {
        are_done(&rt, count);
    }
    for count in [63usize, 64, 65, 200] {
        are_done(&rt, count);
    }
}

/// One part for one processor, and more parts than there are processors where there are several.
#[test]
fn parts_of_work(rt: HostRuntime) {
    let (most, parts) = (processors(&rt), part_count(&rt));
    let found = (parts == 1, most == 1 || parts > most);
    same_at(&rt, (most, parts), found, (most == 1, true));
}
