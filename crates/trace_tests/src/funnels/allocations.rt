//! Allocations that fail.

ghost use Rattle.std.specs.Prelude.{◌≡◌};

use super::made::OPEN;
use crate::fixtures::message;
use crate::same::same_at;
use funnel::{Core, OpenFault, open};
use linked_list_allocator::LocalHeap;
use std::alloc::Allocator;
use std::process::Abort;

/// How many messages the funnel may hold.
const CAPACITY: u32 = 100;

/// A new queue of 64 harts takes as many messages as its capacity, gives one more back, then gives them in their order,
/// and then none.
fn fills_and_empties<A: Allocator, R: Abort>(rt: &R, core: &mut Core<A>)
    requires { core.old.harts ≡ 64 }
{
    for number in 0..u64::from(CAPACITY) {
        let answer = core.offer(message(rt, 63, number, &[OPEN]));
        same_at(rt, number, answer, Ok(()));
    }
    let back = message(rt, 0, 0, &[OPEN]);
    same_at(
        rt,
        "full",
        core.offer(message(rt, 0, 0, &[OPEN])),
        Err(back),
    );
    for number in 0..u64::from(CAPACITY) {
        let wanted = message(rt, 63, number, &[OPEN]);
        same_at(rt, number, core.take(), Some(wanted));
    }
    same_at(rt, "empty", core.take(), None);
}

/// Whether this much memory is enough for a queue. The queue then takes no more and gives none back, and all memory is
/// free afterwards.
pub(crate) fn is_made<R: Abort + AllocGlobal>(rt: &R, size: usize) -> bool {
    let heap = LocalHeap::new(rt.alloc(), size).expect(rt, "memory");
    let enough = match Core::new(&heap, 64, CAPACITY) {
        Ok(mut core) => {
            let made = heap.used();
            fills_and_empties(rt, &mut core);
            same_at(rt, size, heap.used(), made);
            true
        }
        Err(fault) => {
            same_at(rt, size, fault, OpenFault::Memory);
            false
        }
    };
    same_at(rt, size, heap.used(), 0);
    enough
}

#[test]
fn room_is_refused_at_making_alone(rt: HostRuntime) {
    let found = (is_made(&rt, 64), is_made(&rt, 8192));
    same_at(&rt, "little memory, and ample", found, (false, true));
}

#[test]
fn room_is_refused_to_a_channel(rt: HostRuntime) {
    let heap = LocalHeap::new(rt.alloc(), 64).expect(&rt, "memory");
    let fault = open(&heap, 2, 4).err();
    let wanted = (Some(OpenFault::Memory), 0);
    same_at(&rt, "the fault, and the heap", (fault, heap.used()), wanted);
}
