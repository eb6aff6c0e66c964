//! A schedule without memory.

use crate::same::same_at;
use funnel::{ScheduleFault, read_schedule};
use linked_list_allocator::LocalHeap;
use std::process::Abort;

/// Without memory the fault is Memory.
#[test]
fn memory_is_refused(rt: HostRuntime) {
    let heap = LocalHeap::new(rt.alloc(), 0).expect(&rt, "memory");
    let fault = read_schedule(&heap, 1, b"0 c 0 c 0 c 0 c 0 c 0 c 0 c 0 c").err();
    same_at(&rt, "no memory", fault, Some(ScheduleFault::Memory));
}
