//! Allocations that fail.

use crate::same::same_at;
use linked_list_allocator::LocalHeap;
use message::Demux;

#[test]
fn room_is_refused(rt: HostRuntime) {
    let heap = LocalHeap::new(rt.alloc(), 256).expect(&rt, "memory");
    assert!(rt; Demux::new(&heap, 64).is_err());
    same_at(&rt, "the heap", heap.used(), 0);
}
