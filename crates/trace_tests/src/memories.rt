//! A memory of two pieces where an allocation fails (`rvclass`). Others are cases of `vectors`.

use crate::same::same_at;
use cases::Refusing;
use rvclass::{Fetched, Memory, PieceFault};

#[test]
fn a_failed_allocation_changes_nothing(rt: HostRuntime) {
    let heap = Refusing::new(rt.alloc(), 0);
    let mut memory = Memory::borrowed(0x1000, &[1, 2, 3, 4]).expect(&rt, "a piece");
    let refused = memory.add_borrowed(&heap, 0x1004, &[5, 6]) == Err(PieceFault::Memory);
    let kept = (
        memory.fetch(0x1002) == Fetched::Half(0x403),
        memory.byte_count(),
    );
    let added = memory.add_borrowed(&heap, 0x1004, &[5, 6]).is_ok();
    let is_there = memory.fetch(0x1002) == Fetched::Word(0x605_0403);
    let text = format!(in rt.alloc(); "{}", PieceFault::Memory).expect(&rt, "memory");
    let found = (refused, kept, added, is_there, text.as_str());
    let wanted = (true, (true, 4), true, true, "out of memory");
    same_at(&rt, "answers", found, wanted);
}
