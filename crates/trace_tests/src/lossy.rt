//! Messages that are not collected since an allocation fails (`losses`). What is left of logs, after gaps of each size and
//! else, are cases of `vectors`.

use crate::fixtures::{NOPS, message, program_of};
use crate::same::same_at;
use decoder::DecodeFault;
use linked_list_allocator::LocalHeap;
use losses::{LossyFault, collect_lossy};
use payload::Mode;
use std::process::Abort;

/// Without memory the fault is Memory.
#[test]
fn no_memory(rt: HostRuntime) {
    let program = program_of(&rt, NOPS);
    let messages = [message(&rt, 0, 0, b"\x1f")];
    let heap = LocalHeap::new(rt.alloc(), 0).expect(&rt, "memory");
    let found = collect_lossy(&heap, &program, 1, Mode::Differential, &messages).err();
    let decoding = LossyFault::Decode(7, DecodeFault::Memory);
    let printed = format!(in rt.alloc(); "{decoding}, {}", LossyFault::Memory);
    let printed = printed.expect(&rt, "memory");
    same_at(&rt, "no memory", found == Some(LossyFault::Memory), true);
    same_at(
        &rt,
        "the texts",
        printed.as_str(),
        "out of memory, out of memory",
    );
}
