//! A decoder that goes on after packets were lost (`decoder`), where an allocation fails. Traces, faults, losses and walks
//! along leaps are cases of `vectors`.

use crate::fixtures::{BASE, NOPS, program_of};
use crate::same::same_at;
use decoder::{DecodeFault, Decoder};
use linked_list_allocator::LocalHeap;
use payload::Mode::Differential;
use payload::{Packet, Support};

/// The packet that opens the trace.
const OPEN: Packet = Packet::Support(Support::Open(Differential));

/// A synchronisation at the base, at machine level.
const START: Packet = Packet::Sync {
    taken: false,
    privilege: 3,
    address: BASE,
};

/// A synchronisation is refused where an allocation fails. The decoder then goes on passing over packets, until the
/// synchronisation comes again.
#[test]
fn synchronisation_that_is_refused(rt: HostRuntime) {
    let program = program_of(&rt, NOPS);
    let mut decoder = Decoder::new();
    decoder.resume(Differential);
    let heap = LocalHeap::new(rt.alloc(), 0).expect(&rt, "memory");
    let refused = decoder.feed(&program, &START, &mut Vec::new(&heap));
    let mut stretch = Vec::new(rt.alloc());
    let passed = decoder.feed(&program, &OPEN, &mut stretch).is_ok();
    let before = stretch.len();
    let taken = decoder.feed(&program, &START, &mut stretch).is_ok();
    let found = [refused == Err(DecodeFault::Memory), passed, taken];
    same_at(&rt, "answers", found, [true; 3]);
    same_at(&rt, "events", [before, stretch.len()], [0, 1]);
}
