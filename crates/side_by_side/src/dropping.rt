//! Dropping what takes much memory.

use crate::task::processors;
use std::thread;
use std::thread::Threads;

/// With fewer bytes than this, threads that write or drop them take as much time as they save.
pub const LARGE: usize = 1 << 20;

/// Drops things that take this many bytes together: large ones side by side, as many at once as the machine has
/// processors. The machine takes about as long to take a page back as to hand it out.
pub fn drop_side_by_side<R: Threads + Sync, X: Send + Drop>(
    rt: &R,
    mut things: Vec<X>,
    bytes: usize,
) {
    if bytes < LARGE || things.len() < 2 {
        return;
    }
    let many = processors(rt);
    let drop_one = |thing: X| drop(thing);
    for _ in 0..things.len() {
        let kept = things.len().saturating_sub(many);
        let Ok(group) = things.split_off(kept) else {
            return;
        };
        let _ = thread::map_vec(rt, group, &drop_one);
        if kept == 0 {
            return;
        }
    }
}
