//! The logs of a capture's harts, written while they are decoded (`parallel_decode`): where an allocation or the output fails,
//! and in threads. That what is written is what `decode_capture` returns are cases of `vectors`.

mod in_threads;
mod refused;
pub(super) mod told;

use self::in_threads::write_shared;
use self::told::Told;
use crate::same::same_at;
use parallel_decode::DecodedHarts;
use rvclass::Program;
use std::process::Abort;
use std::thread::Threads;

/// What one thread writes of a capture of this many harts in version 1, and how decoding ends. The first pass tells of
/// each message that is received, and that it ended, once.
fn written<R: Threads + Sync + Abort + AllocGlobal>(
    rt: &R,
    program: &Program,
    harts: u16,
    capture: &[u8],
) -> (Vec<u8>, DecodedHarts) {
    let told = Told::new();
    let mut text = Vec::new(rt.alloc());
    let ended = write_shared(rt, (1, 0), program, harts, capture, &told, &mut text);
    let ended = ended.expect(rt, "memory");
    same_at(rt, capture.len(), told.ends.get(), 1);
    if let Some((number, _)) = ended.fault {
        same_at(rt, capture.len(), told.messages.get() < number, false);
    }
    (text, ended)
}
