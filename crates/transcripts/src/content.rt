//! Runs of the program where there is no file.

ghost use Rattle.std.specs.Prelude.{◌≡◌, map, string_bytes};
ghost use Rattle.cli.specs.Asking.{AskGenerate};

use crate::shelf::Shelf;
use commands::command;
use std::sync::Wait;
use std::thread::Threads;

/// Runs the program with these arguments where there is no file: whatever they ask for but `generate`, it is not done.
pub(crate) fn run_over_none<R: AllocGlobal + Threads + Wait + Sync>(
    rt: &R,
    words: &[String],
    out: &mut Vec<u8>,
    err: &mut Vec<u8>,
) -> u8
    ensures { result ≡ 0 → AskGenerate (map string_bytes words.now) }
{
    let mut shelf = Shelf::new(rt.alloc());
    command(rt.alloc(), rt, &mut shelf, words, out, err)
}
