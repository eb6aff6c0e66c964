//! Cases of calls, as lines of data files: of packets, programs, logs, encoders, decoders, whole captures, and of messages
//! that are lost or damaged.
#![tactic(auto)]

mod captured;
mod capturing;
mod decoding;
mod encoding;
mod leaping;
mod listed;
mod lossy;
mod measures;
mod packets;
mod paths;
mod programs;
mod told;
mod verbs;

use crate::verbs::Vectors;
use cases::{Case, DataFile, Tally, data_files, lines_of};
use std::io;
use std::process::ExitCode;
use std::rt::{Env, Files};
use std::thread::Threads;

/// Plays the cases of files, as `cases::play` does. A case may start threads, which share the runtime: a method of a trait
/// cannot ask for that.
fn play_files<R: Eprint + AllocGlobal + Threads + Sync>(
    rt: &R,
    vectors: &mut Vectors,
    tally: &mut Tally,
    files: &[DataFile],
) -> io::Result<()> {
    for line in &lines_of(rt.alloc(), files)? {
        let case = Case::new(rt.alloc(), line.case());
        vectors.answer(rt, &case);
        tally.judge(rt, line, &case)?;
    }
    Ok(())
}

/// Plays the cases of the files that the program's arguments name, and prints how many they are, as `COUNT cases`.
fn play<R: Env + Files + Print + Eprint + AllocGlobal + Threads + Sync>(
    rt: &R,
    vectors: &mut Vectors,
) -> io::Result<ExitCode> {
    let mut tally = Tally::new();
    play_files(rt, vectors, &mut tally, data_files(rt)?.as_slice())?;
    tally.end(rt, "cases")
}

fn main(rt: HostRuntime) -> io::Result<ExitCode> {
    play(&rt, &mut Vectors::new(rt.alloc()))
}
