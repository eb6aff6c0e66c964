//! Cases of the channel that all harts share, as lines of data files: messages and captures (`message`), the queue and
//! its limits (`funnel`), what the bench (`bench`) makes of messages, of replays and of runs over threads, how far what is
//! read is told of (`captures`) and kept (`retire`), and logs in files that are read side by side (`log_streams`).
//!
//! Verbs are described in the data files that use them.
#![tactic(auto)]

mod calls;
mod collecting;
mod files_in_memory;
mod log_tasks;
mod logs;
mod memory;
mod messages;
mod outcomes;
mod ports;
mod queue;
mod reading;
mod reports;
mod runs;
mod split;
mod streams;
mod verbs;

use crate::verbs::Vectors;
use cases::{Case, DataFile, Tally, data_files, lines_of};
use std::io;
use std::process::ExitCode;
use std::rt::{Env, Files};
use std::sync::Wait;
use std::thread::Threads;

/// Plays the cases of files, as `cases::play` does. A case may start threads, which share the runtime: a method of a trait
/// cannot ask for that.
fn play_files<R: Eprint + AllocGlobal + Threads + Wait + Sync>(
    rt: &R,
    vectors: &mut Vectors<'_>,
    tally: &mut Tally,
    files: &[DataFile],
) -> io::Result<()> {
    for line in &lines_of(rt.alloc(), files)? {
        let case = Case::new(rt.alloc(), line.case());
        vectors.answer(rt, &case);
        tally.judge(rt, line, &case)?;
    }
    Ok(())
}

/// Plays the cases of the files that the program's arguments name, and prints how many they are, as `COUNT cases`.
fn play<R: Env + Files + Print + Eprint + AllocGlobal + Threads + Wait + Sync>(
    rt: &R,
    vectors: &mut Vectors<'_>,
) -> io::Result<ExitCode> {
    let mut tally = Tally::new();
    play_files(rt, vectors, &mut tally, data_files(rt)?.as_slice())?;
    tally.end(rt, "cases")
}

fn main(rt: HostRuntime) -> io::Result<ExitCode> {
    match logs::program_of(rt.alloc(), logs::WORDS) {
        Some(program) => play(&rt, &mut Vectors::new(&program)),
        None => Ok(ExitCode::FAILURE),
    }
}
