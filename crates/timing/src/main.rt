//! Measures the bench: nanoseconds of each phase, over an image and logs.
//!
//! `timing BASE IMAGE LOG...` reads the files whole, runs each phase several times in memory, and writes one line a
//! phase to standard error: the phase, and its least time an event, or a packet where it packs or unpacks alone.
//! Nothing goes to standard output. The status is 0, or 1 where the arguments, a file or a log is refused.
#![tactic(auto)]

mod fault;
mod input;
mod least;
mod log_phases;
mod replaying;
mod run;
mod sending;

use std::io::Write;
use std::process::ExitCode;

fn main(rt: HostRuntime) -> ExitCode {
    let mut err = rt.stderr();
    match run::run(&rt, &mut err) {
        None => ExitCode::SUCCESS,
        Some(fault) => {
            let _ = writeln!(err, "timing: {fault}");
            ExitCode::FAILURE
        }
    }
}
