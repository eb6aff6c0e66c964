//! The first use of the bench as a library: a log to a capture and back, and then the logs of two harts, which also go
//! through a funnel. The documentation of `etrace` shows the file `there_and_back.rt`.
//!
//! `first_use IMAGE LOG IMAGE LOG LOG SCHEDULE` prints the log that is decoded of the first program, and what
//! `two_harts.rt` does over the second. At a fault it prints a line on standard error, and the status is 1.
#![tactic(auto)]

mod there_and_back;
mod two_harts;

use crate::there_and_back::there_and_back;
use crate::two_harts::print_two_harts;
use anyhow::{Result, bail};
use etrace::logs::write_log;
use std::io::Write;
use std::rt::{Env, Files};
use std::{env, fs, io};

fn main(rt: HostRuntime) -> Result<()> {
    run(&rt, &mut io::writer(&rt))
}

/// Prints what is decoded of one hart's log, and then what comes of the logs of two.
fn run<R: Env + Files + AllocGlobal, W: Write>(rt: &R, out: &mut W) -> Result<()> {
    let arguments: Vec<String> = env::args(rt)?.collect(rt.alloc())?;
    let [_, image, log, image_of_two, first, second, schedule] = arguments.as_slice() else {
        bail!("usage: first_use IMAGE LOG IMAGE LOG LOG SCHEDULE");
    };
    print_one_hart(rt, image.as_str(), log.as_str(), out)?;
    let logs = [first.as_str(), second.as_str()];
    print_two_harts(rt, image_of_two.as_str(), logs, schedule.as_str(), out)
}

/// Reads an image and a log, and prints what is decoded of the log's capture.
fn print_one_hart<R: Files + AllocGlobal, W: Write>(
    rt: &R,
    image: &str,
    log: &str,
    out: &mut W,
) -> Result<()> {
    let image = fs::read(rt, image)?;
    let text = fs::read(rt, log)?;
    for events in there_and_back(rt.alloc(), image, text.as_slice())? {
        write_log(rt.alloc(), out, events.as_slice())?;
    }
    Ok(())
}
