//! Plays transcripts of the program: files, runs over them, and what each run has to print and report. It prints how many
//! runs were played, as `COUNT runs`: each line of arguments counts once for each way that it is played, and for each
//! number of its range.
#![tactic(auto)]

mod calls;
mod content;
mod failing;
mod parts;
mod playing;
mod reading;
mod requests;
mod shelf;
mod verdict;

use commands::{Disk, Terminal};
use std::io;
use std::process::ExitCode;

fn main(rt: HostRuntime) -> io::Result<ExitCode> {
    // The type of the machine's files is known here, so that they may be shared with threads.
    let terminal = Terminal::new(&rt, rt.stderr());
    let mut disk = Disk::new(&terminal);
    playing::play(&rt, &mut disk)
}
