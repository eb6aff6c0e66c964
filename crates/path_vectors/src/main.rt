//! Cases as lines of data files: of messages on their way (captures that are made of lines, frames among damaged bytes,
//! alignments, audits), of symbols, of the texts of logs and of schedules, and of stimulus.
//!
//! A case is a verb and its arguments, most of them `NAME=VALUE`. The files of cases say what each verb does.
#![tactic(auto)]

mod alignments;
mod audits;
mod fates;
mod lines;
mod lists;
mod live_audits;
mod naming;
mod paths;
mod salvages;
mod spans;
mod stimuli;
mod texts;
mod verbs;
mod windows;

use crate::verbs::PathVerbs;
use std::io;
use std::process::ExitCode;

fn main(rt: HostRuntime) -> io::Result<ExitCode> {
    cases::play(&rt, &mut PathVerbs)
}
