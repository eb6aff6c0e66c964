//! The program but for `main`: [`command`] does what the arguments ask for over any files and streams, and [`run`] over
//! those of the machine.
//!
//! How arguments ask for a subcommand is the matter of the crate `cli`. [`carry_out`] does what is asked, whichever
//! subcommand that is. [`report_error`] writes the line of the fault that ended it. A [`Fault`] is one that any
//! subcommand may have, or a [`CommandReason`] of some subcommands alone. The subcommands themselves are in
//! `log_commands`, `capture_commands` and `path_commands`, and what they share is in `command_inputs`.
#![tactic(auto)]

mod capture_runs;
mod dispatch;
mod joining;
mod line_runs;
mod log_runs;
mod machine;
mod program;
mod progress;
mod progress_line;
mod reason;
mod words_fault;

pub use command_inputs::{FileFault, FileReader, Files, Reason, Status, report_error};
pub use dispatch::carry_out;
pub use machine::{Disk, Terminal, run};
pub use program::command;
pub use progress::{Amount, is_due, is_looked_at};
pub use progress_line::ProgressLine;
pub use reason::{CommandReason, Fault};
