//! What a command line of `tracebench` asks for. `clap` reads it here, by a table of the arguments and one of the
//! subcommands. No other crate uses `clap`, so only the checks of this crate, and of what is above it, take the time
//! that `clap` adds.
#![tactic(auto)]

mod asking;
mod grammar;
mod help;
mod rules;

pub use asking::asked;
pub use clap::Error;
pub use clap::error::ErrorKind;
