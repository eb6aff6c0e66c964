//! What the subcommands of `tracebench` share: what is asked of each, their inputs, and how they begin and end.
//!
//! [`Asked`] is what a command line may ask for, with one struct for each subcommand, and the limits of its numbers. Both
//! `cli`, which reads arguments, and `commands`, which does what they ask for, use it, and neither uses the other.
//!
//! A subcommand reads its inputs from [`Files`]: a base, an image with its further pieces, logs or a capture, each in
//! order, or a [`Fault`] that ends it. It ends with a [`Status`], or at a fault, whose line [`report_error`] writes. A
//! subcommand stops for faults that any subcommand may have, or for a [`Reason`] of its own. What a run prints, and what
//! it may have written where it is cut short, is said here for any subcommand.
#![tactic(auto)]

mod error_reporting;
mod fault;
mod inputs;
mod legal_logs;
mod limits;
mod listing;
mod only_harts;
mod pieces;
mod progress;
mod reason;
mod status;
mod symbols_input;
mod words;

pub use error_reporting::report_error;
pub use fault::Fault;
pub use inputs::{
    asked_base, asked_program, base_of, check_format, content_of, program_of, start_of,
};
pub use legal_logs::legal_logs_of;
pub use limits::{
    FEWEST_NUMBER_BITS, GREATEST_FIRST, LONGEST_BURST, LONGEST_PERIOD, MOST_IN_VIEW, MOST_MESSAGES,
    MOST_NUMBER_BITS, SHORTEST_PERIOD, SMALLEST_CAPACITY,
};
pub use log_streams::{FileFault, FileReader, Files};
pub use only_harts::harts_asked;
pub use progress::{MessageProgress, begin_progress};
pub use reason::Reason;
pub use status::Status;
pub use symbols_input::symbols_of;
pub use words::{
    Asked, Audit, Bench, Capture, Check, Compare, Decode, Dump, Encode, Format, Generate, Listing,
    Measure, Product, ProgramArgs, Replay, Salvage,
};
