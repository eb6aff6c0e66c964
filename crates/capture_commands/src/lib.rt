//! The subcommands of `tracebench` that read a capture: [`dump`] writes a line for each message, [`decode`] the logs
//! that the messages settle, also where messages may be lost, [`list`] a line for each message that says what the
//! message does, [`salvage`] what is left of the logs after any damage, and [`compare`] whether the capture describes
//! just these logs.
//!
//! `compare` reads a base, an image, a capture and as many logs as the capture has harts, in this order, and ends at the
//! first fault. Where some harts are asked for, the logs are those of these. A first pass finds where each hart's
//! messages are. Then the logs are read side by side, each a piece at a time, and its hart's messages are decoded beside
//! it. So the memory is 8 bytes a message, and a piece of events of each log that is open.
#![tactic(auto)]

mod against_logs;
mod beside;
mod counting;
mod decoding;
mod dumping;
mod ending;
mod hart_check;
mod hart_lines;
mod input;
mod laws;
mod lossy_decoding;
mod message_listing;
mod own_messages;
mod reason;
mod report;
mod salvage_progress;
mod salvaged_listing;
mod salvaging_capture;
mod stopping;
mod survey_progress;
mod surveyed;
mod task;

pub use against_logs::compare;
pub use decoding::decode;
pub use dumping::dump;
pub use laws::{
    all_harts_have_items, captures_are_read_alike, what_is_collected_of_a_capture_is_salvaged,
};
pub use message_listing::list;
pub use reason::{CaptureReason, Fault};
pub use salvaging_capture::salvage;
