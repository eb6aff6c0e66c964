//! The subcommands of `tracebench` over messages alone, without a program: [`audit`] writes what became of the messages
//! of a capture, and [`capture`] makes a capture of a user's own lines.
#![tactic(auto)]

mod aligned_rows;
mod by_hart;
mod capturing;
mod choosing;
mod comparing;
mod ending;
mod following;
mod hart_check;
mod keeping;
mod laws;
mod line_reason;
mod lines;
mod live_lines;
mod live_rows;
mod lost_rows;
mod matched_lines;
mod matched_report;
mod matched_rows;
mod matching;
mod message_stream;
mod noting;
mod reading;
mod reason;
mod received;
mod recognising;
mod report;
mod rows;
mod sides;
mod streaming;
mod table_rows;
mod total;

pub use capturing::capture;
pub use choosing::audit;
pub use laws::{
    generated_captures_are_whole, generated_captures_decode, mixed_captures_decode,
    rows_are_read_back,
};
pub use line_reason::LineReason;
pub use reason::{Fault, PathReason};
