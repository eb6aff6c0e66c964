//! What became of the messages that were sent, by their numbers or, where they carry none, by their payloads.
//!
//! An [`Audit`] compares the messages that a path was given, SENT, with those that came out of it, RECEIVED. SENT is
//! the bytes of a capture: [`Audit::new`] checks that it is complete, and keeps where the payload of each message is.
//! RECEIVED is handed in message by message: [`Audit::take`] returns the [`Fate`] of each, and [`Audit::examine`] also
//! how many numbers it skips or by how much it is late. Then [`Audit::tally`] and [`Audit::row`] return what became of the
//! messages of a hart, [`Audit::lost`] the numbers of those that were lost, and [`Audit::first`] where the first fault
//! shows.
//!
//! Payloads are compared by their bytes and never unpacked, or with [`Audit::with`] by the packets that they unpack to.
//! Of the calls of [`Audit`] only [`Audit::new`] and [`Audit::with`] fail where an allocation does.
//!
//! Where messages carry no numbers, a damaged RECEIVED is read by [`KnownPayloads`], the payloads that SENT has of each
//! hart. Then SENT and RECEIVED are lists of messages. [`aligned_harts`] aligns the payloads of
//! each hart of SENT. [`take`] returns what became of the next message of RECEIVED, [`arrival_lines`] lists the messages
//! that are not matched or skip a number, [`counts_of`] and [`total_of`] count. The numbers of RECEIVED are not looked
//! at.
//!
//! [`aligned`] matches payloads that came with payloads that were sent, in order on both sides. What was sent and is not
//! matched is lost; what came and is not matched is extra. It matches as many as it can, within a bound on its search.
//! Payloads are compared as bytes.
#![tactic(auto)]

mod aligned_counts;
mod aligning;
mod arrival_line;
mod arrivals;
mod audit;
mod beginning;
mod cursor;
mod exchange;
mod fate;
mod fault;
mod finding;
mod hart;
mod indexing;
mod judging;
mod known_payloads;
mod laws;
mod lost;
mod owners;
mod planning;
mod row;
mod sent_payloads;
mod splitting;
mod steps;
mod tally;
mod window;

pub use aligned_counts::{AlignedTotal, HartCounts, counts_of, total_of};
pub use aligning::{Alignment, aligned};
pub use arrival_line::Line;
pub use arrivals::{Arrival, arrival_lines, cursors, lines_by_hart, take};
pub use audit::Audit;
pub use cursor::Cursor;
pub use exchange::Exchanged;
pub use fate::Fate;
pub use fault::SentFault;
pub use finding::Finding;
pub use known_payloads::KnownPayloads;
pub use laws::{
    counts_add_up, framed_messages_are_taken, harts_are_received_alone, rows_add_up,
    sights_are_of_sent, skips_add_up, whole_decodes_again, whole_is_equal, whole_is_untouched,
};
pub use lost::{Lost, LostRuns, RunLengths, run_lengths};
pub use payload::By;
pub use row::HartRow;
pub use sent_payloads::{SentPayloads, aligned_harts};
pub use tally::Tally;
pub use window::MOST_EDITS;
