//! Whether a capture describes just these logs.
//!
//! [`counts_of`] counts the messages of each hart of a capture before decoding stops. [`Comparing`] compares the events
//! of a log, which come piece by piece, with those that were decoded of its hart. [`sources_of`] finds the message of
//! the capture that settles the first row in which a log differs, or why that row is not decoded. Where the capture is
//! decoded up to `stop`, it fails only if an allocation fails or a hart has too many events:
//! [`decoding_stops_where_it_is_said`]. [`write_explained`] writes a line for each hart, as a report of `bench` has it.
//! Below that of a log that did not come back whole are the rows before the difference, if they are asked for, which
//! both lists have: [`lists_agree_before_the_row`]; the row of the log and the decoded one, which differ; and that
//! message or that reason. The line of the result is the last.
//!
//! [`whole_is_these_logs`] says when the result is whole, and [`whole_is_decoded`] what the bytes of the capture then
//! decode to; [`whole_of_harts_is_these_logs`] and [`whole_of_harts_is_decoded`] say so of some harts alone.
#![tactic(auto)]

mod alike_events;
mod counting;
mod explained;
mod explanation;
mod hart_count;
mod laws;
mod near;
mod pieces;
mod source;
mod sourcing;
mod trail;

pub use counting::counts_of;
pub use explained::ExplainedHart;
pub use explanation::{Explaining, write_explained};
pub use hart_count::HartCount;
pub use laws::{
    all_harts_are_compared, decoding_stops_where_it_is_said, lists_agree_before_the_row,
    whole_is_decoded, whole_is_these_logs, whole_of_harts_is_decoded, whole_of_harts_is_these_logs,
};
pub use near::NearRows;
pub use pieces::Comparing;
pub use source::{RowSource, SourceMessage, SourcingFault};
pub use sourcing::{SourcedHart, sources_of};
