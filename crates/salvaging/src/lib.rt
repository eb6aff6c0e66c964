//! What is left of harts' logs after any damage to their messages.
//!
//! [`salvage`] takes any messages of several harts: messages may be lost, repeated, out of order, damaged, or of no
//! hart. For each hart it returns a [`SalvagedHart`]: the parts of its log that its messages still settle, what is bad,
//! doubtful or alone, how many messages are copies or late, and whether the hart is closed. Numbers give the order of a
//! hart's messages, so each message may have come at any place and any number of times.
//!
//! [`salvage_watched`] does the same, and tells a [`ProgressSink`](message::ProgressSink) of each message.
//!
//! Of messages of legal logs the parts are those of the logs by the numbers that came ([`logs_are_salvaged`]). Where
//! messages are collected without a fault, the same is salvaged of them ([`what_is_collected_is_salvaged`]).
#![tactic(auto)]

mod ahead;
mod beyond;
mod copies;
mod distributing;
mod ending;
mod entry;
mod far;
mod far_number;
mod gaps;
mod grouping;
mod hart;
mod late;
mod laws;
mod lookup;
mod mark;
mod own_mode;
mod part;
mod reason;
mod received;
mod rows;
mod salvaged;
mod salvaging;
mod sorting_out;
mod tally;
mod trail;
mod treating;
mod treatment;
mod used;
mod working;

pub use far::far_numbers;
pub use far_number::{FarNumber, FarTreatment};
pub use laws::{
    far_numbers_are_known, far_numbers_are_reported, harts_are_salvaged_in_one_way,
    harts_end_at_their_lowest_number, harts_end_where_no_stretch_comes_after, logs_are_salvaged,
    messages_are_counted_once, parts_are_what_is_done, treatments_are_counted,
    what_is_collected_is_salvaged,
};
pub use part::Part;
pub use reason::Reason;
pub use salvaged::{Salvaged, SalvagedHart};
pub use salvaging::{salvage, salvage_watched};
pub use treating::treat_watched;
pub use treatment::{Added, Treated, Treatment};
