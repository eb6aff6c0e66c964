//! What the packets of an encoder describe to a decoder. The packets of a legal log describe that log, and the first of
//! them describe its first events.
//!
//! The crate has one theorem and no other code: [`first_packets_settle_the_first_events`].
#![tactic(auto)]

mod laws;

pub use laws::first_packets_settle_the_first_events;
