//! The packets of a log: which events of a hart are reported, by which rule, and as which packets.
//!
//! [`Encoder`] takes the events of a legal log one at a time, and holds the last one back until it
//! is known what follows. [`EncoderState`] is what it keeps meanwhile. [`Source`] gives the payloads
//! of a legal log one at a time, or its packets. The rules are those of the E-Trace specification's
//! instruction trace algorithm, with what this project's profile adds to them. No call takes memory.
#![tactic(auto)]

mod due;
mod encoder;
mod laws;
mod packet;
mod passing;
mod rule;
mod source;
mod state;

pub use due::Due;
pub use encoder::{Burst, Encoder};
pub use laws::{logs_have_few_packets, packets_are_in_profile};
pub use source::Source;
pub use state::EncoderState;
