//! Decodes the packets of an instruction trace to the log that they describe. Where the retirements of a packet end is
//! as the decoder algorithm of the E-Trace specification says, with the choices of this project's profile.
#![tactic(auto)]

mod added_events;
mod decoding;
mod fault;
mod feeding;
mod finding;
mod kinds;
mod laws;
mod lines;
mod paths;
mod piecewise;
mod remembering;
mod reporting;
mod rest;
mod retracing;
mod segments;
mod settling;
mod skips;
mod state;
mod stepping;
mod unwritten;
mod walking;

pub use decoding::Decoder;
pub use fault::DecodeFault;
pub use finding::StraightRuns;
pub use laws::{
    closed_where_last_closes, first_packets_describe_a_beginning,
    more_packets_describe_a_longer_log, one_decoder_stands, one_log_is_described,
    passing_over_stands_for_nothing, walks_are_short,
};
pub use paths::Paths;
pub use settling::Waiting;
pub use state::{DecoderState, Phase};
pub use unwritten::Unwritten;
