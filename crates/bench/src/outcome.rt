//! The outcome of a replay or a run: what was decoded of each hart.

use crate::stop::Stop;
use payload::Packet;
use retire::Event;
use std::alloc::{Allocator, Global};

/// What was decoded of a hart.
#[derive(Drop)]
pub struct HartOutcome<A: Allocator = Global> {
    /// The packets that were decoded, where they are kept, and else none.
    pub packets: Vec<Packet, A>,
    /// How many packets were decoded.
    pub taken: u64,
    /// How many bytes their payloads had.
    pub bytes: u64,
    /// The events that they decode to.
    pub decoded: Vec<Event, A>,
    /// Whether the closing packet was decoded.
    pub closed: bool,
    /// Whether memory for this hart, or the thread of its worker, was refused.
    pub refused: bool,
}

/// What was decoded of all harts.
#[derive(Drop)]
pub struct Outcome<A: Allocator = Global> {
    /// The outcome of each hart, at the hart's place.
    pub harts: Vec<HartOutcome<A>, A>,
    /// Why some hart's packets were not all decoded, where that is so.
    pub stop: Option<Stop>,
}
