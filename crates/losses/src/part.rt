//! What is left of a hart's log.

use retire::Event;
use std::alloc::{Allocator, Global};

/// A part of what is left of a hart's log.
#[derive(Drop)]
pub enum Part<A: Allocator = Global> {
    /// A stretch: events that follow one another in the log, one at least.
    Stretch(Vec<Event, A>),
    /// A gap: how many numbers are missing between two messages of the hart, or before its first, one at least.
    Gap(u64),
}

/// What is left of a hart's log, and whether the hart is closed.
#[derive(Drop)]
pub struct HartPieces<A: Allocator = Global> {
    /// The parts, in the order of the log.
    pub parts: Vec<Part<A>, A>,
    /// Whether the hart's closing packet came.
    pub closed: bool,
}
