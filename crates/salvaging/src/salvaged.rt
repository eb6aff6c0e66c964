//! What is salvaged of messages.

use crate::far_number::FarNumber;
use crate::part::Part;
use payload::Mode;
use std::alloc::{Allocator, Global};

/// What is salvaged of one hart's messages.
#[derive(Drop)]
pub struct SalvagedHart<A: Allocator = Global> {
    /// What is left of its log, in the order of the numbers.
    pub parts: Vec<Part<A>, A>,
    /// How many messages are copies: an earlier message of the hart has the same number and the same payload.
    pub copies: usize,
    /// How many numbers each gap among the parts is reported to miss, in their order, as if no far number had come; 0 where
    /// the number after the gap is far, and no gap is reported.
    pub gaps: Vec<u64, A>,
    /// The far numbers up to the hart's end, in rising order: one for each 0 among the gaps.
    pub far: Vec<FarNumber, A>,
    /// How many messages are late: they are used, and neither bad, alone nor far, and an earlier message of which this is
    /// true has a greater number.
    pub late: usize,
    /// How many messages are decoded: they are used, neither bad nor alone, and of a stretch.
    pub decoded: usize,
    /// How many messages are passed over: they are used, neither bad nor alone, and a synchronisation is looked for.
    pub passed: usize,
    /// How many messages are of doubtful numbers, and no copies.
    pub doubtful: usize,
    /// Whether the hart is closed: the last number that is used, up to the hart's end, has a packet that closes the
    /// trace.
    pub closed: bool,
    /// The mode in which its trace is read: the one that its message with number 0 announces, or else the one handed in.
    pub mode: Mode,
}

/// What is salvaged of messages of several harts.
#[derive(Drop)]
pub struct Salvaged<A: Allocator = Global> {
    /// What is salvaged of each hart.
    pub harts: Vec<SalvagedHart<A>, A>,
    /// How many messages are strangers: their hart is not known, or their number is 2^63 or more.
    pub strangers: usize,
}
