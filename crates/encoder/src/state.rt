//! What an encoder keeps between two events, as a value of the caller's.

use crate::due::Due;
use payload::{Mode, Outcomes};
use retire::Event;

/// What an encoder keeps between two events. [`Encoder::state`](crate::Encoder::state) gives it, and
/// [`Encoder::from_state`](crate::Encoder::from_state) goes on from it. Each value of this type is the state of an
/// encoder, but not each of an encoder that events of a legal log were pushed to.
#[derive(Clone, Copy)]
pub struct EncoderState {
    /// How many retirements come between two periodic syncs: the period less 1.
    pub between: u16,
    /// How many retirements come before the next periodic sync.
    pub left: u16,
    /// The last event, which is held back until it is known what follows; `None` before the first.
    pub held: Option<Event>,
    /// What is due for it.
    pub due: Due,
    /// The outcomes of the branches that no packet has reported yet.
    pub pending: Outcomes,
    /// What the address fields hold.
    pub mode: Mode,
    /// The last reported address; 0 before the first.
    pub reported: u64,
}
