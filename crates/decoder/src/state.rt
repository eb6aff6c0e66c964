//! What a decoder remembers.

use crate::settling::Waiting;
use payload::Mode;
use retire::Event;

/// How far a trace has come.
#[derive(Clone, Copy, PartialEq, Eq)]
pub enum Phase {
    /// No packet came.
    Unopened,
    /// The trace was opened.
    Running,
    /// Packets were lost: those that come are passed over until a synchronisation.
    PassingOver,
    /// The trace was closed.
    Closed,
}

/// All that a decoder remembers of the packets that it took. [`Decoder::state`](crate::Decoder::state) returns it, and
/// [`Decoder::from_state`](crate::Decoder::from_state) makes the decoder from it again.
#[derive(Clone, Copy, PartialEq, Eq)]
pub struct DecoderState {
    /// How far the trace has come.
    pub phase: Phase,
    /// The address packet that waits for the one that follows it, if one waits.
    pub waiting: Option<Waiting>,
    /// The last event, if there is one since the trace began or, after a loss, since the stretch began.
    pub last: Option<Event>,
    /// The mode in which address fields are read.
    pub mode: Mode,
    /// The mode that the packet announced which opened the trace, where that packet came.
    pub announced: Option<Mode>,
    /// The last reported address; 0 before the first.
    pub reported: u64,
}
