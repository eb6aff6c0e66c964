//! What is left of harts' logs where messages are lost.
//!
//! [`collect_lossy`] takes the messages of several harts, some of which may be lost. For each hart it returns
//! [`HartPieces`]: the parts of its log that the messages still settle, and whether the hart is closed.
//! [`collect_watched`] does the same, and tells a [`ProgressSink`](message::ProgressSink) of each message.
//!
//! A part is a stretch or a gap. A stretch is events that follow one another in the log. It begins at the packet that
//! opens the trace or at a synchronisation packet, and has all events from there on that the packets up to the next
//! loss settle. A gap is how many numbers are missing before a run of messages with consecutive numbers. The theorem
//! [`stretches_are_whole`] says that stretches are so, and that those of a hart are disjoint and in the order of its
//! log.
#![tactic(auto)]

mod collecting;
mod fault;
mod hart_trace;
mod laws;
mod part;

pub use collecting::{collect_lossy, collect_watched};
pub use fault::LossyFault;
pub use laws::{stretches_are_whole, stretches_stand_apart};
pub use part::{HartPieces, Part};
