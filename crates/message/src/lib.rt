//! The messages of a capture, and the demultiplexer that splits them by hart.
//!
//! A [`Message`] is one payload of one hart with its number, and a capture is messages in a row. [`write_message`]
//! writes one, and [`read_message`] reads one. In version 2 a [`Header`] comes before them, which [`write_header`]
//! writes and [`read_start`] reads. [`Messages`] reads both from bytes in memory. [`Demux`] takes the messages of
//! several harts. It accepts only those that come in each hart's order, or, where some may be lost, those with rising
//! numbers. Only [`Demux::new`] takes memory.
//!
//! A [`HartRange`] says which harts of a capture are looked at, [`range_of`] reads it from a text as `0-3` or `5`, and
//! [`HartRange::ALL`] is every hart. Messages of other harts are passed over: what is printed, counted and checked is
//! what the messages of the harts in the range give, in their order.
//!
//! A call that goes over the messages of a capture takes a [`ProgressSink`], and tells it after each message.
//! [`NoProgress`] is for callers who do not want to know how far the messages are worked through.
#![tactic(auto)]

mod capacity;
mod demux;
mod fault;
mod hart;
mod head;
mod header;
mod in_memory;
mod laws;
mod message;
mod progress;
mod range;
mod range_reading;
mod reading;
mod writing;

pub use capacity::MOST_CAPACITY;
pub use demux::Demux;
pub use fault::{DemuxFault, MessageFault};
pub use hart::Hart;
pub use head::HEAD;
pub use header::{HEADER_SIZE, Header, MOST_HARTS, Start, Version};
pub use in_memory::Messages;
pub use laws::all_harts_select_every_message;
pub use message::Message;
pub use progress::{NoProgress, ProgressSink};
pub use range::HartRange;
pub use range_reading::range_of;
pub use reading::{read_message, read_start};
pub use writing::{write_header, write_message};
