//! The logs of a capture: an index of its messages, and the rows of each hart by it, in one thread or in several.
//!
//! [`survey_messages`] decodes the messages of all harts, or of some, and throws the events away. It finds the first
//! fault, which harts are closed, and where each hart's messages begin. [`survey_capture`] does so of a whole capture,
//! with a header or without one. It holds 8 bytes a message, however many events there are.
//!
//! A second pass decodes one hart after the other: [`packet_at`] has the packet of a message that begins at a place of
//! the index, and [`feed_packet`] decodes it, with the events a piece at a time. [`HartEvents`] is at a place in a
//! hart's events, and hands out as many events at a time as a piece has capacity for, so it can go on beside other
//! work. [`write_part`] writes the rows of a part of a hart's log, from a decoder on that has the packets before it. It
//! holds one piece of events and of text, the [`RowBuffers`], which are taken before anything is written.
//!
//! [`survey_side_by_side`] finds in several threads what [`survey_messages`] finds, and keeps states of decoders on the
//! way through each hart's messages; [`survey_capture_side_by_side`] does so of a whole capture. One thread walks over
//! the messages and notes where each begins; then threads decode the harts. A long hart is decoded by several threads.
//! Its messages are cut behind synchronisations, and each section is decoded from the state that its synchronisation
//! should lead to. Where the messages before it led to that very state, what was decoded holds; else the section is
//! decoded again.
//!
//! [`write_harts_side_by_side`] writes the logs of harts. The first pass left marks on the way: decoders from which decoding
//! can go on. So each hart's messages are cut into stretches, from one mark to the next. Each thread takes the stretch that
//! comes next and decodes it into a buffer of text. The calling thread writes the buffers in order, and decodes too while
//! the next one is not ready. [`write_decoded_side_by_side`] does both passes.
//!
//! A stretch whose text is longer than a buffer is decoded by the calling thread, which needs no buffer for it. So are all
//! stretches where a single thread is asked for, or where the allocation of buffers fails. So the memory does not grow with
//! the number of events.
#![tactic(auto)]

mod ahead;
mod body;
mod buffers;
mod capturing;
mod decoded;
mod events;
mod feeding;
mod hart;
mod harts;
mod index_capturing;
mod indexing;
mod laws;
mod lists;
mod mark;
mod own;
mod packet_rows;
mod part;
mod parts;
mod placing;
mod planning;
mod progress;
mod ready;
mod rounds;
mod same;
mod section_ends;
mod section_groups;
mod sections;
mod selecting;
mod sharing;
mod shelf;
mod slot;
mod stretch;
mod surveying;
mod text;
mod trail;
mod turns;
mod walking;
mod writing;

pub use buffers::RowBuffers;
pub use capturing::{MarkedCaptureSurvey, survey_capture_side_by_side};
pub use decoded::{DecodedHarts, write_decoded_side_by_side};
pub use events::HartEvents;
pub use feeding::feed_packet;
pub use harts::write_harts_side_by_side;
pub use index_capturing::{CaptureSurvey, survey_capture};
pub use indexing::{Survey, survey_messages};
pub use laws::all_harts_are_decoded;
pub use mark::Mark;
pub use part::write_part;
pub use placing::{add_selected, packet_at};
pub use progress::WatchSurvey;
pub use selecting::{Selection, selects_hart};
pub use sharing::Sharing;
pub use surveying::{MarkedSurvey, survey_side_by_side};
pub use trail::MARK_EVENTS;
