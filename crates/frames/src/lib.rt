//! The messages of a capture that may be damaged, and the bytes between them.
//!
//! A *frame* is a complete message that looks like one: its hart is known, and its number is below 2^32. [`Spans`] goes
//! over bytes from a place on and gives each frame that it takes, and each longest run of bytes between them.
//! [`message_in`] is the complete message at a place, whatever its hart and its number.
//!
//! [`GuidedScan`] does so where it is known what was sent: it gives each message that it takes and each longest run of
//! bytes between them, as a span or, with nothing copied, as a [`BorrowedSpan`]. At damage it goes on at the next place
//! where a message is that was sent. What was sent is a [`Sent`]. [`is_framed`] says whether bytes are messages to
//! their end.
//!
//! [`start_of`] returns how a capture begins, [`spans_of`] its frames and the bytes between them, and [`harts_counted`]
//! how many harts it has. [`search_capture`] writes a line of text for each frame and for each run of bytes between,
//! [`search_harts`] for frames of some harts alone. [`write_start`] and [`mode_of`] are what a header decides of such
//! lines. Nothing here takes memory.
#![tactic(auto)]

mod borrowed_span;
mod counting;
mod frame;
mod framed;
mod guided_taking;
mod laws;
mod reading;
mod searched;
mod sent;
mod span;
mod spans;
mod start;
mod taking;

pub use borrowed_span::{BorrowedMessage, BorrowedSpan};
pub use counting::harts_counted;
pub use frame::{END_OF_FRAMES, begins_frame, message_in, message_size};
pub use framed::is_framed;
pub use laws::{all_harts_choose_every_span, known_messages_are_taken};
pub use reading::GuidedScan;
pub use searched::{mode_of, search_capture, search_harts, write_start};
pub use sent::{Sent, Sight};
pub use span::Span;
pub use spans::Spans;
pub use start::{CaptureStart, first_place, known_harts, spans_of, start_of};
