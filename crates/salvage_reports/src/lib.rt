//! What is salvaged of a capture that may be damaged, and what salvaging does with each message, as text or tables.
//!
//! [`write_salvaged`] looks for the frames among any bytes, salvages what their messages leave of the logs of the
//! harts, and writes it in a [`Layout`]: as lines with the rows of the logs, as lines without rows, or as a table of
//! CSV. It returns what it [`Found`], which says whether each hart is closed and whether anything is lost.
//! [`find_salvaged`] only finds it, and [`write_found`] writes it. [`frames_of`] reads the messages of a capture's
//! frames and where they are. The table has a row for each hart, for each part of what is left of its log, for its
//! copies and its late messages, for each run of bytes that belong to no frame, and for the strangers.
//! [`salvaged_rows_are_read_back`] says that `csv` reads each row as its fields.
//!
//! [`in_rows`] finds which rows of its hart each message settles that salvaging takes. [`write_treated`] writes a line or
//! a row for each frame of some harts of a [`TreatedCapture`] and for each run of bytes between: where it is, what the
//! message says, and the word for what is done with it. The columns are those of
//! a listing, with one for whether the message is far. [`treated_rows_are_read_back`] says that `csv` reads back each row, and [`taken_messages_have_their_fields`] that a message has the fields of its effect as in a listing.
#![tactic(auto)]

mod damage;
mod fields;
mod finding;
mod found;
mod found_writing;
mod frame_reading;
mod hart_items;
mod hart_rows;
mod laws;
mod messages_line;
mod offsets;
mod progress;
mod salvaged_items;
mod salvaged_writing;
mod shown_parts;
mod stretch_ends;
mod totals;
mod treated_messages;
mod treated_writing;
mod words;

pub use finding::find_salvaged;
pub use found::Found;
pub use found_writing::{Layout, write_found};
pub use frame_reading::{Frames, frames_of};
pub use hart_items::items_of;
pub use hart_rows::{TreatedInRows, in_rows};
pub use laws::{
    accepted_messages_are_taken, all_harts_are_treated, messages_of_logs_are_taken,
    salvaged_rows_are_read_back, taken_messages_have_their_effect,
    taken_messages_have_their_fields, totals_add_up, treated_rows_are_read_back,
    undamaged_captures_are_listed_alike,
};
pub use messages_line::write_messages;
pub use progress::WatchSalvage;
pub use salvaged_writing::write_salvaged;
pub use treated_writing::{TreatedCapture, write_treated};
