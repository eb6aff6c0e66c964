//! What packet each message of a capture has and which events it settles: a line of text or a row of CSV for each.
//!
//! [`list_capture`] writes a line for each message: its offset in the file, its packet, and the events that it adds to
//! its hart's list. Places are named by symbols where there are some. In the [`Form`] of a table it writes the names of
//! the columns and a row for each of these messages. [`ListInput`] has the form, the harts whose messages are listed,
//! and what else goes in; a [`ProgressSink`](message::ProgressSink) is told of each message. [`rows_are_read_back`]
//! says that `csv` reads back each row.
//!
//! [`MessageText`], [`write_places`], [`SettledRows`] and [`PacketEnding`] are the parts of such a line, for other lists of
//! messages. [`MessageCells`], [`read_waits`], [`read_closes`], [`flag_field`], [`RowCells`], [`Place`] and
//! [`write_names`] are the parts of such a table.
#![tactic(auto)]

mod capture_listing;
mod cells;
mod endings;
mod entries;
mod form;
mod input;
mod laws;
mod lines;
mod message_listing;
mod message_text;
mod names;
mod outcome;
mod packet_cells;
mod places;
mod rows;
mod settled_rows;

pub use capture_listing::list_capture;
pub use cells::{MessageCells, Place, flag_field};
pub use endings::{read_closes, read_waits};
pub use form::Form;
pub use input::ListInput;
pub use laws::rows_are_read_back;
pub use message_text::{MessageText, PacketEnding};
pub use names::write_names;
pub use outcome::Listed;
pub use places::write_places;
pub use settled_rows::{RowCells, SettledRows, ShownRows};
