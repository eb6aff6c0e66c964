//! The events of a hart, and logs of them: reading the text of a log, with a fault for each reason why it is refused,
//! and writing it so that it reads back.
#![tactic(auto)]

mod boundary;
mod by_csv;
mod eight_digits;
mod ending;
mod event;
mod fault;
mod field;
mod fill;
mod given;
mod hex;
mod in_memory;
mod itype;
mod laws;
mod limit;
mod line;
mod log_reader;
mod mark;
mod piece;
mod piece_buffer;
mod plain;
mod quoted_row;
mod read;
mod row;
mod short_line;
mod short_quoted_row;
mod short_row;
mod source;
mod write;

pub use event::Event;
pub use fault::{LogFault, WriteFault};
pub use given::Given;
pub use hex::number;
pub use in_memory::read_log_from_slice;
pub use itype::{ITYPE_NOT_TAKEN, ITYPE_OTHER, ITYPE_TAKEN, ITYPE_TRAP_RETURN, ITYPE_UNINFERABLE};
pub use laws::{
    long_read_is_in_range, long_written_is_read_back, plain_is_parted, read_is_in_range,
    written_is_plain, written_is_read_back,
};
pub use limit::{MOST_LONG_ROWS, MOST_ROWS};
pub use log_reader::LogReader;
pub use piece_buffer::PieceBuffer;
pub use read::read_log;
pub use source::{ReaderSource, Source, SourceFault};
pub use write::{LOG_ROOM, begin_log_in, end_log_in, write_log, write_log_in, write_rows_in};
