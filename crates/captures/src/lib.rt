//! Captures as a whole: from the logs of harts, or from lines of text, to the bytes of a capture; from such bytes to
//! text and to logs; and what the packets of a log cost.
//!
//! [`encode_capture`] writes the messages of logs as a capture, and [`encode_hex`] as lines of hexadecimal;
//! [`write_start`] and [`encode_hart`] write the same hart by hart, in a [`Form`]; [`hex_lines`] writes the messages of
//! a hart's payloads as lines. [`HartMessages`] takes the events of a log a piece at a time, and writes the messages of
//! the packets that are due then: together they are what [`encode_hart`] writes of the complete log.
//!
//! [`decode_capture`] returns the events of each hart of a capture, [`read_messages`] its messages as they are,
//! [`read_front`] those up to the first place where there is none. [`dump_capture`] writes a line of text for each
//! message, [`write_message_line`] that line alone, and [`write_bytes_line`] the line of bytes that are of no message.
//! [`decode_watched`] and [`dump_watched`] do the same as the calls without a watch, and tell a
//! [`ProgressSink`](message::ProgressSink) of each message; [`decode_harts`] and [`dump_harts`] do so of some harts
//! alone.
//!
//! A user's own dump of messages becomes a capture: each line has a hart, a number or none, and the payload's bytes in
//! hexadecimal. [`write_capture`] writes the capture of such a text, or returns the first line that has a fault and
//! writes nothing. It takes no memory.
//!
//! [`measure`] counts the events, the packets and the payload bytes of a legal log at a period and in a mode, and
//! [`LogMeasures`] those of a log whose events come piece by piece. [`write_measures`] and [`write_measures_of`] write
//! the counts of several logs as a table, and those of all together. No call allocates.
#![tactic(auto)]

mod capture_decoding;
mod capture_line;
mod capture_reading;
mod dumping;
mod encoding;
mod form;
mod hart_messages;
mod laws;
mod line_checking;
mod line_cursor;
mod line_fault;
mod line_field;
mod line_form;
mod line_settings;
mod line_writing;
mod lines;
mod log_measures;
mod measure_counting;
mod measure_row;
mod measure_table;
mod measured_harts;
mod measures;
mod messages;
mod numbering;
mod offsets;
mod outcome;
mod packet_text;
mod passed_lines;

pub use capture_decoding::{decode_capture, decode_harts, decode_watched};
pub use capture_reading::{CaptureFront, ReadFault, WholeCapture, read_front, read_messages};
pub use dumping::{
    Dumped, dump_capture, dump_harts, dump_watched, write_header_line, write_message_line,
};
pub use encoding::{encode_capture, encode_hart, encode_hex, write_start};
pub use form::{CaptureBytes, Form, HexLines};
pub use hart_messages::HartMessages;
pub use laws::{
    hex_lines_become_the_capture, hex_lines_say_their_messages, lines_stream_the_capture,
    low_numbers_are_recovered,
};
pub use line_fault::{LineFault, LinesFault};
pub use line_settings::Settings;
pub use line_writing::write_capture;
pub use lines::hex_lines;
pub use log_measures::{LogMeasures, measure};
pub use measure_table::{write_measures, write_measures_of};
pub use measures::Measures;
pub use offsets::{Offset, write_bytes_line};
pub use outcome::{CaptureFault, CaptureOutcome};
pub use packet_text::{MapText, ReadingText, address_report_text, branch_text};
pub use passed_lines::PassedLines;
