//! Messages of several harts and the captures that hold them: writing, also from lines of text, reading, dumping,
//! listing, also as a table, and decoding, of all harts or of some, in one thread or in several.

pub use captures::{
    CaptureBytes, CaptureFault, CaptureFront, CaptureOutcome, Dumped, Form, HartMessages, HexLines,
    LineFault, LinesFault, Offset, PassedLines, ReadFault, ReadingText, Settings, WholeCapture,
    decode_capture, decode_harts, decode_watched, dump_capture, dump_harts, dump_watched,
    encode_capture, encode_hart, encode_hex, hex_lines, read_front, read_messages,
    write_bytes_line, write_capture, write_header_line, write_message_line, write_start,
};
pub use listing::{Form as ListingForm, ListInput, Listed, list_capture};
pub use message::{
    Demux, DemuxFault, HartRange, Header, MOST_HARTS, Message, MessageFault, Messages, NoProgress,
    ProgressSink, Start, Version, range_of, read_message, read_start, write_header, write_message,
};
pub use parallel_decode::{
    CaptureSurvey, DecodedHarts, HartEvents, MARK_EVENTS, Mark, MarkedCaptureSurvey, MarkedSurvey,
    Selection, Sharing, Survey, WatchSurvey, feed_packet, packet_at, survey_capture,
    survey_capture_side_by_side, survey_messages, survey_side_by_side, write_decoded_side_by_side,
    write_harts_side_by_side,
};
pub use receiver::{ReceiveFault, Receiver};
pub use symbols::{Named, Symbols, SymbolsFault, write_name, write_symbol};
