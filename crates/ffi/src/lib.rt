//! The calls for C: on numbers and bytes, each a few lines over a proved call.
//!
//! A call reads the slices that it is given, writes to those that it is given to write, and returns a status. It keeps
//! nothing from one call to the next; what an encoder or a decoder keeps from one step to the next is a struct of the
//! caller's. What a call gives back as bytes, packets or events goes into a buffer of the caller's. Where that is too
//! small, the call says how many it wants and writes none of them.
//!
//! A program is handed in as pieces of its image, sorted by base, which are not copied. One piece takes no memory. Of two
//! or more a list is made while the call runs; where that fails, the status is [`MEMORY`](status::MEMORY), and what the
//! call writes stays, but for counts and rows, which are 0.
//!
//! The static library `tracebench_c` exports each call with the same contract. C passes a slice as a pointer and a
//! length, and a reference as a pointer; `include/tracebench.h` declares the calls as C sees them, and says what a
//! caller owes: no pointer is null, and what is written to overlaps nothing else.
#![tactic(auto)]

mod aligned_audit;
mod aligned_harts;
mod aligned_reading;
mod checking;
mod comparing_logs;
mod decoder_state;
mod decoding;
mod dumping;
mod encoder_state;
mod encoding;
mod events;
mod explaining_log;
mod fault;
mod feeding;
mod feeding_all;
mod generating;
mod handing;
mod headers;
mod images;
mod legal_texts;
mod lines;
mod listing_capture;
mod measuring_logs;
mod messages;
mod numbers;
mod packing;
mod path_all;
mod path_arrivals;
mod path_ending;
mod path_harts;
mod path_numbers;
mod pushing;
mod pushing_all;
mod pushing_blocks;
mod receiving;
mod salvaged;
mod salvaging_capture;
pub mod status;
mod texts;
mod version;

pub use checking::{tracebench_check, tracebench_check_events};
pub use comparing_logs::tracebench_compare;
pub use decoder_state::{CLOSED, DecoderNumbers, PASSING_OVER, RUNNING, UNOPENED};
pub use decoding::{DecodeAllEnd, DecodedTexts, HartEnd, tracebench_decode_all};
pub use dumping::{DumpEnd, tracebench_dump};
pub use encoder_state::{
    DUE_HANDLER, DUE_NOTHING, DUE_SYNC, DUE_TARGET, DUE_TRAP, DUE_TRAP_OR_HANDLER, EncoderNumbers,
};
pub use encoding::{LogPlace, VERSION_ONE, VERSION_TWO, tracebench_encode};
pub use events::{EventNumbers, RETIREMENT, TRAP_TAKEN};
pub use explaining_log::{ExplainEnd, Explained, tracebench_explain};
pub use fault::{Fault, ImageFault};
pub use feeding::{FedPayload, tracebench_decoder};
pub use feeding_all::tracebench_feed_all;
pub use generating::{WalkNumbers, tracebench_generate_events, tracebench_generate_image};
pub use headers::{HeaderNumbers, tracebench_read_header, tracebench_write_header};
pub use images::ImagePiece;
pub use lines::tracebench_capture_of_lines;
pub use listing_capture::{CSV, TEXT, tracebench_list, tracebench_list_salvaged};
pub use measuring_logs::tracebench_measure;
pub use messages::{MessageNumbers, tracebench_read_message, tracebench_write_message};
pub use numbers::{
    ADDRESS, DIFFERENTIAL, ENDED_NTR, ENDED_REP, FULL, MAP, NOTIFY, OPEN, PLAIN, PacketNumbers,
    SYNC, TRAP, UPDISCON,
};
pub use packing::{tracebench_pack, tracebench_unpack};
pub use path_all::{AuditBy, tracebench_audit_all};
pub use path_numbers::{
    Arrival, BY_PACKETS, ByteRun, FATE_CHANGED, FATE_EXTRA, FATE_IN_ORDER, FATE_LATE, FATE_REPEAT,
    FATE_STRANGER, HartRowNumbers, HartTally, LostRun, PathEnd, SentPlace, UNNUMBERED,
};
pub use pushing::{tracebench_encoder, tracebench_finish};
pub use pushing_all::tracebench_push_all;
pub use receiving::{HartNumbers, tracebench_receive, tracebench_resume};
pub use salvaged::{HARTS_SHOWN, SUMMARY};
pub use salvaging_capture::tracebench_salvage;
pub use texts::{TextEnd, Written};
pub use version::tracebench_version;
