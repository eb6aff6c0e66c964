//! What tests share: cases as lines of data files, which a program plays, and what refuses memory or fails.
//!
//! A file of cases has a case a line, `VERB ARGUMENTS -> WANTED`. Where a line has no ` -> `, nothing is wanted. Lines
//! that begin with `> ` after it are further lines that are wanted. A line that begins with `< ` goes on with the case
//! before it, and one that begins with `>> ` at once with what is wanted in the line before it. A line that begins with
//! `#` is a remark, and so is an empty one.
//!
//! Lines between `repeat N` and `end` come N times, so that size costs no text. In them `{A+S}` stands for A the first
//! time and for S more each further time; `{A-S}` for S less; `{A+^S}` for S more the first time, and each further time for
//! twice as much more. Numbers are decimal; `x` at the end makes them hexadecimal, `/N` and `<N` N bytes in hexadecimal, the
//! highest or the lowest first. In a block in a block, `{{` begins a field of the inner one.
//!
//! A case that gives something else goes to standard error, as `FILE:LINE: wanted WANTED, came CAME`; of long texts the
//! first lines that differ.
//!
//! Arguments have the same forms in all files:
//!
//! - Addresses and the fields of events and packets are hexadecimal, counts and the numbers of harts and messages decimal.
//! - `N*` before an argument stands for the argument so often.
//! - A mode is `diff` or `full`, bytes are pairs of hexadecimal digits, a message is `HART.NUMBER:PAYLOAD`.
//! - An event is a row of a log, `ADDR,ITYPE,PRIV,CAUSE,TVAL`; a packet is written as `dump` does.
//! - A text is between double quotes. In it `\n`, `\r` and `\t` are as in Rust, `\xHH` is a byte, `\{N*TEXT}` a text so
//!   often, `\[N*LINE]` a line so often, and `\(N*FIRST+STEP,TEXT)` lines that begin with rising hexadecimal numbers.
//!
//! Tests also have an allocator that refuses one request for memory or holds it back, and a reader and a writer that
//! fail at one call. Each is made with a number, which says which request is refused or which call fails; all others are
//! granted. A test goes over the numbers from 0 on, with a [`Refusing`], a [`FailingReader`] or a [`FailingWriter`] for
//! each, until nothing is refused and nothing fails. So each request that a call makes is refused once, or each of its
//! calls of the device fails once.
#![tactic(auto)]

mod bytes;
mod case;
mod count;
mod events;
mod files;
mod heap;
mod hold;
mod lines;
mod packets;
mod playing;
mod quoted;
mod reader;
mod repeats;
mod tally;
mod writer;

pub use bytes::{bytes_of, piece_of, text_of};
pub use case::{Case, cut};
pub use events::{events_of, put_rows};
pub use files::{DataFile, data_files};
pub use heap::Refusing;
pub use lines::{Line, lines_of};
pub use packets::{
    add_message, message_of, messages_of, mode_of, next_mode, outcomes_of, packet_of, payload_of,
    report_of,
};
pub use playing::{Verbs, play};
pub use quoted::put_quoted;
pub use reader::FailingReader;
pub use tally::Tally;
pub use writer::FailingWriter;
