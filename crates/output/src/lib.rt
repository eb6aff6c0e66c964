//! Bytes, text and fields of CSV for an output that may fail: what was appended then is a prefix of what was to be
//! written.
//!
//! std's `write_all` and `writeln!` promise nothing of an output that failed; [`write_bytes`] and [`write_text`] do.
//!
//! A field of digits is written as it is. A field of any bytes is written by [`write_field`], with quotes where it calls
//! for them, so `csv` reads back what a row was written of, as [`quoted_rows_are_read_back`] says. No call takes memory.
#![tactic(auto)]

mod bytes;
mod digits;
mod laws;
mod number;
mod part;
mod quoted;
mod text;

pub use bytes::write_bytes;
pub use digits::Digits;
pub use laws::quoted_rows_are_read_back;
pub use number::Number;
pub use quoted::write_field;
pub use text::write_text;
