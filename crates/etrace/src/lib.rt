//! The bench as one library: programs and logs, packets, captures, the funnel, and what losses and damages leave.
//!
//! From a log to a capture and back; the program `first_use` is made of this file and runs it over files:
//!
//! ```rust
//! ghost use Rattle.std.specs.Prelude.{◌≡◌, IfOk, Ok, [], ◌∷◌, map};
//! ghost use Rattle.etrace.specs.capture.Received.{events_in};
//! ghost use Rattle.etrace.specs.logs.Log.{log_of_records, records_of};
//!
//! use anyhow::Result;
//! use etrace::capture::{Version, decode_capture, encode_capture};
//! use etrace::logs::{Event, LegalLog, Program, read_log_from_slice};
//! use etrace::packets::Mode;
//! use std::alloc::Global;
//!
//! /// Encodes the log of one hart as a capture, and decodes the capture. The one list that comes back is the log.
//! pub(crate) fn there_and_back(alloc: Global, image: Vec<u8>, text: &[u8]) -> Result<Vec<Vec<Event>>>
//!     ensures { IfOk result (λ lists. map Ok (events_in lists.items) ≡ log_of_records (records_of text.now) ∷ []) }
//! {
//!     let program = Program::new(0x8000_0000, image)?;
//!     let events = read_log_from_slice(alloc, alloc, text)?;
//!     let logs = [LegalLog::new(&program, events).map_err(|(fault, _)| fault)?];
//!     let mut capture = Vec::new(alloc);
//!     encode_capture(&logs, 1024, Mode::Differential, Version::Two, &mut capture)?;
//!     let decoded = decode_capture(alloc, &program, 1, capture.as_slice())?;
//!
//!     // This is called for its contract: the log is legal.
//!     let _ = logs[0].events();
//!     match decoded.fault {
//!         Some((_, fault)) => Err(fault.into()),
//!         None => Ok(decoded.harts),
//!     }
//! }
//! ```
//!
//! The clause is proved: where a list comes back, it is the log of the text, by the contract of
//! [`decode_capture`](capture::decode_capture). The program goes on to two logs and their replay.
//!
//! A log may be too long to be held. These calls take its events a piece at a time:
//!
//! - [`LogReader`](streams::LogReader) reads the events of a log from a [`Source`](streams::Source), such as a
//!   [`ReaderSource`](streams::ReaderSource) over any reader, into a [`PieceBuffer`](streams::PieceBuffer).
//! - [`PathCheck`](logs::PathCheck) checks them against the program, as [`check`](logs::check) does a list.
//! - [`explain_row`](logs::explain_row) writes why a row is illegal, from that row and the row before.
//! - [`HartMessages`](capture::HartMessages) writes the messages of the hart, as
//!   [`encode_hart`](capture::encode_hart) does of a complete log.
//! - [`LogMeasures`](packets::LogMeasures) counts events, packets and bytes, as [`measure`](packets::measure) does, and
//!   [`write_measures_of`](packets::write_measures_of) writes the counts of several harts as a table.
//! - [`Files`](streams::Files) is a place that files are opened from; an open file is a
//!   [`FileReader`](streams::FileReader).
//! - [`made_of_logs`](streams::made_of_logs) reads and checks the logs at several paths side by side, and a
//!   [`LogTask`](streams::LogTask) makes something of the events of each.
//!
//! Each module re-exports what a caller wants together: [`logs`], [`streams`], [`packets`], [`capture`], [`runs`],
//! [`lossy`], [`salvaged`] and [`stimuli`]; [`laws`] has the theorems that no call carries. The crate has no code of its own. The
//! definitions that the contracts cite are re-exported too: a crate above names them as
//! `Rattle.etrace.specs.MODULE.FILE`, and the types as `Rattle.etrace.specs.declared.MODULE.TYPE`.
#![tactic(auto)]

pub mod capture;
pub mod laws;
pub mod logs;
pub mod lossy;
pub mod packets;
pub mod runs;
pub mod salvaged;
pub mod stimuli;
pub mod streams;
