//! A log to a capture and back.

ghost use Rattle.std.specs.Prelude.{◌≡◌, IfOk, Ok, [], ◌∷◌, map};
ghost use Rattle.etrace.specs.capture.Received.{events_in};
ghost use Rattle.etrace.specs.logs.Log.{log_of_records, records_of};

use anyhow::Result;
use etrace::capture::{Version, decode_capture, encode_capture};
use etrace::logs::{Event, LegalLog, Program, read_log_from_slice};
use etrace::packets::Mode;
use std::alloc::Global;

/// Encodes the log of one hart as a capture, and decodes the capture. The one list that comes back is the log.
pub(crate) fn there_and_back(alloc: Global, image: Vec<u8>, text: &[u8]) -> Result<Vec<Vec<Event>>>
    ensures { IfOk result (λ lists. map Ok (events_in lists.items) ≡ log_of_records (records_of text.now) ∷ []) }
{
    let program = Program::new(0x8000_0000, image)?;
    let events = read_log_from_slice(alloc, alloc, text)?;
    let logs = [LegalLog::new(&program, events).map_err(|(fault, _)| fault)?];
    let mut capture = Vec::new(alloc);
    encode_capture(&logs, 1024, Mode::Differential, Version::Two, &mut capture)?;
    let decoded = decode_capture(alloc, &program, 1, capture.as_slice())?;

    // This is called for its contract: the log is legal.
    let _ = logs[0].events();
    match decoded.fault {
        Some((_, fault)) => Err(fault.into()),
        None => Ok(decoded.harts),
    }
}
