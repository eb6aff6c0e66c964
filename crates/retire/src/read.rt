//! Reading a log.

ghost use Rattle.std.specs.Prelude.{◌≡◌, ◌⊎◌, ◌≤◌, [], IfOk, IfErr, IfSome, vec_len};
ghost use Rattle.retire.specs.Log.{IsReadOrMemory, log_of_records, most_rows, records_of};

use crate::event::Event;
use crate::fault::LogFault;
use crate::limit::MOST_ROWS;
use crate::log_reader::LogReader;
use crate::piece_buffer::PieceBuffer;
use crate::source::ReaderSource;
use std::alloc::{Allocator, Global};
use std::io::Read;

/// The events of the log that a source holds, pushed to a list that is empty.
pub(crate) fn read_from<A: Allocator, R: Read + Drop>(
    events: Vec<Event, A>,
    global: Global,
    source: R,
) -> Result<Vec<Event, A>, LogFault>
    requires empty { events.items ≡ [] }
    ensures events { IfSome (R.remaining source)
        (λ text. IfOk result (λ events. log_of_records (records_of text) ≡ Ok events.items)) }
    ensures faults { IfSome (R.remaining source)
        (λ text. IfErr result (λ fault. IsReadOrMemory fault ⊎ (log_of_records (records_of text) ≡ Err fault))) }
    ensures short { IfOk result (λ events. vec_len events ≤ most_rows) }
{
    let mut events = events;
    let buffer = match PieceBuffer::new(global) {
        Ok(buffer) => buffer,
        Err(fault) => return Err(fault),
    };
    let mut reader = LogReader::new(buffer, global, MOST_ROWS, ReaderSource::new(source));
    // Each piece has a row at least, so that there are no more.
    for _ in 0..MOST_ROWS + 1 {
        match reader.next(&mut events) {
            Ok(true) => {}
            Ok(false) => return Ok(events),
            Err(fault) => return Err(fault),
        }
    }
    Err(LogFault::Memory)
}

/// Reads the events of a log: CSV whose first record is the header
/// `addr,itype,priv,cause,tval`, and then a row for each event, at most 16777216.
///
/// A number is an optional `0x` or `0X` and 1 to 16 hexadecimal digits of either case. Type 1 is
/// an exception and type 2 an interrupt, both with the exception program counter in `addr`; types
/// 0 and 3 to 6 are retirements, whose `cause` and `tval` are empty. An interrupt's `tval` is
/// empty or zero.
///
/// The records are those that `csv` reads: a byte order mark at the start is dropped, a line ends
/// at a line feed, a carriage return or both, empty lines are no rows and are not counted, the
/// last row needs no line end, and a field may be in quotes. Spaces are not trimmed.
///
/// The fault is that of the first faulty row, the lowest that applies to it; [`LogFault::TooLong`] comes at row
/// 16777217 even where that row is faulty itself. [`LogFault::Read`] comes only where the reader failed, and
/// [`LogFault::Memory`] only where allocation failed; neither says anything about the log. The list is allocated from
/// `alloc`, and all else from `global`. A log in memory is read faster by
/// [`read_log_from_slice`](crate::read_log_from_slice), and a [`LogReader`] gives the events a piece at a time.
pub fn read_log<A: Allocator, R: Read + Drop>(
    alloc: A,
    global: Global,
    source: R,
) -> Result<Vec<Event, A>, LogFault>
    ensures events { IfSome (R.remaining source)
        (λ text. IfOk result (λ events. log_of_records (records_of text) ≡ Ok events.items)) }
    ensures faults { IfSome (R.remaining source)
        (λ text. IfErr result (λ fault. IsReadOrMemory fault ⊎ (log_of_records (records_of text) ≡ Err fault))) }
    ensures short { IfOk result (λ events. vec_len events ≤ most_rows) }
{
    read_from(Vec::new(alloc), global, source)
}
