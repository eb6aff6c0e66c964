//! The rows of a text as `csv` reads them, which takes any text.

ghost use Rattle.std.specs.Prelude.{◌≡◌, ◌⊎◌, ◌≤◌, ◌+◌, ℕ, List, [], OnOk, IfOk, IfErr, IfSome, Some};
ghost use Rattle.csv.specs.Reading.{ReadRecord, Ready, default_config, reader_config, reader_state, reader_trim};
ghost use Rattle.csv.specs.Reading.{source_of, strip_bom};
ghost use Rattle.csv.specs.Records.{fields_of};
ghost use Rattle.csv.specs.declared.parser.State.TheVariants.{StartRecord};
ghost use Rattle.csv.specs.declared.reader.Trim.TheVariants as trim;
ghost use Rattle.retire.specs.Log.{events_up_to};
ghost use Rattle.retire.specs.steps.ReadsRows.{HasFault, ReadsBeginning, ReadsRows};
ghost use Rattle.retire.specs.steps.RowsLeft.{MayStartRecord, records_left};

use crate::event::Event;
use crate::fault::LogFault;
use crate::limit::too_many;
use crate::row::{event_of, is_header};
use csv::{ByteRecord, Reader, ReaderBuilder};
use std::alloc::{Allocator, Global};
use std::io::Read;

/// Reads the next record, if there is one. The text is in memory, so only allocation can fail.
fn next_record<R: Read + Drop>(
    reader: &mut Reader<R>,
    line: &mut ByteRecord,
) -> Result<bool, LogFault>
    requires plain { reader_trim reader.old ≡ trim.None }
    requires ready { Ready reader.old }
    ensures reads { IfOk result (λ found. ReadRecord R.remaining reader.old reader.new found (fields_of line.new)) }
    ensures still { OnOk result (Ready reader.new) }
    ensures trim_same { OnOk result (reader_trim reader.new ≡ reader_trim reader.old) }
    ensures config_same { OnOk result (reader_config reader.new ≡ reader_config reader.old) }
    ensures denied { IfErr result (λ fault. fault ≡ LogFault.Memory) }
{
    match reader.read_byte_record(line) {
        Ok(found) => Ok(found),
        Err(_) => Err(LogFault::Memory),
    }
}

/// Reads the rows that the reader has left, which follow on so many, and returns how many there are then.
fn read_rows<A: Allocator, R: Read + Drop>(
    events: &mut Vec<Event, A>,
    most: u32,
    rows: u32,
    reader: &mut Reader<R>,
    line: &mut ByteRecord,
) -> Result<u32, LogFault>
    requires plain { reader_trim reader.old ≡ trim.None }
    requires ready { Ready reader.old }
    requires config { reader_config reader.old ≡ default_config }
    requires few { rows ≤ most }
    ensures reads { (text : List ℕ) → source_of R.remaining reader.old ≡ Some text
        → MayStartRecord (reader_state reader.old)
        → IfOk result (λ count. ReadsRows most rows (records_left (reader_state reader.old) text) events.old.items
        events.new.items count []) }
    ensures faults { (text : List ℕ) → source_of R.remaining reader.old ≡ Some text
        → MayStartRecord (reader_state reader.old)
        → IfErr result (λ fault. (fault ≡ LogFault.Memory)
        ⊎ (events_up_to most (rows + 1) (records_left (reader_state reader.old) text) ≡ Err fault)) }
    ensures short { IfOk result (λ count. count ≤ most) }
{
    for before in rows..most {
        if !next_record(reader, line)? {
            return Ok(before);
        }
        let event = event_of(before + 1, line)?;
        if events.push(event).is_err() {
            return Err(LogFault::Memory);
        }
    }
    if next_record(reader, line)? {
        return Err(too_many(most));
    }
    Ok(most)
}

/// Reads the rows of a text that follow on so many, and returns how many there are then.
pub(crate) fn rows_by_csv<A: Allocator, R: Read + Drop>(
    events: &mut Vec<Event, A>,
    global: Global,
    most: u32,
    rows: u32,
    text: R,
) -> Result<u32, LogFault>
    requires few { rows ≤ most }
    ensures reads { (bytes : List ℕ) → R.remaining text ≡ Some bytes
        → IfOk result (λ count. ReadsRows most rows (records_left StartRecord (strip_bom bytes)) events.old.items
        events.new.items count []) }
    ensures faults { (bytes : List ℕ) → R.remaining text ≡ Some bytes
        → IfErr result (λ fault. (fault ≡ LogFault.Memory)
        ⊎ (events_up_to most (rows + 1) (records_left StartRecord (strip_bom bytes)) ≡ Err fault)) }
    ensures short { IfOk result (λ count. count ≤ most) }
{
    let mut reader = ReaderBuilder::new()
        .has_headers(false)
        .flexible(true)
        .from_reader(global, text);
    let mut line = ByteRecord::new(global);
    read_rows(events, most, rows, &mut reader, &mut line)
}

/// Reads the first records of a log, which the reader reads next, and returns how many rows there are; `None` if there
/// is no record.
fn read_beginning<A: Allocator, R: Read + Drop>(
    events: &mut Vec<Event, A>,
    most: u32,
    reader: &mut Reader<R>,
    line: &mut ByteRecord,
) -> Result<Option<u32>, LogFault>
    requires plain { reader_trim reader.old ≡ trim.None }
    requires ready { Ready reader.old }
    requires config { reader_config reader.old ≡ default_config }
    ensures reads { (text : List ℕ) → source_of R.remaining reader.old ≡ Some text
        → MayStartRecord (reader_state reader.old)
        → IfOk result (ReadsBeginning most (records_left (reader_state reader.old) text) events.old.items
        events.new.items) }
    ensures faults { (text : List ℕ) → source_of R.remaining reader.old ≡ Some text
        → MayStartRecord (reader_state reader.old)
        → IfErr result (λ fault. (fault ≡ LogFault.Memory)
        ⊎ HasFault most (records_left (reader_state reader.old) text) fault) }
    ensures short { IfOk result (λ found. IfSome found (λ count. count ≤ most)) }
{
    if !next_record(reader, line)? {
        return Ok(None);
    }
    if !is_header(line) {
        return Err(LogFault::Header);
    }
    match read_rows(events, most, 0, reader, line) {
        Ok(count) => Ok(Some(count)),
        Err(fault) => Err(fault),
    }
}

/// Reads the first records of a log, and returns how many rows there are; `None` if there is no record.
pub(crate) fn first_by_csv<A: Allocator, R: Read + Drop>(
    events: &mut Vec<Event, A>,
    global: Global,
    most: u32,
    text: R,
) -> Result<Option<u32>, LogFault>
    ensures reads { (bytes : List ℕ) → R.remaining text ≡ Some bytes
        → IfOk result (ReadsBeginning most (records_left StartRecord (strip_bom bytes)) events.old.items
        events.new.items) }
    ensures faults { (bytes : List ℕ) → R.remaining text ≡ Some bytes
        → IfErr result (λ fault. (fault ≡ LogFault.Memory)
        ⊎ HasFault most (records_left StartRecord (strip_bom bytes)) fault) }
    ensures short { IfOk result (λ found. IfSome found (λ count. count ≤ most)) }
{
    let mut reader = ReaderBuilder::new()
        .has_headers(false)
        .flexible(true)
        .from_reader(global, text);
    let mut line = ByteRecord::new(global);
    read_beginning(events, most, &mut reader, &mut line)
}
