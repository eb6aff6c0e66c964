//! The records of a piece of a log, as `csv` reads them.

ghost use Rattle.std.specs.Prelude.{◌≡◌, ◌⊎◌, ◌≤◌, ◌+◌, [], IfOk, IfErr, IfSome};
ghost use Rattle.csv.specs.declared.parser.State.TheVariants.{StartRecord};
ghost use Rattle.retire.specs.Log.{events_up_to};
ghost use Rattle.retire.specs.steps.ReadsRows.{HasFault, ReadsBeginning, ReadsRows};
ghost use Rattle.retire.specs.steps.RowsLeft.{records_left};

use crate::by_csv::{first_by_csv, rows_by_csv};
use crate::event::Event;
use crate::fault::LogFault;
use std::alloc::{Allocator, Global};
use std::io::Read;

/// What `csv` reads before a text from the middle of a log: an empty line, which is no record, so that no byte order
/// mark is at the start of what it reads.
const EMPTY_LINE: [u8; 1] = [b'\n'];

/// Reads the rows of a piece, which follow on so many, and returns how many there are then.
pub(crate) fn read_rows<A: Allocator>(
    events: &mut Vec<Event, A>,
    global: Global,
    most: u32,
    rows: u32,
    piece: &[u8],
) -> Result<u32, LogFault>
    requires few { rows ≤ most }
    ensures reads { IfOk result
        (λ count. ReadsRows most rows (records_left StartRecord piece.now) events.old.items events.new.items count []) }
    ensures faults { IfErr result (λ fault. (fault ≡ LogFault.Memory)
        ⊎ (events_up_to most (rows + 1) (records_left StartRecord piece.now) ≡ Err fault)) }
    ensures short { IfOk result (λ count. count ≤ most) }
{
    rows_by_csv(
        events,
        global,
        most,
        rows,
        EMPTY_LINE.as_slice().chain(piece),
    )
}

/// Reads the first piece of a log that has a record, the header first, and returns how many rows it has; `None` if
/// there is no record in it.
pub(crate) fn read_first<A: Allocator>(
    events: &mut Vec<Event, A>,
    global: Global,
    most: u32,
    piece: &[u8],
) -> Result<Option<u32>, LogFault>
    ensures reads { IfOk result
        (ReadsBeginning most (records_left StartRecord piece.now) events.old.items events.new.items) }
    ensures faults { IfErr result (λ fault. (fault ≡ LogFault.Memory)
        ⊎ HasFault most (records_left StartRecord piece.now) fault) }
    ensures short { IfOk result (λ found. IfSome found (λ count. count ≤ most)) }
{
    first_by_csv(events, global, most, EMPTY_LINE.as_slice().chain(piece))
}
