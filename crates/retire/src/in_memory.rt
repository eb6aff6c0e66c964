//! Reading a log that lies in memory.

ghost use Rattle.std.specs.Prelude.{◌≡◌, ◌⊎◌, ◌≤◌, [], IfOk, IfErr, vec_len};
ghost use Rattle.retire.specs.Log.{log_of_records, most_rows, records_of};
ghost use Rattle.retire.specs.PlainLog.{IsPlainLog};

use crate::event::Event;
use crate::fault::LogFault;
use crate::plain::plain_log;
use crate::read::read_from;
use std::alloc::{Allocator, Global};

/// The events of a log that is not plain, pushed to a list that is empty.
fn read_in_pieces<A: Allocator>(
    events: Vec<Event, A>,
    global: Global,
    text: &[u8],
) -> Result<Vec<Event, A>, LogFault>
    requires empty { events.items ≡ [] }
    requires not_plain { IsPlainLog text.now → ⊥ }
    ensures events { IfOk result (λ events. log_of_records (records_of text.now) ≡ Ok events.items) }
    ensures faults { IfErr result
        (λ fault. (fault ≡ LogFault.Memory) ⊎ (log_of_records (records_of text.now) ≡ Err fault)) }
    ensures short { IfOk result (λ events. vec_len events ≤ most_rows) }
{
    match read_from(events, global, text) {
        // Reading a slice does not fail, so this fault does not come. The contract allows `Memory` in its place.
        Err(LogFault::Read) => Err(LogFault::Memory),
        answer => answer,
    }
}

/// Reads the events of a log that lies in memory, as [`read_log`](crate::read_log) does of any reader.
///
/// The rows of a plain log are read straight from its bytes, with no copy. In a plain log no line is empty, each ends at
/// a line feed, with a carriage return before it or none, and no row has a fault. [`write_log`](crate::write_log) writes
/// such logs. Their fields may also be in quotes, those of the header all or none. Any other text is read from its start,
/// a piece at a time. No reader fails, so there is no [`LogFault::Read`].
pub fn read_log_from_slice<A: Allocator>(
    alloc: A,
    global: Global,
    text: &[u8],
) -> Result<Vec<Event, A>, LogFault>
    ensures events { IfOk result (λ events. log_of_records (records_of text.now) ≡ Ok events.items) }
    ensures faults { IfErr result
        (λ fault. (fault ≡ LogFault.Memory) ⊎ (log_of_records (records_of text.now) ≡ Err fault)) }
    ensures short { IfOk result (λ events. vec_len events ≤ most_rows) }
{
    let mut events = Vec::new(alloc);
    if plain_log(&mut events, text)? {
        return Ok(events);
    }
    events.clear();
    read_in_pieces(events, global, text)
}
