//! Memory for what is decoded of logs, which is taken before they are sent.
//!
//! The machine hands out a page of memory when it is first written, which takes longer than to decode the events that
//! fill it. One thread decodes those of all harts. So the memory of several large lists is written before, side by side.

ghost use Rattle.std.specs.Prelude.{⊤};

use crate::legal_logs::bytes_of;
use legalpath::LegalLog;
use retire::Event;
use side_by_side::{LARGE, Task, processors, results};
use std::alloc::Global;
use std::thread::Threads;

/// Lists with room for as many events as each log has, whose pages are handed out, if they are large and there are
/// several. There is none at all where an allocation for one of them fails.
pub(crate) fn rooms_of<R: Threads + Sync>(
    alloc: Global,
    rt: &R,
    logs: &[LegalLog<'_>],
) -> Vec<Vec<Event>> {
    if logs.len() < 2 || bytes_of(logs) < LARGE {
        return Vec::new(alloc);
    }
    match written_rooms(alloc, rt, logs) {
        Some(rooms) => rooms,
        None => Vec::new(alloc),
    }
}

/// The same, whatever the logs are, if no allocation fails.
fn written_rooms<R: Threads + Sync>(
    alloc: Global,
    rt: &R,
    logs: &[LegalLog<'_>],
) -> Option<Vec<Vec<Event>>> {
    let mut rooms = Vec::new(alloc);
    for group in logs.chunks(processors(rt)) {
        let written = results(alloc, rt, &Writing { alloc }, group).ok()?;
        for room in written {
            rooms.push(room?).ok()?;
        }
    }
    Some(rooms)
}

/// How the room of a log is written.
#[derive(Drop)]
struct Writing {
    alloc: Global,
}

impl<'p> Task<LegalLog<'p>, Option<Vec<Event>>> for Writing {
    ghost Gives = { λ task place log room. ⊤ };

    fn call(&self, _: usize, log: &LegalLog<'p>) -> Option<Vec<Event>> {
        let events = log.events();
        match events.first() {
            Some(event) => vec![in self.alloc; *event; events.len()].ok(),
            None => Some(Vec::new(self.alloc)),
        }
    }
}
