//! Logs read and written, by devices and memory that fail too.

mod definitions;
mod failing;
mod faults;

use crate::fixtures::add;
use retire::Event;
use std::process::Abort;

const HEADER: &str = "addr,itype,priv,cause,tval\n";

/// A row, and its event.
pub(crate) const ROW: &str = "80000000,0,3,,";

pub(crate) const RETIRED: Event = Event::Retire {
    addr: 0x8000_0000,
    itype: 0,
    privilege: 3,
};

/// The text of a log that has this row this many times.
pub(crate) fn text_of_rows<R: Abort + AllocGlobal>(rt: &R, row: &str, count: usize) -> Vec<u8> {
    let mut text = Vec::new(rt.alloc());
    add(rt, &mut text, HEADER.as_bytes());
    for _row in 0..count {
        add(rt, &mut text, row.as_bytes());
        add(rt, &mut text, b"\n");
    }
    text
}
