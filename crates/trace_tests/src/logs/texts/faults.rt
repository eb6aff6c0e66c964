//! The texts of the faults.

use crate::same::same_at;
use retire::{LogFault, WriteFault};
use std::fmt::Display;
use std::process::Abort;

const LOG_FAULTS: [(LogFault, &'static str); 13] = [
    (LogFault::Header, "wrong header"),
    (LogFault::Fields(1), "row 1: wrong number of fields"),
    (LogFault::Number(2), "row 2: not a number"),
    (LogFault::Odd(3), "row 3: odd address"),
    (LogFault::RowType(4), "row 4: unknown type"),
    (LogFault::Privilege(5), "row 5: unknown privilege"),
    (LogFault::Cause(6), "row 6: cause above 3f"),
    (
        LogFault::TrapFields(7),
        "row 7: cause or value missing or not wanted",
    ),
    (
        LogFault::InterruptValue(16_777_216),
        "row 16777216: an interrupt has a value",
    ),
    (LogFault::TooLong, "more than 16777216 rows"),
    (LogFault::LongerThan(u32::MAX), "more than 4294967295 rows"),
    (LogFault::Read, "cannot be read"),
    (LogFault::Memory, "out of memory"),
];

const WRITE_FAULTS: [(WriteFault, &'static str); 2] = [
    (WriteFault::Write, "cannot be written"),
    (WriteFault::Memory, "out of memory"),
];

/// Each fault has the text of its row.
fn are_printed<R: Abort + AllocGlobal, F: Display>(rt: &R, table: &[(F, &'static str)]) {
    for (i, (fault, want)) in table.iter().enumerate() {
        let printed = format!(in rt.alloc(); "{fault}").expect(rt, "memory");
        same_at(rt, i, printed.as_str(), *want);
    }
}

#[test]
fn texts_of_faults(rt: HostRuntime) {
    are_printed(&rt, &LOG_FAULTS);
    are_printed(&rt, &WRITE_FAULTS);
}
