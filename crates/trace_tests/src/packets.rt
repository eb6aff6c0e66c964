//! Legal logs for other tests. Packets, their payloads and the packets of logs are cases of `vectors`.

use legalpath::LegalLog;
use retire::Event;
use rvclass::Program;
use std::process::Abort;

/// The legal log of these events.
pub(crate) fn legal_log<'p, R: Abort + AllocGlobal>(
    rt: &R,
    program: &'p Program,
    events: &[Event],
) -> LegalLog<'p> {
    assert!(rt; events.len() <= 1 << 24, "a log is too long");
    let events = events.to_vec(rt.alloc()).expect(rt, "memory");
    LegalLog::new(program, events)
        .ok()
        .expect(rt, "a legal log")
}
