//! What a path did to a capture.

ghost use Rattle.ffi.specs.AuditReported.{ReportsAuditAll, compared_by};

use ffi::{Arrival, ByteRun, HartRowNumbers, LostRun, PathEnd, SentPlace};
use std::alloc::Global;

/// Audits RECEIVED against SENT, as `tracebench audit` does. See [`ffi::tracebench_audit_all`].
#[unsafe(no_mangle)]
pub extern "C" fn tracebench_audit_all(
    alloc: Global,
    sent: &[u8],
    received: &[u8],
    flags: u32,
    rows: &mut [HartRowNumbers],
    arrivals: &mut [Arrival],
    lost: &mut [LostRun],
    runs: &mut [ByteRun],
    refused: &mut SentPlace,
    ended: &mut PathEnd,
) -> u32
    ensures { ReportsAuditAll (compared_by flags) sent.now received.now result
        (record { rows = rows.old; arrivals = arrivals.old; lost = lost.old; runs = runs.old })
        (record { rows = rows.new; arrivals = arrivals.new; lost = lost.new; runs = runs.new })
        refused.old refused.new ended.old ended.new }
{
    ffi::tracebench_audit_all(
        alloc, sent, received, flags, rows, arrivals, lost, runs, refused, ended,
    )
}
