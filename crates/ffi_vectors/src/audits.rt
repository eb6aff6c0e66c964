//! Audits of paths.

use crate::arguments::Given;
use crate::fields::{Fields, kept};
use crate::writing::{put_all, put_list};
use cases::Case;
use ffi::{Arrival, ByteRun, HartRowNumbers, LostRun, PathEnd, SentPlace};

/// Of all harts.
pub(crate) fn audit_all(case: &Case, given: &Given<'_>) {
    let mut rows = case.filled(kept::<HartRowNumbers>(), given.room("rows"));
    let mut arrivals = case.filled(kept::<Arrival>(), given.room("arrivals"));
    let mut lost = case.filled(kept::<LostRun>(), given.room("lost"));
    let mut runs = case.filled(kept::<ByteRun>(), given.room("runs"));
    let (mut place, mut last) = (kept::<SentPlace>(), kept::<PathEnd>());
    let (alloc, flags) = (given.alloc, given.low_32("flags"));
    let (sent, received) = (given.bytes("sent"), given.bytes("received"));
    let (own, came, gaps, bytes) = (&mut rows, &mut arrivals, &mut lost, &mut runs);
    let (refused, end) = (&mut place, &mut last);
    let status = ffi::tracebench_audit_all(
        alloc, sent, received, flags, own, came, gaps, bytes, refused, end,
    );
    put_all(case, "status", &[u64::from(status)]);
    put_all(case, SentPlace::NAMES, &place.record());
    put_all(case, PathEnd::NAMES, &last.record());
    let steps = given.number("steps") != 0;
    put_list(case, "rows", &rows, steps);
    put_list(case, "arrivals", &arrivals, steps);
    put_list(case, "lost", &lost, steps);
    put_list(case, "runs", &runs, steps);
}
