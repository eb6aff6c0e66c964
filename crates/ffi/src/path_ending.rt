//! What is found of a path, beside its harts and its messages.

ghost use Rattle.std.specs.Prelude.{◌≡◌, length};
ghost use Rattle.ffi.specs.AuditedAll.{are_rows_whole, are_unlike, header_reported};
ghost use Rattle.ffi.specs.AuditedAll.{heads_differ, headers_differ, is_path_whole, path_end};

use crate::dumping::header_fault;
use crate::headers::{HeaderNumbers, numbers_of_header};
use crate::path_all::CameIn;
use crate::path_numbers::{HartRowNumbers, PathEnd};
use message::{Header, MessageFault};

/// What is found of a path whose SENT has this header, and of whose harts these rows are found.
pub(crate) fn end_of(
    header: Option<Header>,
    came: &CameIn,
    rows: &[HartRowNumbers],
    lost: usize,
    strangers: u64,
    first: Option<u64>,
) -> PathEnd
    ensures { result ≡ path_end header came.now.start.header came.now.start.fault rows.now
        (length came.now.arrivals.items) lost (length came.now.runs.items) came.now.bytes strangers first }
{
    let start = came.start;
    let bytes = came.bytes;
    let differ = heads_differ(header, start.header, start.fault);
    PathEnd {
        harts: rows.len() as u64,
        messages: came.arrivals.len() as u64,
        lost_runs: lost as u64,
        byte_runs: came.runs.len() as u64,
        bytes,
        strangers,
        first: first.unwrap_or(0),
        sent_header: header_reported(header),
        received_header: header_reported(start.header),
        has_sent_header: u32::from(header.is_some()),
        has_received_header: u32::from(start.header.is_some()),
        header_fault: header_fault(start.fault),
        headers_differ: u32::from(differ),
        has_first: u32::from(first.is_some()),
        whole: u32::from(is_path_whole(rows, strangers, differ, start.fault, bytes)),
    }
}

/// A header in numbers, all 0 where there is none.
pub(crate) fn header_reported(header: Option<Header>) -> HeaderNumbers
    ensures { result ≡ header_reported header }
{
    match header {
        Some(header) => numbers_of_header(&header),
        None => HeaderNumbers {
            mode: 0,
            period: 0,
            harts: 0,
        },
    }
}

/// Whether both captures have a header, and these differ; or SENT has one, and that of RECEIVED is cut or not valid.
pub(crate) fn heads_differ(
    sent: Option<Header>,
    came: Option<Header>,
    fault: Option<MessageFault>,
) -> bool
    ensures { result ≡ heads_differ sent came fault }
{
    match fault {
        None => headers_differ(sent, came),
        Some(_) => sent.is_some(),
    }
}

/// Whether both captures have a header, and these differ.
fn headers_differ(sent: Option<Header>, came: Option<Header>) -> bool
    ensures { result ≡ headers_differ sent came }
{
    match (sent, came) {
        (Some(sent), Some(came)) => {
            are_unlike(&numbers_of_header(&sent), &numbers_of_header(&came))
        }
        _ => false,
    }
}

/// Whether two headers are not the same.
fn are_unlike(header: &HeaderNumbers, other: &HeaderNumbers) -> bool
    ensures { result ≡ are_unlike header.now other.now }
{
    header.mode != other.mode || header.period != other.period || header.harts != other.harts
}

/// Whether the path is whole.
fn is_path_whole(
    rows: &[HartRowNumbers],
    strangers: u64,
    differ: bool,
    fault: Option<MessageFault>,
    bytes: u64,
) -> bool
    ensures { result ≡ is_path_whole rows.now strangers differ fault bytes }
{
    are_rows_whole(rows) && strangers == 0 && !differ && fault.is_none() && bytes == 0
}

/// Whether all harts are whole.
fn are_rows_whole(rows: &[HartRowNumbers]) -> bool
    ensures { result ≡ are_rows_whole rows.now }
{
    rows.iter().all(|row| row.tally.whole == 1)
}
