//! What became of the messages of a path, of all harts at once.

ghost use Rattle.std.specs.Prelude.{◌≡◌, [], IfErr, IfOk, List, length, nat_le};
ghost use Rattle.auditing.specs.Audits.{Audits as IsAudit};
ghost use Rattle.auditing.specs.Sent.{IsSentFault};
ghost use Rattle.message.specs.declared.message.Message.{Message as AnyMessage};
ghost use Rattle.ffi.specs.AuditedAll.{AreGiven, IsAuditedAll, IsGiven, fitting_status};
ghost use Rattle.ffi.specs.AuditReported.{IsAudited, ReportsAuditAll, compared_by};
ghost use Rattle.ffi.specs.steps.Walking.{HasCome};

use crate::aligned_audit::audit_aligned;
use crate::path_arrivals::take_spans;
use crate::path_ending::end_of;
use crate::path_harts::{lost_of, rows_of};
use crate::path_numbers::{
    Arrival, BY_PACKETS, ByteRun, HartRowNumbers, LostRun, PathEnd, SentPlace, UNNUMBERED,
    sent_place, sent_status,
};
use crate::status::{DONE, OUT_OF_RANGE, TOO_SMALL};
use auditing::{Audit, SentFault};
use frames::{CaptureStart, GuidedScan, first_place, start_of};
use payload::By;
use std::alloc::{AllocError, Global};

/// What is found of a path.
#[derive(Drop)]
pub(crate) struct PathFound {
    /// What is found of each hart of SENT.
    pub(crate) rows: Vec<HartRowNumbers>,
    /// The messages of RECEIVED that are taken.
    pub(crate) arrivals: Vec<Arrival>,
    /// The longest runs of numbers that were lost.
    pub(crate) lost: Vec<LostRun>,
    /// The longest runs of bytes of no message.
    pub(crate) runs: Vec<ByteRun>,
    /// The rest.
    pub(crate) end: PathEnd,
}

/// Audits RECEIVED against SENT, captures in either version, and reports what became of the messages of all harts of
/// SENT: what `tracebench audit` reports. SENT is checked to its end first. In RECEIVED the messages are found among
/// damaged bytes, as the program finds them. Payloads are compared by their bytes, or with the flag [`BY_PACKETS`] by
/// the packets that they unpack to. With [`UNNUMBERED`] the numbers of RECEIVED are not looked at, as with
/// `audit --unnumbered`: the payloads of each hart that came are matched in order with those that were sent. What was
/// sent and is not matched is lost, and what came and is not matched is extra. Where both `lost` and `extra` of a hart
/// are above 0, and above 256 together, more may match than is reported.
///
/// `rows` is for what is found of each hart, `arrivals` for the messages of RECEIVED that are taken, in their order,
/// `lost` for the longest runs of numbers that were lost, hart by hart, and `runs` for the longest runs of bytes of no
/// message. `ended` is then how many there are of each, and what else is found. Each array that is large enough is
/// written from its start on; the others are not written.
///
/// The status is [`DONE`], or [`TOO_SMALL`] where an array is too small. Else it is [`OUT_OF_RANGE`] where a flag is
/// not known, [`MEMORY`](crate::status::MEMORY), or says why SENT is refused: [`SHORT`](crate::status::SHORT),
/// [`BAD_LENGTH`](crate::status::BAD_LENGTH), [`BAD_HEADER`](crate::status::BAD_HEADER),
/// [`STRANGER`](crate::status::STRANGER), [`REPEAT`](crate::status::REPEAT) or [`GAP`](crate::status::GAP). Then
/// `refused` names the message of SENT, and nothing else is written.
pub fn tracebench_audit_all(
    alloc: Global,
    sent: &[u8],
    received: &[u8],
    flags: u32,
    rows: &mut [HartRowNumbers],
    arrivals: &mut [Arrival],
    lost: &mut [LostRun],
    runs: &mut [ByteRun],
    refused: &mut SentPlace,
    ended: &mut PathEnd,
) -> u32
    ensures { ReportsAuditAll (compared_by flags) sent.now received.now result
        (record { rows = rows.old; arrivals = arrivals.old; lost = lost.old; runs = runs.old })
        (record { rows = rows.new; arrivals = arrivals.new; lost = lost.new; runs = runs.new })
        refused.old refused.new ended.old ended.new }
{
    let Some(how) = compared_by(flags) else {
        return OUT_OF_RANGE;
    };
    match audit(alloc, sent, received, how) {
        Ok(found) => {
            *ended = found.end;
            hand_out_path(&found, rows, arrivals, lost, runs)
        }
        Err(why) => {
            *refused = sent_place(why);
            sent_status(why)
        }
    }
}

/// How the messages of both captures are compared.
#[derive(Clone, Copy)]
pub enum AuditBy {
    /// By their numbers, and by what their payloads are compared by.
    Numbers(By),
    /// By what their payloads are compared by alone.
    Payloads(By),
}

/// How flags say that messages are compared; `None` where one is not known.
fn compared_by(flags: u32) -> Option<AuditBy>
    ensures { result ≡ compared_by flags }
{
    if flags == 0 {
        Some(AuditBy::Numbers(By::Bytes))
    } else if flags == BY_PACKETS {
        Some(AuditBy::Numbers(By::Packets))
    } else if flags == UNNUMBERED {
        Some(AuditBy::Payloads(By::Bytes))
    } else if flags == BY_PACKETS + UNNUMBERED {
        Some(AuditBy::Payloads(By::Packets))
    } else {
        None
    }
}

/// Audits RECEIVED against SENT, which has these bytes.
fn audit(alloc: Global, sent: &[u8], received: &[u8], how: AuditBy) -> Result<PathFound, SentFault>
    ensures found { IfOk result (λ found. IsAudited how sent.now received.now found.rows.items found.arrivals.items
        found.lost.items found.runs.items found.end) }
    ensures refused { IfErr result (IsSentFault sent.now) }
{
    match how {
        AuditBy::Numbers(by) => audit_path(alloc, sent, received, by),
        AuditBy::Payloads(by) => audit_aligned(alloc, sent, received, by),
    }
}

/// Writes what is found to the arrays that are large enough.
fn hand_out_path(
    found: &PathFound,
    rows: &mut [HartRowNumbers],
    arrivals: &mut [Arrival],
    lost: &mut [LostRun],
    runs: &mut [ByteRun],
) -> u32
    ensures { AreGiven found.now.rows.items found.now.arrivals.items found.now.lost.items found.now.runs.items result
        (record { rows = rows.old; arrivals = arrivals.old; lost = lost.old; runs = runs.old })
        (record { rows = rows.new; arrivals = arrivals.new; lost = lost.new; runs = runs.new }) }
{
    let has_rows = give(found.rows.as_slice(), rows);
    let has_arrivals = give(found.arrivals.as_slice(), arrivals);
    let has_lost = give(found.lost.as_slice(), lost);
    let has_runs = give(found.runs.as_slice(), runs);
    fitting_status(has_rows, has_arrivals, has_lost, has_runs)
}

/// All is done where so many things fit into each of four arrays.
fn fitting_status(rows: bool, arrivals: bool, lost: bool, runs: bool) -> u32
    ensures { result ≡ fitting_status rows arrivals lost runs }
{
    if rows && arrivals && lost && runs {
        DONE
    } else {
        TOO_SMALL
    }
}

/// Writes things to the start of an array, if they fit. Whether they do.
fn give<T: Copy>(things: &[T], array: &mut [T]) -> bool
    ensures fits { result ≡ nat_le (length things.now) (length array.old) }
    ensures given { IsGiven things.now array.old array.new }
{
    if array.len() < things.len() {
        return false;
    }
    array[..things.len()].copy_from_slice(things);
    true
}

/// Audits RECEIVED against SENT, which has these bytes, by the numbers of the messages.
fn audit_path(alloc: Global, sent: &[u8], received: &[u8], by: By) -> Result<PathFound, SentFault>
    ensures found { IfOk result (λ found. IsAuditedAll by sent.now received.now found.rows.items found.arrivals.items
        found.lost.items found.runs.items found.end) }
    ensures refused { IfErr result (IsSentFault sent.now) }
{
    let mut path = match Audit::with(alloc, sent, by) {
        Ok(path) => path,
        Err(why) => return Err(why),
    };
    let came = take_received(alloc, &mut path, received)?;
    let rows = rows_of(alloc, &path)?;
    let lost = lost_of(alloc, &path)?;
    let strangers = path.strangers();
    let first = path.first();
    let end = end_of(
        path.header(),
        &came,
        rows.as_slice(),
        lost.len(),
        strangers,
        first,
    );
    Ok(PathFound {
        rows,
        arrivals: came.arrivals,
        lost,
        runs: came.runs,
        end,
    })
}

/// RECEIVED, as an audit has taken it.
#[derive(Drop)]
pub(crate) struct CameIn {
    /// How it begins.
    pub(crate) start: CaptureStart,
    /// The messages that are taken.
    pub(crate) arrivals: Vec<Arrival>,
    /// The longest runs of bytes of no message.
    pub(crate) runs: Vec<ByteRun>,
    /// How many bytes these have.
    pub(crate) bytes: u64,
}

/// Takes the messages of RECEIVED, which has these bytes.
fn take_received(alloc: Global, path: &mut Audit<'_>, received: &[u8]) -> Result<CameIn, AllocError>
    ensures come { (sent : List AnyMessage) → IsAudit sent [] path.old
        → IfOk result (HasCome path.old.by sent received.now path.new) }
    ensures by { path.new.by ≡ path.old.by }
    ensures header { path.new.header ≡ path.old.header }
    ensures harts { length path.new.harts ≡ length path.old.harts }
{
    let start = start_of(received);
    let from = first_place(start.header);
    let mut arrivals = Vec::new(alloc);
    let mut runs = Vec::new(alloc);
    let spans = GuidedScan::new(received, from);
    let bytes = take_spans(path, spans, &mut arrivals, &mut runs)?;
    Ok(CameIn {
        start,
        arrivals,
        runs,
        bytes,
    })
}
