//! What became of the messages of a path, of all harts at once, by their payloads alone.

ghost use Rattle.std.specs.Prelude.{◌≡◌, IfErr, IfOk};
ghost use Rattle.auditing.specs.Aligned.{AreAligned};
ghost use Rattle.auditing.specs.Sent.{IsSent, IsSentFault, harts_of};
ghost use Rattle.auditing.specs.Split.{AreSplit};
ghost use Rattle.frames.specs.Counted.{messages_in};
ghost use Rattle.ffi.specs.AuditedUnnumbered.{IsAuditedUnnumbered};

use crate::aligned_harts::{
    aligned_rows, first_told, matched_spans, strangers_among, unmatched_of,
};
use crate::aligned_reading::{CameBy, read_received};
use crate::path_all::{CameIn, PathFound};
use crate::path_ending::end_of;
use auditing::{Alignment, Audit, SentFault, SentPayloads};
use captures::read_messages;
use message::{Header, Message, NoProgress};
use payload::By;
use std::alloc::{AllocError, Global};

/// Audits RECEIVED against SENT, which has these bytes, by the payloads of the messages alone.
pub(crate) fn audit_aligned(
    alloc: Global,
    sent: &[u8],
    received: &[u8],
    by: By,
) -> Result<PathFound, SentFault>
    ensures found { IfOk result (λ found. IsAuditedUnnumbered by sent.now received.now found.rows.items
        found.arrivals.items found.lost.items found.runs.items found.end) }
    ensures refused { IfErr result (IsSentFault sent.now) }
{
    let own = match read_sent(alloc, sent) {
        Ok(own) => own,
        Err(why) => return Err(why),
    };
    let came = read_received(alloc, by, own.harts, own.messages.as_slice(), received)?;
    let all = align_harts(alloc, by, &own, &came)?;
    let (arrivals, runs) = matched_spans(alloc, all.as_slice(), came.spans.as_slice())?;
    let rows = aligned_rows(alloc, all.as_slice())?;
    let lost = unmatched_of(alloc, all.as_slice())?;
    let found = CameIn {
        start: came.start,
        arrivals,
        runs,
        bytes: came.bytes,
    };
    let strangers = strangers_among(found.arrivals.as_slice());
    let first = first_told(found.arrivals.as_slice());
    let end = end_of(
        own.header,
        &found,
        rows.as_slice(),
        lost.len(),
        strangers,
        first,
    );
    Ok(PathFound {
        rows,
        arrivals: found.arrivals,
        lost,
        runs: found.runs,
        end,
    })
}

/// Aligns the payloads of each hart of SENT with those that came.
fn align_harts(
    alloc: Global,
    by: By,
    own: &SentMessages,
    came: &CameBy,
) -> Result<Vec<Alignment>, AllocError>
    requires by { came.now.payloads.by ≡ by }
    requires split { AreSplit by own.now.harts (messages_in came.now.spans.items) came.now.payloads.lists }
    ensures { IfOk result (λ all. AreAligned by own.now.harts own.now.messages.items
        (messages_in came.now.spans.items) all.items) }
{
    let sent = SentPayloads::new(alloc, own.harts, by, own.messages.as_slice())?;
    sent.align_lists(alloc, &NoProgress, &came.payloads)
}

/// SENT, which is complete.
#[derive(Drop)]
struct SentMessages {
    /// Its header, if it has one.
    header: Option<Header>,
    /// How many harts it has.
    harts: usize,
    /// Its messages.
    messages: Vec<Message>,
}

/// Reads SENT, which has these bytes, and checks that it is complete.
fn read_sent(alloc: Global, sent: &[u8]) -> Result<SentMessages, SentFault>
    ensures read { IfOk result (λ own. IsSent sent.now own.header own.messages.items) }
    ensures harts { IfOk result (λ own. own.harts ≡ harts_of own.header own.messages.items) }
    ensures refused { IfErr result (IsSentFault sent.now) }
{
    let path = match Audit::new(alloc, sent) {
        Ok(path) => path,
        Err(why) => return Err(why),
    };
    let header = path.header();
    let harts = path.harts();
    match read_messages(alloc, sent) {
        Ok(whole) => Ok(SentMessages {
            header,
            harts,
            messages: whole.messages,
        }),
        Err(_) => Err(SentFault::Memory),
    }
}
