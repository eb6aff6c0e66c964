//! The messages of RECEIVED and the bytes between them.

ghost use Rattle.std.specs.Prelude.{◌≡◌, ◌+◌, ◌≤◌, ◌<◌, ◌^◌, ◌++◌, ◌∷◌, [], IfOk, List, OnOk, length};
ghost use Rattle.auditing.specs.Audits.{Audits as IsAudit};
ghost use Rattle.auditing.specs.Seen.{sight_of};
ghost use Rattle.message.specs.declared.message.Message.{Message as AnyMessage};
ghost use Rattle.frames.specs.Borrowed.{span_of};
ghost use Rattle.frames.specs.Counted.{bytes_in, messages_in};
ghost use Rattle.frames.specs.Passages.{spans_left};
ghost use Rattle.ffi.specs.AuditedAll.{arrivals_after, byte_runs};

use crate::path_numbers::{Arrival, ByteRun, arrival_of};
use auditing::Audit;
use frames::{BorrowedSpan, GuidedScan};
use std::alloc::AllocError;

/// Takes the messages of RECEIVED that are left. Adds each with what is found of it, and each run of bytes of no
/// message. Returns how many bytes these have.
pub(crate) fn take_spans(
    path: &mut Audit<'_>,
    spans: GuidedScan<'_>,
    arrivals: &mut Vec<Arrival>,
    runs: &mut Vec<ByteRun>,
) -> Result<u64, AllocError>
    ensures audits { (sent : List AnyMessage) → IsAudit sent [] path.old → length spans.entry.bytes < 2 ^ 64
        → IfOk result (λ bytes. IsAudit sent (messages_in (spans_left (sight_of path.old.by sent) spans.entry)) path.new
        × (arrivals.new.items
        ≡ arrivals.old.items ++ arrivals_after path.old.by sent [] (spans_left (sight_of path.old.by sent) spans.entry))
        × (runs.new.items ≡ runs.old.items ++ byte_runs (spans_left (sight_of path.old.by sent) spans.entry))
        × (bytes ≡ bytes_in (spans_left (sight_of path.old.by sent) spans.entry))
        × (length (messages_in (spans_left (sight_of path.old.by sent) spans.entry)) ≤ length spans.entry.bytes)) }
    ensures by { path.new.by ≡ path.old.by }
    ensures header { path.new.header ≡ path.old.header }
    ensures harts { length path.new.harts ≡ length path.old.harts }
{
    let mut left = spans;
    let mut bytes: u64 = 0;
    while let Some(passage) = left.next_passage(&*path) {
        let more = take_passage(path, passage, arrivals, runs)?;
        bytes = bytes.saturating_add(more);
    }
    Ok(bytes)
}

/// Takes the message of a passage and adds it with what is found of it, or adds the passage's bytes. Returns how many
/// bytes of no message it has.
fn take_passage(
    path: &mut Audit<'_>,
    passage: BorrowedSpan<'_>,
    arrivals: &mut Vec<Arrival>,
    runs: &mut Vec<ByteRun>,
) -> Result<u64, AllocError>
    ensures audits { (sent received : List AnyMessage) → IsAudit sent received path.old
        → IsAudit sent (received ++ messages_in (span_of passage.entry ∷ [])) path.new }
    ensures same { (path.new.by ≡ path.old.by) × (path.new.header ≡ path.old.header)
        × (length path.new.harts ≡ length path.old.harts) }
    ensures arrivals { (sent received : List AnyMessage) → IsAudit sent received path.old
        → OnOk result (arrivals.new.items
        ≡ arrivals.old.items ++ arrivals_after path.old.by sent received (span_of passage.entry ∷ [])) }
    ensures runs { OnOk result (runs.new.items ≡ runs.old.items ++ byte_runs (span_of passage.entry ∷ [])) }
    ensures bytes { IfOk result (λ bytes. bytes ≡ bytes_in (span_of passage.entry ∷ [])) }
{
    match passage {
        BorrowedSpan::Message { offset, message } => {
            let finding = path.examine_borrowed(message);
            let arrival = arrival_of(offset as u64, message, finding);
            arrivals.push(arrival)?;
            Ok(0)
        }
        BorrowedSpan::Bytes { offset, count } => {
            let run = ByteRun {
                offset: offset as u64,
                count: count as u64,
            };
            runs.push(run)?;
            Ok(count as u64)
        }
    }
}
