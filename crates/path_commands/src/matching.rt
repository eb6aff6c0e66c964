//! The subcommand `audit`, by the payloads of the messages alone.

ghost use Rattle.std.specs.Prelude.{⊤, ◌≡◌, ◌≢◌, ℕ, Err, IfOk, List, length};
ghost use Rattle.frames.specs.Counted.{messages_in};
ghost use Rattle.frames.specs.declared.span.Span.{Span as AnySpan};
ghost use Rattle.message.specs.declared.message.Message.{Message as AnyMessage};
ghost use Rattle.output.specs.Begun.{AppendsBeginning};
ghost use Rattle.std.specs.List.{filter};
ghost use Rattle.message.specs.Range.{selects};
ghost use Rattle.auditing.specs.Aligned.{AreAligned};
ghost use Rattle.auditing.specs.Arrivals.{arrival_lines};
ghost use Rattle.auditing.specs.Split.{AreSplit};
ghost use Rattle.command_inputs.specs.Begun.{IsCutOf};
ghost use Rattle.command_inputs.specs.Printed.{PrintsUnlessDenied};
ghost use Rattle.path_commands.specs.Audited.{AuditsBy, CanAuditHarts};
ghost use Rattle.path_commands.specs.Faults.{final_status};
ghost use Rattle.path_commands.specs.Sides.{by_packets};
ghost use Rattle.path_commands.specs.Rows.{report_of};
ghost use Rattle.path_commands.specs.Unnumbered.{WritesAligned, unnumbered_audit};
ghost use Rattle.path_commands.specs.UnnumberedText.{hart_of};
ghost use Rattle.path_commands.specs.steps.Matching.{EndsUnnumbered, IsKept, KeepsSpans, capture_with, strangers_of};
ghost use Rattle.command_inputs.specs.declared.fault.Fault.TheVariants as Fault;

use crate::by_hart::ByHart;
use crate::hart_check::{count_among, received_of};
use crate::keeping::{KeptSent, read_sent};
use crate::matched_lines::hart_of;
use crate::matched_report::{first_of, write_report};
use crate::matched_rows::MatchedTotal;
use crate::reading::{Received, is_undamaged, read_received};
use crate::reason::Fault;
use crate::report::Report;
use crate::sides::{are_unlike, by_packets, ended, is_whole};
use auditing::{Alignment, Line, lines_by_hart, total_of};
use command_inputs::{Audit as Asked, Files, MessageProgress, Status};
use message::{HartRange, Header, ProgressSink};
use std::alloc::{AllocError, Global};
use std::io::Write;

/// As [`crate::audit`], by the payloads of the messages alone.
pub(crate) fn audit_unnumbered<'a, F: Files, O: Write>(
    alloc: Global,
    files: &mut F,
    asked: &Asked<'a>,
    harts: HartRange,
    out: &mut O,
) -> Result<Status, Fault<'a>>
    ensures refused { final_status result ≡ Status.Refused → out.new ≡ out.old }
    ensures untouched { result ≡ Err Fault.Memory → out.new ≡ out.old }
    ensures printed { PrintsUnlessDenied
        (AuditsBy (WritesAligned asked.now.format asked.now harts) (F.content files.old) asked.now harts)
        (CanAuditHarts (F.content files.old) asked.now harts) result
        (O.contents out.old) (O.contents out.new) }
    ensures cut { IsCutOf (AuditsBy (WritesAligned asked.now.format asked.now harts)
        (F.content files.old) asked.now harts)
        (O.contents out.old) (O.contents out.new) }
{
    let sent = read_sent(alloc, files, asked, harts)?;
    let received = received_of(files, asked, harts, sent.payloads.harts())?;
    let progress = MessageProgress::new(&*files, asked.progress);
    write_matched(
        alloc,
        &progress,
        &sent,
        asked,
        harts,
        received.as_slice(),
        out,
    )
}

/// Writes what became of the messages of SENT in these bytes of RECEIVED.
fn write_matched<'a, F: Files, O: Write>(
    alloc: Global,
    progress: &MessageProgress<'_, F>,
    sent: &KeptSent,
    asked: &Asked<'a>,
    harts: HartRange,
    bytes: &[u8],
    out: &mut O,
) -> Result<Status, Fault<'a>>
    ensures ended { final_status result ≢ Status.Refused }
    ensures untouched { result ≡ Err Fault.Memory → out.new ≡ out.old }
    ensures printed { (messages : List AnyMessage) → IsKept (by_packets asked.now.packets) harts messages sent.now
        → PrintsUnlessDenied
        (WritesAligned asked.now.format asked.now harts
        (record { header = sent.now.header; messages = messages }) bytes.now) ⊤
        result
        (O.contents out.old) (O.contents out.new) }
    ensures cut { (messages : List AnyMessage) → IsKept (by_packets asked.now.packets) harts messages sent.now
        → IsCutOf
        (WritesAligned asked.now.format asked.now harts
        (record { header = sent.now.header; messages = messages }) bytes.now)
        (O.contents out.old) (O.contents out.new) }
{
    let came = read_received(alloc, harts, sent, by_packets(asked.packets), bytes)?;
    let all = align_shown(alloc, progress, sent, harts, &came.lists)?;
    write_found(alloc, sent.header, asked, harts, &came, all.as_slice(), out)
}

/// Aligns these messages of RECEIVED with those of SENT. Meanwhile it shows how far that is, where that is asked for.
fn align_shown<F: Files>(
    alloc: Global,
    progress: &MessageProgress<'_, F>,
    sent: &KeptSent,
    harts: HartRange,
    came: &ByHart,
) -> Result<Vec<Alignment>, AllocError>
    requires count { length came.now.payloads.lists ≡ length sent.now.payloads.lists }
    ensures { (count : ℕ) (messages received : List AnyMessage)
        → AreSplit sent.now.payloads.by count messages sent.now.payloads.lists
        → AreSplit sent.now.payloads.by count received came.now.payloads.lists
        → IfOk result (λ all. AreAligned sent.now.payloads.by count messages received all.items) }
{
    progress.begin(selected_among(harts, came.harts.as_slice()));
    let all = sent.payloads.align_lists(alloc, progress, &came.payloads);
    if let Ok(all) = &all {
        progress.note(strangers_among(harts, all.len(), came.harts.as_slice()) as usize);
    }
    progress.end();
    all
}

/// Writes what became of messages of these harts, by the header of SENT, what was read of RECEIVED, and the alignments
/// of the harts.
fn write_found<'a, O: Write>(
    alloc: Global,
    header: Option<Header>,
    asked: &Asked<'a>,
    harts: HartRange,
    came: &Received,
    all: &[Alignment],
    out: &mut O,
) -> Result<Status, Fault<'a>>
    ensures ended { final_status result ≢ Status.Refused }
    ensures untouched { result ≡ Err Fault.Memory → out.new ≡ out.old }
    ensures written { (spans : List AnySpan) → KeepsSpans harts spans came.now
        → EndsUnnumbered asked.now harts header (capture_with came.now spans) all.now result
        (O.contents out.old) (O.contents out.new) }
    ensures begun { (spans : List AnySpan) → KeepsSpans harts spans came.now
        → AppendsBeginning (unnumbered_audit (report_of asked.now.format asked.now harts) header
        (capture_with came.now spans) all.now)
        (O.contents out.old) (O.contents out.new) }
{
    let own = came.lists.harts.as_slice();
    let kept = lines_among(alloc, harts, all, own)?;
    let lines = kept.as_slice();
    let strangers = strangers_among(harts, all.len(), own);
    let unlike = are_unlike(header, came.header, came.fault);
    let total = total_of(all);
    let undamaged = is_undamaged(came.fault, came.read);
    let whole = is_whole(total.whole, strangers, unlike, undamaged);
    let its = MatchedTotal {
        harts: count_among(harts, all.len()),
        total,
        messages: own.len() as u64,
        strangers,
        bytes: came.read.bytes,
        runs: came.read.runs,
        unlike,
        first: first_of(lines),
        whole,
    };
    let report = Report {
        format: asked.format,
        harts,
        summary: asked.summary,
    };
    let runs = came.runs.as_slice();
    write_report(report, all, runs, lines, its, out)?;
    ended(asked.received, came.fault, whole)
}

/// What is to be said of messages of these harts, one after the other, where it is of the harts of the range.
fn lines_among(
    alloc: Global,
    harts: HartRange,
    all: &[Alignment],
    own: &[u16],
) -> Result<Vec<Line>, AllocError>
    ensures { IfOk result (λ lines.
        lines.items ≡ filter (λ one. selects harts (hart_of one)) (arrival_lines all.now own.now)) }
{
    let mut lines = lines_by_hart(alloc, all, own)?;
    keep_selected(&mut lines, harts);
    Ok(lines)
}

/// Leaves out the lines of messages that are not of these harts.
fn keep_selected(lines: &mut Vec<Line>, harts: HartRange)
    ensures { lines.new.items ≡ filter (λ one. selects harts (hart_of one)) lines.old.items }
{
    lines.retain(move |line| harts.selects(hart_of(*line)));
}

/// How many messages, which are of these harts, are of the harts of the range.
fn selected_among(harts: HartRange, own: &[u16]) -> u64 {
    own.iter().filter(|hart| harts.selects(**hart)).count() as u64
}

/// How many messages, which are of these harts, are strangers of the range: of no hart of so many.
fn strangers_among(harts: HartRange, count: usize, own: &[u16]) -> u64
    ensures { result ≡ strangers_of harts count own.now }
{
    own.iter()
        .filter(|hart| harts.selects(**hart) && !(usize::from(**hart) < count))
        .count() as u64
}
