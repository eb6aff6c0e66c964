//! The subcommand `audit`, by the numbers of the messages.

ghost use Rattle.std.specs.Prelude.{⊤, ◌≡◌, ◌≢◌, ◌<◌, ◌^◌, List, [], Err, IfOk, OnOk, length};
ghost use Rattle.std.specs.Io.KnownBytes.{Appends};
ghost use Rattle.output.specs.Begun.{AppendsBeginning};
ghost use Rattle.message.specs.declared.message.Message.{Message as AnyMessage};
ghost use Rattle.auditing.specs.Audits.{Audits as IsAudit};
ghost use Rattle.auditing.specs.Known.{known_all};
ghost use Rattle.command_inputs.specs.Begun.{IsCutOf};
ghost use Rattle.command_inputs.specs.Printed.{PrintsUnlessDenied};
ghost use Rattle.path_commands.specs.Faults.{final_status};
ghost use Rattle.path_commands.specs.AuditText.{total_of, unless_summary};
ghost use Rattle.path_commands.specs.Audited.{AuditsBy, CanAuditHarts, WritesNumbered};
ghost use Rattle.path_commands.specs.ReceivedCapture.{ReceivedCapture};
ghost use Rattle.path_commands.specs.OnlyHarts.{harts_among};
ghost use Rattle.path_commands.specs.Rows.{all_run_rows, hart_rows, rows_behind};
ghost use Rattle.path_commands.specs.Sides.{by_packets};
ghost use Rattle.path_commands.specs.steps.Ending.{EndsRest, HasReceived};
ghost use Rattle.command_inputs.specs.declared.fault.Fault.TheVariants as Fault;

use crate::ending::Ending;
use crate::hart_check::{count_among, past_among, received_of};
use crate::lost_rows::write_lost;
use crate::noting::Noted;
use crate::reading::is_undamaged;
use crate::reason::{Fault, sent_fault};
use crate::received::{ReceivedSummary, begin_spans, write_spans};
use crate::report::Report;
use crate::rows::{CountsRow, EndingRow};
use crate::sides::{are_unlike, by_packets, ended, is_whole};
use crate::total::Total;
use auditing::Audit;
use command_inputs::{Audit as Asked, Files, MessageProgress, Status, content_of};
use frames::{GuidedScan, first_place, start_of};
use message::HartRange;
use output::write_text;
use std::alloc::Global;
use std::io;
use std::io::Write;

/// As [`crate::audit`], by the numbers of the messages.
pub(crate) fn audit_numbered<'a, F: Files, O: Write>(
    alloc: Global,
    files: &mut F,
    asked: &Asked<'a>,
    harts: HartRange,
    out: &mut O,
) -> Result<Status, Fault<'a>>
    ensures refused { final_status result ≡ Status.Refused → out.new ≡ out.old }
    ensures untouched { result ≡ Err Fault.Memory → out.new ≡ out.old }
    ensures printed { PrintsUnlessDenied
        (AuditsBy (WritesNumbered asked.now.format asked.now harts) (F.content files.old) asked.now harts)
        (CanAuditHarts (F.content files.old) asked.now harts) result
        (O.contents out.old) (O.contents out.new) }
    ensures cut { IsCutOf (AuditsBy (WritesNumbered asked.now.format asked.now harts)
        (F.content files.old) asked.now harts)
        (O.contents out.old) (O.contents out.new) }
{
    let sent = content_of(files, asked.sent)?;
    let mut path = match Audit::with(alloc, sent.as_slice(), by_packets(asked.packets)) {
        Ok(path) => path,
        Err(why) => return Err(sent_fault(asked.sent, why)),
    };
    let received = received_of(files, asked, harts, path.harts())?;
    let progress = MessageProgress::new(&*files, asked.progress);
    write_audit(&progress, &mut path, asked, harts, received.as_slice(), out)
}

/// Writes what became of the messages of SENT in these bytes of RECEIVED, in the format that is asked for.
fn write_audit<'a, F: Files, O: Write>(
    progress: &MessageProgress<'_, F>,
    path: &mut Audit<'_>,
    asked: &Asked<'a>,
    harts: HartRange,
    bytes: &[u8],
    out: &mut O,
) -> Result<Status, Fault<'a>>
    ensures ended { final_status result ≢ Status.Refused }
    ensures memory { result ≢ Err Fault.Memory }
    ensures printed { (sent : List AnyMessage) → IsAudit sent [] path.old → path.old.by ≡ by_packets asked.now.packets
        → PrintsUnlessDenied (WritesNumbered asked.now.format asked.now harts
        (record { header = path.old.header; messages = sent }) bytes.now) ⊤ result
        (O.contents out.old) (O.contents out.new) }
    ensures cut { (sent : List AnyMessage) → IsAudit sent [] path.old → path.old.by ≡ by_packets asked.now.packets
        → IsCutOf (WritesNumbered asked.now.format asked.now harts
        (record { header = path.old.header; messages = sent }) bytes.now)
        (O.contents out.old) (O.contents out.new) }
{
    let report = Report {
        format: asked.format,
        harts,
        summary: asked.summary,
    };
    let start = start_of(bytes);
    let from = first_place(start.header);
    begin_spans(progress, path, bytes, from);
    let mut noted = Noted::NONE;
    let spans = GuidedScan::new(bytes, from);
    let read = write_spans(progress, path, &mut noted, spans, report, out)?;
    let arrived = ReceivedSummary {
        header: start.header,
        fault: start.fault,
        read,
        noted,
    };
    write_rest(path, asked.received, arrived, report, out)
}

/// Writes what follows the rows of the messages, and returns how the run ends. RECEIVED, at this path, was read so.
fn write_rest<'a, O: Write>(
    path: &Audit<'_>,
    received: &'a str,
    arrived: ReceivedSummary,
    report: Report,
    out: &mut O,
) -> Result<Status, Fault<'a>>
    ensures ended { final_status result ≢ Status.Refused }
    ensures memory { result ≢ Err Fault.Memory }
    ensures written { (sent : List AnyMessage) (came : ReceivedCapture)
        → HasReceived report.harts sent path.now arrived came
        → EndsRest path.now.by report received.entry (record { header = path.now.header; messages = sent }) came result
        (O.contents out.old) (O.contents out.new) }
    ensures begun { (sent : List AnyMessage) (came : ReceivedCapture)
        → HasReceived report.harts sent path.now arrived came
        → AppendsBeginning (rows_behind path.now.by report (record { header = path.now.header; messages = sent }) came)
        (O.contents out.old) (O.contents out.new) }
{
    write_runs(path, report, out)?;
    let total = write_rows(path, report, out)?;
    let unlike = are_unlike(path.header(), arrived.header, arrived.fault);
    let undamaged = is_undamaged(arrived.fault, arrived.read);
    let whole = is_whole(total.whole, arrived.noted.strangers, unlike, undamaged);
    let ending = Ending {
        harts: count_among(report.harts, path.harts()),
        total,
        messages: arrived.read.messages,
        strangers: arrived.noted.strangers,
        bytes: arrived.read.bytes,
        runs: arrived.read.runs,
        unlike,
        first: arrived.noted.first,
        whole,
    };
    let row = EndingRow {
        format: report.format,
        ending,
    };
    write_text(out, row)?;
    out.flush()?;
    ended(received, arrived.fault, whole)
}

/// Writes the rows of the numbers of each hart that were lost, but none in a summary.
fn write_runs<O: Write>(path: &Audit<'_>, report: Report, out: &mut O) -> io::Result<()>
    ensures text { (sent received : List AnyMessage) → IsAudit sent received path.now
        → OnOk result (Appends (O.contents out.old) (O.contents out.new)
        (unless_summary report.summary (all_run_rows report.format (known_all path.now.by sent)
        (known_all path.now.by received) (harts_among report.harts (length path.now.harts))))) }
    ensures begun { (sent received : List AnyMessage) → IsAudit sent received path.now
        → AppendsBeginning (unless_summary report.summary (all_run_rows report.format (known_all path.now.by sent)
        (known_all path.now.by received) (harts_among report.harts (length path.now.harts))))
        (O.contents out.old) (O.contents out.new) }
{
    if report.summary {
        return Ok(());
    }
    write_losses(path, report, out)
}

/// Writes the rows of the numbers of each hart that were lost.
fn write_losses<O: Write>(path: &Audit<'_>, report: Report, out: &mut O) -> io::Result<()>
    ensures text { (sent received : List AnyMessage) → IsAudit sent received path.now
        → OnOk result (Appends (O.contents out.old) (O.contents out.new)
        (all_run_rows report.format (known_all path.now.by sent) (known_all path.now.by received)
        (harts_among report.harts (length path.now.harts)))) }
    ensures begun { (sent received : List AnyMessage) → IsAudit sent received path.now
        → AppendsBeginning (all_run_rows report.format (known_all path.now.by sent) (known_all path.now.by received)
        (harts_among report.harts (length path.now.harts)))
        (O.contents out.old) (O.contents out.new) }
{
    let past = past_among(report.harts, path.harts());
    for hart in usize::from(report.harts.first)..past {
        write_lost(report.format, path.lost(hart), hart, out)?;
    }
    Ok(())
}

/// Writes the rows of each hart, and returns what is found of all together.
fn write_rows<O: Write>(path: &Audit<'_>, report: Report, out: &mut O) -> io::Result<Total>
    ensures total { (sent received : List AnyMessage) → IsAudit sent received path.now → length received < 2 ^ 64
        → IfOk result (λ total. total ≡ total_of (known_all path.now.by sent) (known_all path.now.by received)
        (harts_among report.harts (length path.now.harts))) }
    ensures text { (sent received : List AnyMessage) → IsAudit sent received path.now → length received < 2 ^ 64
        → OnOk result (Appends (O.contents out.old) (O.contents out.new)
        (hart_rows report.format (known_all path.now.by sent) (known_all path.now.by received)
        (harts_among report.harts (length path.now.harts)))) }
    ensures begun { (sent received : List AnyMessage) → IsAudit sent received path.now → length received < 2 ^ 64
        → AppendsBeginning (hart_rows report.format (known_all path.now.by sent) (known_all path.now.by received)
        (harts_among report.harts (length path.now.harts)))
        (O.contents out.old) (O.contents out.new) }
{
    let mut total = Total::new();
    let past = past_among(report.harts, path.harts());
    for hart in usize::from(report.harts.first)..past {
        let row = path.row(hart);
        total = total.add(row);
        let text = CountsRow {
            format: report.format,
            hart,
            row,
            too_late: None,
        };
        write_text(out, text)?;
    }
    Ok(total)
}
