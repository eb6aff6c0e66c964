//! The subcommand `audit`.

ghost use Rattle.std.specs.Prelude.{◌≡◌, ◌⊎◌, Err, IfErr, IfSome, false, true};
ghost use Rattle.std.specs.Io.KnownBytes.{Keeps};
ghost use Rattle.command_inputs.specs.Begun.{BeginsPrinted, IsCutOf};
ghost use Rattle.command_inputs.specs.Printed.{PrintsUnlessDenied};
ghost use Rattle.path_commands.specs.Audited.{Audits, AuditsAsked, AuditsHarts, CanAudit, CanAuditAsked, CanAuditHarts};
ghost use Rattle.path_commands.specs.Audited.{early_fault};
ghost use Rattle.path_commands.specs.Faults.{final_status};
ghost use Rattle.path_commands.specs.Followed.{beside_at, live_at, window_at};
ghost use Rattle.command_inputs.specs.declared.fault.Fault.TheVariants as Fault;

use crate::comparing::audit_numbered;
use crate::following::audit_live;
use crate::matching::audit_unnumbered;
use crate::reason::{Fault, PathReason};
use command_inputs::{Audit as Asked, Files, Format, Status, check_format, harts_asked};
use message::HartRange;
use std::alloc::Global;
use std::io::Write;

/// Writes what became of the messages of SENT in RECEIVED: a line for each message of RECEIVED that is not in order or
/// skips a number and for each run of bytes of no message, one for each longest run of numbers of a hart that were
/// lost, the lines of each hart, and the result. A summary has no lines of messages and of runs. Returns that all is
/// done if the result is `whole`.
///
/// SENT is checked to its end before RECEIVED is read. Where it is refused, nothing is written. RECEIVED is read on
/// after damage, by what was sent. Where its header is cut or not valid, it is read from its first byte on, and the
/// fault is returned after all is written.
///
/// Where some harts are asked for, messages of all other harts are passed over, also those of harts that SENT has not:
/// they have no line, and count for nothing but the places of the others. What bytes of RECEIVED are no message, and
/// the headers, are judged as without. Where SENT has none of these harts, nothing is written.
///
/// The format is looked at first, and then the harts. As CSV the same is written as a table, whose rows are of the same
/// definitions.
///
/// With `live` both are opened before one is read, and read side by side as they come, each once: a line is written and
/// flushed as soon as it is decided, by a window of SENT, and the rows of the harts at the end. No more of SENT is held than
/// the window. Where SENT is refused, the lines before stay, and there are no rows. What is printed of files that are there
/// is in no clause.
///
/// Where the numbers of RECEIVED are not to be looked at, its messages are compared with those of SENT by an alignment
/// of the payloads of each hart. After damage it is read on by the payloads that were sent.
pub fn audit<'a, F: Files, O: Write>(
    alloc: Global,
    files: &mut F,
    asked: &Asked<'a>,
    out: &mut O,
) -> Result<Status, Fault<'a>>
    ensures early { IfSome (early_fault asked.now) (λ fault. result ≡ Err fault) }
    ensures refused { asked.now.live ≡ false → final_status result ≡ Status.Refused → out.new ≡ out.old }
    ensures untouched { asked.now.live ≡ false → result ≡ Err Fault.Memory → out.new ≡ out.old }
    ensures begun { result ≡ Err Fault.Memory → Keeps (O.contents out.old) (O.contents out.new)
        ⊎ ((asked.now.live ≡ true) × BeginsPrinted (Audits (F.content files.old) asked.now)
        (O.contents out.old) (O.contents out.new)) }
    ensures printed { PrintsUnlessDenied (Audits (F.content files.old) asked.now)
        (CanAudit (F.content files.old) asked.now) result
        (O.contents out.old) (O.contents out.new) }
    ensures cut { IsCutOf (Audits (F.content files.old) asked.now) (O.contents out.old) (O.contents out.new) }
{
    check_format(asked.format)?;
    let harts = harts_asked(asked.only)?;
    audit_asked(alloc, files, asked, harts, out)
}

/// Writes what became of the messages of these harts, if what is asked for goes together.
fn audit_asked<'a, F: Files, O: Write>(
    alloc: Global,
    files: &mut F,
    asked: &Asked<'a>,
    harts: HartRange,
    out: &mut O,
) -> Result<Status, Fault<'a>>
    ensures early { IfErr (live_at asked.now) (λ fault. result ≡ Err fault) }
    ensures refused { asked.now.live ≡ false → final_status result ≡ Status.Refused → out.new ≡ out.old }
    ensures untouched { asked.now.live ≡ false → result ≡ Err Fault.Memory → out.new ≡ out.old }
    ensures printed { PrintsUnlessDenied (AuditsAsked (F.content files.old) asked.now harts)
        (CanAuditAsked (F.content files.old) asked.now harts) result
        (O.contents out.old) (O.contents out.new) }
    ensures cut { IsCutOf (AuditsAsked (F.content files.old) asked.now harts) (O.contents out.old)
        (O.contents out.new) }
{
    match check_live(asked) {
        Ok(()) => {}
        Err(why) => return Err(why),
    }
    if asked.live {
        audit_live(alloc, &*files, asked, harts, out)
    } else {
        audit_harts(alloc, files, asked, harts, out)
    }
}

/// Writes what became of the messages of these harts.
fn audit_harts<'a, F: Files, O: Write>(
    alloc: Global,
    files: &mut F,
    asked: &Asked<'a>,
    harts: HartRange,
    out: &mut O,
) -> Result<Status, Fault<'a>>
    ensures refused { final_status result ≡ Status.Refused → out.new ≡ out.old }
    ensures untouched { result ≡ Err Fault.Memory → out.new ≡ out.old }
    ensures printed { PrintsUnlessDenied (AuditsHarts (F.content files.old) asked.now harts)
        (CanAuditHarts (F.content files.old) asked.now harts) result
        (O.contents out.old) (O.contents out.new) }
    ensures cut { IsCutOf (AuditsHarts (F.content files.old) asked.now harts) (O.contents out.old)
        (O.contents out.new) }
{
    if asked.unnumbered {
        return audit_unnumbered(alloc, files, asked, harts, out);
    }
    audit_numbered(alloc, files, asked, harts, out)
}

/// Refuses what does not go together.
fn check_live<'a>(asked: &Asked<'a>) -> Result<(), Fault<'a>>
    ensures { result ≡ live_at asked.now }
{
    if asked.live {
        check_beside(asked.unnumbered, asked.format)
    } else {
        check_window(asked.window)
    }
}

/// Refuses what does not go beside messages that are compared while they come: numbers that are not to be looked at, and a
/// table.
fn check_beside<'a>(unnumbered: bool, format: Format) -> Result<(), Fault<'a>>
    ensures { result ≡ beside_at unnumbered format }
{
    if unnumbered {
        return Err(Fault::Own(PathReason::LiveUnnumbered));
    }
    match format {
        Format::Csv => Err(Fault::Own(PathReason::LiveTable)),
        _ => Ok(()),
    }
}

/// Refuses a window, where messages are not to be compared while they come.
fn check_window<'a>(window: Option<u64>) -> Result<(), Fault<'a>>
    ensures { result ≡ window_at window }
{
    match window {
        Some(_) => Err(Fault::Own(PathReason::WindowAlone)),
        None => Ok(()),
    }
}
