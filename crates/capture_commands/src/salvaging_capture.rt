//! The subcommand `salvage`.

ghost use Rattle.std.specs.Prelude.{◌≡◌, ◌≢◌, ◌⊎◌, Err, IfErr, IfOk, IfSome};
ghost use Rattle.salvage_reports.specs.Damage.{closed_harts};
ghost use Rattle.salvage_reports.specs.HartItems.{items_of};
ghost use Rattle.command_inputs.specs.Begun.{IsCutOf};
ghost use Rattle.command_inputs.specs.FurtherPieces.{base_number};
ghost use Rattle.command_inputs.specs.OnlyHarts.{asked_harts};
ghost use Rattle.command_inputs.specs.Order.{format_base_or_only_fault};
ghost use Rattle.command_inputs.specs.Printed.{PrintsUnlessDenied};
ghost use Rattle.capture_commands.specs.Faults.{final_status, status_of};
ghost use Rattle.capture_commands.specs.Decoding.{end_of_harts};
ghost use Rattle.capture_commands.specs.HartsFound.{HasHartFound};
ghost use Rattle.capture_commands.specs.Salvaging.{CanSalvage, CanSalvageInput, Salvages, SalvagesInput};
ghost use Rattle.capture_commands.specs.Salvaging.{end_of_salvage_of};
ghost use Rattle.capture_commands.specs.SalvagedFormats.{layout_of};
ghost use Rattle.capture_commands.specs.steps.Inputs.{lent_in};
ghost use Rattle.capture_commands.specs.steps.Reading.{IsFoundOf};
ghost use Rattle.command_inputs.specs.declared.fault.Fault.TheVariants as Fault;

use crate::hart_check::hart_below;
use crate::input::{Input, InputArgs, read_input};
use crate::reason::{CaptureReason, Fault};
use crate::salvage_progress::SalvageProgress;
use crate::stopping::capture_fault;
use captures::CaptureFault;
use command_inputs::{Files, Format, MessageProgress, Salvage, Status};
use frames::{harts_counted, start_of};
use salvage_reports::{Found, Layout, find_salvaged, write_found};
use std::alloc::Global;
use std::io::Write;

/// Writes what is left of the log of each hart, whatever happened to the bytes of a capture. Its messages are the
/// frames among its bytes, after a valid header, and without one from the first byte on. Returns that all is done if
/// each hart is closed, no number is missing, bad, doubtful or alone, there is no stranger, and all bytes belong to
/// frames. Copies, late messages and a hart's own mode do not change this status.
///
/// Where symbols are asked for, the line of each stretch ends with its first place and its last, and what they are named.
///
/// Where some harts are asked for, messages of all other harts are passed over: what is written, and this status, are
/// those of these harts, of strangers among them, and of the bytes that belong to no frame. Where the capture has none
/// of these harts, nothing is written.
///
/// Nothing is allocated once something is written.
pub fn salvage<'a, F: Files, O: Write>(
    alloc: Global,
    files: &mut F,
    asked: &Salvage<'a>,
    out: &mut O,
) -> Result<Status, Fault<'a>>
    ensures early { IfSome
        (format_base_or_only_fault asked.now.format (base_number asked.now.program) (asked_harts asked.now.only))
        (λ fault. result ≡ Err fault) }
    ensures refused { final_status result ≡ Status.Refused → out.new ≡ out.old }
    ensures untouched { result ≡ Err Fault.Memory → out.new ≡ out.old }
    ensures printed { PrintsUnlessDenied (Salvages (F.content files.old) asked.now)
        (CanSalvage (F.content files.old) asked.now) result
        (O.contents out.old) (O.contents out.new) }
    ensures cut { IsCutOf (Salvages (F.content files.old) asked.now) (O.contents out.old) (O.contents out.new) }
{
    let wanted = InputArgs {
        format: asked.format,
        program: &asked.program,
        only: asked.only,
        symbols: asked.symbols,
        capture: asked.capture,
    };
    let input = read_input(alloc, files, &wanted)?;
    let progress = MessageProgress::new(&*files, asked.progress);
    let lent = input.lent();
    salvage_capture(alloc, &progress, asked, &lent, out)
}

/// Writes what is salvaged of an input.
fn salvage_capture<'a, F: Files, O: Write>(
    alloc: Global,
    progress: &MessageProgress<'_, F>,
    asked: &Salvage<'a>,
    input: &Input,
    out: &mut O,
) -> Result<Status, Fault<'a>>
    ensures never_refused { final_status result ≢ Status.Refused }
    ensures untouched { result ≡ Err Fault.Memory → out.new ≡ out.old }
    ensures printed { PrintsUnlessDenied (SalvagesInput asked.now (lent_in input.now))
        (CanSalvageInput asked.now (lent_in input.now)) result
        (O.contents out.old) (O.contents out.new) }
    ensures cut { IsCutOf (SalvagesInput asked.now (lent_in input.now)) (O.contents out.old) (O.contents out.new) }
{
    let found = find(alloc, progress, 1, asked.harts, input)?;
    let layout = layout_of(asked.format, asked.summary);
    write_found(alloc, layout, input.symbols, &found, input.bytes, out)?;
    out.flush()?;
    ended(&found)
}

/// The layout in a format, as a summary or not. A table is no summary.
fn layout_of(format: Format, summary: bool) -> Layout
    ensures { result ≡ layout_of format summary }
{
    match format {
        Format::Csv => Layout::Table,
        Format::Text | Format::Other => {
            if summary {
                Layout::Summary
            } else {
                Layout::Text
            }
        }
    }
}

/// What is salvaged of the messages of an input, where the capture has one of its harts. How far they are worked through
/// is shown, where that is asked for, as the first of so many rounds over them. Whoever makes a last round ends that.
pub(crate) fn find<'a, F: Files>(
    alloc: Global,
    progress: &MessageProgress<'_, F>,
    rounds: u64,
    harts: Option<u16>,
    input: &Input,
) -> Result<Found, Fault<'a>>
    ensures found { IfOk result (IsFoundOf input.now.only harts input.now.program.now input.now.bytes.now) }
    ensures lacked { IfErr result
        (λ why. (why ≡ Fault.Memory) ⊎ HasHartFound harts input.now.only input.now.bytes.now (Err why)) }
    ensures never_refused { IfErr result (λ why. status_of why ≢ Status.Refused) }
{
    let program = input.program;
    let only = input.only;
    let bytes = input.bytes;
    let start = start_of(bytes);
    let count = harts_counted(harts, start.header, bytes);
    hart_below(only, count.max(1))?;
    let watch = SalvageProgress { progress, rounds };
    let found = find_salvaged(alloc, program, start, count, only, bytes, &watch)?;
    Ok(found)
}

/// How salvaging ended: at a header that is not valid, or else at the first hart that is not closed, or else by whether
/// there is damage, or bytes that belong to no frame.
pub(crate) fn ended<'a>(found: &Found) -> Result<Status, Fault<'a>>
    ensures value { result ≡ end_of_salvage_of found.now.only found.now.fault found.now.frames.runs found.now.salvaged }
    ensures never_refused { final_status result ≢ Status.Refused }
    ensures never_memory { result ≢ Err Fault.Memory }
{
    match found.fault {
        Some(why) => Err(capture_fault(0, CaptureFault::Message(why))),
        None => match closed(found) {
            Ok(_) if found.is_damaged() || found.frames.runs => Ok(Status::NotWhole),
            ended => ended,
        },
    }
}

/// That all is done where each of the harts that were found is closed, or else the fault of the first that is not.
fn closed<'a>(found: &Found) -> Result<Status, Fault<'a>>
    ensures value { result ≡ end_of_harts found.now.only.first
        (closed_harts (items_of found.now.only found.now.salvaged.harts.items)) }
    ensures never_refused { final_status result ≢ Status.Refused }
    ensures never_memory { result ≢ Err Fault.Memory }
{
    match found.first_unclosed() {
        Some(hart) => Err(Fault::Own(CaptureReason::Unclosed(hart))),
        None => Ok(Status::Whole),
    }
}
