//! The subcommand `decode` where messages may be lost.

ghost use Rattle.std.specs.Prelude.{⊤, ◌≡◌, ◌≢◌, Ok, Err, IfErr, IfOk, OnOk};
ghost use Rattle.std.specs.Io.KnownBytes.{Appends};
ghost use Rattle.std.specs.List.{list_any};
ghost use Rattle.message.specs.Range.{selected};
ghost use Rattle.losses.specs.Collects.{GivesFault, GivesPieces};
ghost use Rattle.losses.specs.Parts.{Events, Missing};
ghost use Rattle.losses.specs.PartsIn.{part_of, parts_in};
ghost use Rattle.output.specs.Begun.{AppendsBeginning};
ghost use Rattle.command_inputs.specs.Begun.{IsCutOf};
ghost use Rattle.command_inputs.specs.Printed.{IsPrintingDenied, PrintsUnlessDenied};
ghost use Rattle.capture_commands.specs.Faults.{final_status, status_of};
ghost use Rattle.capture_commands.specs.Decoding.{end_of_harts};
ghost use Rattle.parallel_decode.specs.EachHart.{each_hart};
ghost use Rattle.capture_commands.specs.Pieces.{ArePiecesOf, HasPieces, WritesPieces, closed_of, end_of_pieces_from};
ghost use Rattle.capture_commands.specs.Pieces.{harts_counted, have_gaps, is_gap, part_text, parts_of};
ghost use Rattle.capture_commands.specs.Pieces.{parts_text};
ghost use Rattle.frames.specs.Search.{mode_of};

use crate::counting::begin_messages;
use crate::input::Input;
use crate::own_messages::{fault_among, select_messages};
use crate::reason::{CaptureReason, Fault};
use crate::stopping::reading_fault;
use captures::{WholeCapture, read_messages};
use command_inputs::{Files, MessageProgress, Status};
use frames::mode_of;
use losses::{HartPieces, LossyFault, Part, collect_watched};
use message::{Header, ProgressSink};
use output::write_text;
use retire::{Event, write_log};
use salvage_reports::{items_of, write_messages};
use std::alloc::Global;
use std::io::Write;

/// Writes what is left of the log of each hart of an input. Returns that all is done where the closing packet of each
/// came and there is no gap. Where the capture is not read to its end, a message of these harts is refused or its
/// packet is not decoded, nothing is written. Messages of all other harts are passed over; a fault counts them.
pub(crate) fn decode_lossy<'a, F: Files, O: Write>(
    alloc: Global,
    progress: &MessageProgress<'_, F>,
    harts: u16,
    input: &Input,
    out: &mut O,
) -> Result<Status, Fault<'a>>
    ensures never_refused { final_status result ≢ Status.Refused }
    ensures printed { PrintsUnlessDenied
        (WritesPieces harts input.now.only input.now.program.now input.now.bytes.now)
        (HasPieces harts input.now.only input.now.program.now input.now.bytes.now) result
        (O.contents out.old) (O.contents out.new) }
    ensures cut { IsCutOf (WritesPieces harts input.now.only input.now.program.now input.now.bytes.now)
        (O.contents out.old) (O.contents out.new) }
{
    let only = input.only;
    let pieces = pieces_of(alloc, progress, harts, input)?;
    let own = items_of(only, pieces.as_slice());
    write_pieces(alloc, only.first, own, out)?;
    out.flush()?;
    ended(only.first, own)
}

/// What the messages of an input leave of the logs of a capture's harts. How far they are worked through is shown,
/// where that is asked for.
fn pieces_of<'a, F: Files>(
    alloc: Global,
    progress: &MessageProgress<'_, F>,
    harts: u16,
    input: &Input,
) -> Result<Vec<HartPieces>, Fault<'a>>
    ensures found { IfOk result
        (λ pieces. ArePiecesOf harts input.now.only input.now.program.now input.now.bytes.now (Ok pieces.items)) }
    ensures fault { IfErr result
        (λ fault. ArePiecesOf harts input.now.only input.now.program.now input.now.bytes.now (Err fault)) }
    ensures never_refused { IfErr result (λ fault. status_of fault ≢ Status.Refused) }
{
    begin_messages(progress, input.bytes);
    let pieces = collect(alloc, progress, harts, input);
    progress.end();
    pieces
}

/// Collects what the messages of an input leave of the logs of a capture's harts.
fn collect<'a, F: Files>(
    alloc: Global,
    progress: &MessageProgress<'_, F>,
    harts: u16,
    input: &Input,
) -> Result<Vec<HartPieces>, Fault<'a>>
    ensures found { IfOk result
        (λ pieces. ArePiecesOf harts input.now.only input.now.program.now input.now.bytes.now (Ok pieces.items)) }
    ensures fault { IfErr result
        (λ fault. ArePiecesOf harts input.now.only input.now.program.now input.now.bytes.now (Err fault)) }
    ensures never_refused { IfErr result (λ fault. status_of fault ≢ Status.Refused) }
{
    let whole = match read_messages(alloc, input.bytes) {
        Ok(whole) => whole,
        Err(fault) => return Err(reading_fault(fault)),
    };
    match collect_own(alloc, progress, harts, input, whole) {
        Ok(pieces) => Ok(pieces),
        Err(fault) => Err(fault_among(alloc, input.only, fault, input.bytes)),
    }
}

/// Collects what the messages of an input leave of the logs of a capture's harts. The other messages are dropped first,
/// and shown as worked through.
fn collect_own<F: Files>(
    alloc: Global,
    progress: &MessageProgress<'_, F>,
    harts: u16,
    input: &Input,
    whole: WholeCapture,
) -> Result<Vec<HartPieces>, LossyFault>
    ensures found { IfOk result (λ pieces. GivesPieces input.now.program.now (harts_counted harts whole.header)
        (mode_of whole.header) (selected input.now.only whole.messages.items) pieces.items) }
    ensures fault { IfErr result (λ fault. GivesFault input.now.program.now (harts_counted harts whole.header)
        (mode_of whole.header) (selected input.now.only whole.messages.items) fault) }
{
    let header = whole.header;
    let count = whole.messages.len();
    let messages = select_messages(input.only, whole.messages);
    progress.note(count.saturating_sub(messages.len()));
    collect_watched(
        alloc,
        input.program,
        harts_counted(harts, header),
        mode_of(header),
        messages.as_slice(),
        progress,
    )
}

/// How many harts a capture has: as many as its header counts, or without a header this many.
pub(crate) fn harts_counted(harts: u16, header: Option<Header>) -> u16
    ensures { result ≡ harts_counted harts header }
{
    match header {
        Some(header) => header.harts,
        None => harts,
    }
}

/// Writes what is left of the log of each of these harts, from this number on, after a line with the hart's number.
fn write_pieces<'a, O: Write>(
    alloc: Global,
    first: u16,
    harts: &[HartPieces],
    out: &mut O,
) -> Result<(), Fault<'a>>
    ensures machine { IfErr result (λ fault. status_of fault ≡ Status.Machine) }
    ensures denied { IfErr result (IsPrintingDenied ⊤) }
    ensures text { OnOk result
        (Appends (O.contents out.old) (O.contents out.new) (each_hart parts_text first (parts_of harts.now))) }
    ensures begun { AppendsBeginning (each_hart parts_text first (parts_of harts.now)) (O.contents out.old)
        (O.contents out.new) }
{
    for (place, pieces) in harts.iter().enumerate() {
        let hart = usize::from(first) + place;
        write_text(out, format_args!("hart {hart}\n"))?;
        write_parts(alloc, pieces.parts.as_slice(), out)?;
    }
    Ok(())
}

/// Writes the parts of a hart's log.
fn write_parts<'a, O: Write>(alloc: Global, parts: &[Part], out: &mut O) -> Result<(), Fault<'a>>
    ensures machine { IfErr result (λ fault. status_of fault ≡ Status.Machine) }
    ensures denied { IfErr result (IsPrintingDenied ⊤) }
    ensures text { OnOk result (Appends (O.contents out.old) (O.contents out.new) (parts_text (parts_in parts.now))) }
    ensures begun { AppendsBeginning (parts_text (parts_in parts.now)) (O.contents out.old) (O.contents out.new) }
{
    for part in parts {
        write_part(alloc, part, out)?;
    }
    Ok(())
}

/// Writes the line of a gap, or the line of a stretch and its log.
fn write_part<'a, O: Write>(alloc: Global, part: &Part, out: &mut O) -> Result<(), Fault<'a>>
    ensures machine { IfErr result (λ fault. status_of fault ≡ Status.Machine) }
    ensures denied { IfErr result (IsPrintingDenied ⊤) }
    ensures text { OnOk result (Appends (O.contents out.old) (O.contents out.new) (part_text (part_of part.now))) }
    ensures begun { AppendsBeginning (part_text (part_of part.now)) (O.contents out.old) (O.contents out.new) }
{
    match part {
        Part::Gap(missing) => write_gap(*missing, out),
        Part::Stretch(events) => write_stretch(alloc, events.as_slice(), out),
    }
}

/// Writes the line of a gap, with how many numbers are missing.
fn write_gap<'a, O: Write>(missing: u64, out: &mut O) -> Result<(), Fault<'a>>
    ensures machine { IfErr result (λ fault. status_of fault ≡ Status.Machine) }
    ensures denied { IfErr result (IsPrintingDenied ⊤) }
    ensures text { OnOk result (Appends (O.contents out.old) (O.contents out.new) (part_text (Missing missing))) }
    ensures begun { AppendsBeginning (part_text (Missing missing)) (O.contents out.old) (O.contents out.new) }
{
    write_messages("gap", missing, out)?;
    Ok(())
}

/// Writes the line of a stretch, with how many events it has, and their log.
fn write_stretch<'a, O: Write>(
    alloc: Global,
    events: &[Event],
    out: &mut O,
) -> Result<(), Fault<'a>>
    ensures machine { IfErr result (λ fault. status_of fault ≡ Status.Machine) }
    ensures denied { IfErr result (IsPrintingDenied ⊤) }
    ensures text { OnOk result (Appends (O.contents out.old) (O.contents out.new) (part_text (Events events.now))) }
    ensures begun { AppendsBeginning (part_text (Events events.now)) (O.contents out.old) (O.contents out.new) }
{
    let count = events.len();
    write_text(out, format_args!("stretch: {count} events\n"))?;
    write_log(alloc, out, events)?;
    Ok(())
}

/// How this ended: at the first of these harts, from this number on, whose closing packet did not come, or else by
/// whether there are gaps.
fn ended<'a>(first: u16, harts: &[HartPieces]) -> Result<Status, Fault<'a>>
    ensures value { result ≡ end_of_pieces_from first harts.now }
    ensures never_refused { final_status result ≢ Status.Refused }
{
    match closed(first, harts) {
        Ok(_) if have_gaps(harts) => Ok(Status::NotWhole),
        ended => ended,
    }
}

/// That all is done where the closing packet of each of these harts, from this number on, came, or else the fault of
/// the first whose did not.
fn closed<'a>(first: u16, harts: &[HartPieces]) -> Result<Status, Fault<'a>>
    ensures value { result ≡ end_of_harts first (closed_of harts.now) }
    ensures never_refused { final_status result ≢ Status.Refused }
{
    for (place, pieces) in harts.iter().enumerate() {
        if !pieces.closed {
            let hart = usize::from(first) + place;
            return Err(Fault::Own(CaptureReason::Unclosed(hart)));
        }
    }
    Ok(Status::Whole)
}

/// Whether some hart's log has a gap.
fn have_gaps(harts: &[HartPieces]) -> bool
    ensures { result ≡ have_gaps (parts_of harts.now) }
{
    for pieces in harts {
        if has_gap(pieces.parts.as_slice()) {
            return true;
        }
    }
    false
}

/// Whether one of these parts is a gap.
fn has_gap(parts: &[Part]) -> bool
    ensures { result ≡ list_any is_gap (parts_in parts.now) }
{
    for part in parts {
        if matches!(part, Part::Gap(_)) {
            return true;
        }
    }
    false
}
