//! The subcommand `decode`.

ghost use Rattle.std.specs.Prelude.{⊤, ◌≡◌, ◌≢◌, ◌⊎◌, true, false, Err, IfSome};
ghost use Rattle.std.specs.Io.KnownBytes.{Keeps};
ghost use Rattle.command_inputs.specs.Begun.{BeginsPrinted, IsCutOf};
ghost use Rattle.command_inputs.specs.FurtherPieces.{base_number};
ghost use Rattle.command_inputs.specs.OnlyHarts.{asked_harts};
ghost use Rattle.command_inputs.specs.Order.{base_or_only_fault};
ghost use Rattle.command_inputs.specs.Printed.{PrintsUnlessDenied};
ghost use Rattle.capture_commands.specs.Faults.{final_status};
ghost use Rattle.capture_commands.specs.Decoded.{CanDecode, CanDecodeInput, Decodes, DecodesInput, WritesDecoded};
ghost use Rattle.capture_commands.specs.steps.Inputs.{lent_in};
ghost use Rattle.command_inputs.specs.declared.fault.Fault.TheVariants as Fault;

use crate::counting::begin_messages;
use crate::ending::ended_of;
use crate::hart_check::check_harts_below;
use crate::input::{Input, InputArgs, read_input};
use crate::lossy_decoding::decode_lossy;
use crate::reason::Fault;
use crate::survey_progress::SurveyProgress;
use command_inputs::{Decode, Files, Format, MessageProgress, Status};
use parallel_decode::{Selection, Sharing, write_decoded_side_by_side};
use std::alloc::Global;
use std::io::Write;
use std::thread::Threads;

/// Writes the log of each hart, as far as the messages of a capture settle it. Returns that all is done where the
/// capture's header, if it has one, is valid, no message is refused, every packet is decoded and each hart's closing
/// packet came.
///
/// Where messages may be lost, what is left of each hart's log is written instead: a line for each gap, and for each
/// stretch a line and its log. All is done then where there is no gap and each hart's closing packet came. A gap alone
/// is no fault, but the status is then that the capture is not good. Where the capture is not read to its end, a
/// message is refused or its packet is not decoded, nothing is written.
///
/// Where some harts are asked for, this is what the messages of these harts alone give: messages of all other harts are
/// passed over, unjudged, and only the closing packets of these harts are missed. A fault counts them all. Where the
/// capture has none of these harts, nothing is written.
pub fn decode<'a, F: Files, O: Write, R: Threads + Sync>(
    alloc: Global,
    rt: &R,
    files: &mut F,
    asked: &Decode<'a>,
    out: &mut O,
) -> Result<Status, Fault<'a>>
    ensures early { IfSome
        (base_or_only_fault (base_number asked.now.program) (asked_harts asked.now.only))
        (λ fault. result ≡ Err fault) }
    ensures untouched { (final_status result ≡ Status.Refused)
        ⊎ ((asked.now.lossy ≡ false) × (result ≡ Err Fault.Memory)) → out.new ≡ out.old }
    ensures printed { PrintsUnlessDenied (Decodes (F.content files.old) asked.now)
        (CanDecode (F.content files.old) asked.now) result
        (O.contents out.old) (O.contents out.new) }
    ensures begun { result ≡ Err Fault.Memory → Keeps (O.contents out.old) (O.contents out.new)
        ⊎ ((asked.now.lossy ≡ true)
        × BeginsPrinted (Decodes (F.content files.old) asked.now) (O.contents out.old) (O.contents out.new)) }
    ensures cut { IsCutOf (Decodes (F.content files.old) asked.now) (O.contents out.old) (O.contents out.new) }
{
    let wanted = InputArgs {
        format: Format::Text,
        program: &asked.program,
        only: asked.only,
        symbols: None,
        capture: asked.capture,
    };
    let input = read_input(alloc, files, &wanted)?;
    let progress = MessageProgress::new(&*files, asked.progress);
    let lent = input.lent();
    decode_capture(alloc, rt, &progress, asked, &lent, out)
}

/// Writes what an input has of the logs of its harts, where the capture has one of them.
fn decode_capture<'a, F: Files, O: Write, R: Threads + Sync>(
    alloc: Global,
    rt: &R,
    progress: &MessageProgress<'_, F>,
    asked: &Decode<'a>,
    input: &Input,
    out: &mut O,
) -> Result<Status, Fault<'a>>
    ensures never_refused { final_status result ≢ Status.Refused }
    ensures printed { PrintsUnlessDenied (DecodesInput asked.now (lent_in input.now))
        (CanDecodeInput asked.now (lent_in input.now)) result
        (O.contents out.old) (O.contents out.new) }
    ensures untouched { asked.now.lossy ≡ false → result ≡ Err Fault.Memory → out.new ≡ out.old }
    ensures cut { IsCutOf (DecodesInput asked.now (lent_in input.now)) (O.contents out.old) (O.contents out.new) }
{
    check_harts_below(asked.harts, input.only, input.bytes)?;
    if asked.lossy {
        decode_lossy(alloc, progress, asked.harts, input, out)
    } else {
        decode_whole(alloc, rt, progress, asked.harts, input, out)
    }
}

/// Writes the log of each hart of an input, as far as their messages settle it, where no message may be lost. They are
/// decoded in some threads for each of the machine's processors. All memory is taken before anything is written.
fn decode_whole<'a, F: Files, O: Write, R: Threads + Sync>(
    alloc: Global,
    rt: &R,
    progress: &MessageProgress<'_, F>,
    harts: u16,
    input: &Input,
    out: &mut O,
) -> Result<Status, Fault<'a>>
    ensures never_refused { final_status result ≢ Status.Refused }
    ensures untouched { result ≡ Err Fault.Memory → out.new ≡ out.old }
    ensures printed { PrintsUnlessDenied
        (WritesDecoded harts input.now.only input.now.program.now input.now.bytes.now) ⊤ result
        (O.contents out.old) (O.contents out.new) }
    ensures cut { IsCutOf (WritesDecoded harts input.now.only input.now.program.now input.now.bytes.now)
        (O.contents out.old) (O.contents out.new) }
{
    begin_messages(progress, input.bytes);
    let survey = SurveyProgress { progress };
    let sharing = Sharing::of(rt);
    let capture = Selection {
        program: input.program,
        harts,
        range: input.only,
        bytes: input.bytes,
    };
    let decoded = write_decoded_side_by_side(alloc, rt, sharing, &capture, &survey, out)?;
    out.flush()?;
    ended_of(input.only, decoded.fault, decoded.closed.as_slice())
}
