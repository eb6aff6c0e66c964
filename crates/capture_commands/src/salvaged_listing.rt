//! The subcommand `list` with `--salvage`.

ghost use Rattle.std.specs.Prelude.{◌≡◌, ◌≢◌, Err, IfErr, IfOk, OnOk};
ghost use Rattle.std.specs.Io.KnownBytes.{Appends};
ghost use Rattle.output.specs.Begun.{AppendsBeginning};
ghost use Rattle.command_inputs.specs.Begun.{IsCutOf};
ghost use Rattle.command_inputs.specs.Printed.{PrintsUnlessDenied};
ghost use Rattle.rvclass.specs.Fetch.{words_of};
ghost use Rattle.salvaging.specs.Treatments.{AreTreated};
ghost use Rattle.capture_commands.specs.Faults.{final_status};
ghost use Rattle.capture_commands.specs.ListedFormats.{form_of, treated_in};
ghost use Rattle.capture_commands.specs.Listed.{CanTreat};
ghost use Rattle.capture_commands.specs.ListedSalvaged.{AreTreatedIn, TreatsHarts, messages_of};
ghost use Rattle.salvage_reports.specs.HartRows.{in_rows};
ghost use Rattle.capture_commands.specs.steps.Inputs.{names_in};
ghost use Rattle.capture_commands.specs.steps.Reading.{IsFoundOf};
ghost use Rattle.command_inputs.specs.declared.fault.Fault.TheVariants as Fault;

use crate::input::Input;
use crate::reason::Fault;
use crate::salvaging_capture::{ended, find};
use command_inputs::{Files, Format, Listing, MessageProgress, Status};
use frames::{harts_counted, mode_of};
use listing::Form;
use message::{Header, Message};
use payload::Mode;
use retire::WriteFault;
use rvclass::ProgramOver;
use salvage_reports::{Found, TreatedCapture, TreatedInRows, in_rows, write_treated};
use salvaging::{Treated, treat_watched};
use std::alloc::{AllocError, Global};
use std::io::Write;

/// Writes what salvaging does with each message of an input, where the capture has one of its harts, and returns how
/// salvaging them ends. The messages are worked through twice: once for what is salvaged of them, and once for what is
/// done with each.
///
/// Nothing is allocated once something is written.
pub(crate) fn list_salvaged<'a, F: Files, O: Write>(
    alloc: Global,
    progress: &MessageProgress<'_, F>,
    asked: &Listing<'a>,
    input: &Input,
    out: &mut O,
) -> Result<Status, Fault<'a>>
    ensures never_refused { final_status result ≢ Status.Refused }
    ensures untouched { result ≡ Err Fault.Memory → out.new ≡ out.old }
    ensures printed { PrintsUnlessDenied (TreatsHarts asked.now.format asked.now.rows input.now.only asked.now.harts
        input.now.program.now (names_in input.now) input.now.bytes.now)
        (CanTreat input.now.only asked.now.harts input.now.bytes.now) result
        (O.contents out.old) (O.contents out.new) }
    ensures cut { IsCutOf (TreatsHarts asked.now.format asked.now.rows input.now.only asked.now.harts
        input.now.program.now (names_in input.now) input.now.bytes.now) (O.contents out.old) (O.contents out.new) }
{
    let found = find(alloc, progress, 2, asked.harts, input)?;
    list_found(alloc, progress, asked, input, &found, out)
}

/// Writes what salvaging does with each message that was found of an input, and returns how salvaging them ends.
fn list_found<'a, F: Files, O: Write>(
    alloc: Global,
    progress: &MessageProgress<'_, F>,
    asked: &Listing<'a>,
    input: &Input,
    found: &Found,
    out: &mut O,
) -> Result<Status, Fault<'a>>
    requires { IsFoundOf input.now.only asked.now.harts input.now.program.now input.now.bytes.now found.now }
    ensures never_refused { final_status result ≢ Status.Refused }
    ensures untouched { result ≡ Err Fault.Memory → out.new ≡ out.old }
    ensures printed { PrintsUnlessDenied (TreatsHarts asked.now.format asked.now.rows input.now.only asked.now.harts
        input.now.program.now (names_in input.now) input.now.bytes.now)
        (CanTreat input.now.only asked.now.harts input.now.bytes.now) result
        (O.contents out.old) (O.contents out.new) }
    ensures cut { IsCutOf (TreatsHarts asked.now.format asked.now.rows input.now.only asked.now.harts
        input.now.program.now (names_in input.now) input.now.bytes.now) (O.contents out.old) (O.contents out.new) }
{
    let treated = treat_found(alloc, progress, asked.harts, input, found)?;
    let form = form_of(asked.format, asked.rows);
    let rows = rows_found(alloc, form, asked.harts, input, found, treated.as_slice())?;
    write_treated_in(asked, input, found.header, rows.as_slice(), out)?;
    out.flush()?;
    ended(found)
}

/// Writes what salvaging does with each message of an input in a format.
fn write_treated_in<O: Write>(
    asked: &Listing<'_>,
    input: &Input,
    header: Option<Header>,
    treated: &[TreatedInRows],
    sink: &mut O,
) -> Result<(), WriteFault>
    ensures text { OnOk result (Appends (O.contents sink.old) (O.contents sink.new)
        (treated_in asked.now.format asked.now.rows input.now.only (names_in input.now) header input.now.bytes.now treated.now)) }
    ensures begun { AppendsBeginning
        (treated_in asked.now.format asked.now.rows input.now.only (names_in input.now) header input.now.bytes.now treated.now)
        (O.contents sink.old) (O.contents sink.new) }
    ensures fault { IfErr result (λ fault. fault ≡ WriteFault.Write) }
{
    let capture = TreatedCapture {
        header,
        only: input.only,
        bytes: input.bytes,
        treated,
    };
    write_treated(
        form_of(asked.format, asked.rows),
        input.symbols,
        capture,
        sink,
    )
}

/// How messages are written in a format, where lines say which rows a message settles or do not.
pub(crate) fn form_of(format: Format, rows: bool) -> Form
    ensures { result ≡ form_of format rows }
{
    match format {
        Format::Csv => Form::Table,
        Format::Text | Format::Other => Form::Lines { rows },
    }
}

/// What is done with each message that was found of an input.
fn treat_found<F: Files>(
    alloc: Global,
    progress: &MessageProgress<'_, F>,
    harts: Option<u16>,
    input: &Input,
    found: &Found,
) -> Result<Vec<Treated>, AllocError>
    requires { IsFoundOf input.now.only harts input.now.program.now input.now.bytes.now found.now }
    ensures { IfOk result (λ treated. AreTreatedIn input.now.only harts input.now.program.now found.now.header
        input.now.bytes.now treated.items) }
{
    treat_shown(
        alloc,
        progress,
        input.program,
        harts_counted(harts, found.header, input.bytes),
        mode_of(found.header),
        found.frames.messages.as_slice(),
    )
}

/// Which rows of its hart each message settles that was found of an input, and with which this is done, where the form
/// says rows.
fn rows_found(
    alloc: Global,
    form: Form,
    harts: Option<u16>,
    input: &Input,
    found: &Found,
    treated: &[Treated],
) -> Result<Vec<TreatedInRows>, AllocError>
    requires { IsFoundOf input.now.only harts input.now.program.now input.now.bytes.now found.now }
    ensures { IfOk result (λ rows. rows.items
        ≡ in_rows form (messages_of input.now.only found.now.header input.now.bytes.now) treated.now) }
{
    in_rows(alloc, form, found.frames.messages.as_slice(), treated)
}

/// What is done with each of these messages. How far they are worked through is shown, where that is asked for, as the
/// last round over them.
fn treat_shown<F: Files>(
    alloc: Global,
    progress: &MessageProgress<'_, F>,
    program: &ProgramOver,
    harts: u16,
    mode: Mode,
    messages: &[Message],
) -> Result<Vec<Treated>, AllocError>
    ensures { IfOk result (λ treated. AreTreated (words_of program.now) mode harts messages.now treated.items) }
{
    let treated = treat_watched(alloc, program, harts, mode, messages, progress);
    progress.end();
    treated
}
