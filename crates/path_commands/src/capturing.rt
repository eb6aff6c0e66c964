//! The subcommand `capture`.

ghost use Rattle.std.specs.Prelude.{⊤, ◌≡◌, ◌≢◌, ◌≤◌, ◌⊎◌, false, true, Err, IfOk, IfSome};
ghost use Rattle.std.specs.Io.KnownBytes.{Keeps};
ghost use Rattle.command_inputs.specs.Begun.{BeginsPrinted, IsCutOf};
ghost use Rattle.command_inputs.specs.Printed.{PrintsUnlessDenied};
ghost use Rattle.command_inputs.specs.declared.fault.Fault.TheVariants as Fault;
ghost use Rattle.command_inputs.specs.Kind.{is_known, is_streamed};
ghost use Rattle.command_inputs.specs.Limits.{AreBitsIfGiven, IsCountIfGiven};
ghost use Rattle.message.specs.Version.{most_harts};
ghost use Rattle.path_commands.specs.Capturing.{CanCapture, CanRead, Captures, WritesCapture, WritesLines};
ghost use Rattle.path_commands.specs.Capturing.{asked_fault, numbers_of, settings_at, skip_at, skips_alone};
ghost use Rattle.path_commands.specs.LineFaults.{final_status};
ghost use Rattle.path_commands.specs.steps.Ready.{IsReady};

use crate::line_reason::{Fault, LineReason, lines_fault};
use crate::streaming::write_stream;
use captures::{Settings, write_capture};
use command_inputs::{Capture, Files, Status, content_of};
use message::Version;
use std::alloc::Global;
use std::io::Write;

/// Writes the capture of the lines of a file, one message a line, in the order of the lines.
///
/// What is asked for is looked at first: a capture of version 1 has up to 64 harts, and lines are skipped only as they
/// come. In version 1, and where the count of harts is given, what the capture begins with is known: the message of each
/// line is then written as the line comes, and no more is held than a line and what a read gives. A line that has a fault
/// ends it, or is skipped where that is asked for.
///
/// Else all lines are held, and the capture is written at the end. Where a line has a fault, the first such line is
/// returned, and nothing is written. The lines that `encode` writes for logs become the capture that it writes for them,
/// in the same version and mode and at the same period.
pub fn capture<'a, F: Files, O: Write>(
    alloc: Global,
    files: &mut F,
    asked: &Capture<'a>,
    out: &mut O,
) -> Result<Status, Fault<'a>>
    requires period { 1 ≤ asked.now.period }
    requires harts { IsCountIfGiven asked.now.harts }
    requires bits { AreBitsIfGiven asked.now.number_bits }
    ensures early { IfSome (asked_fault asked.now) (λ fault. result ≡ Err fault) }
    ensures refused { is_streamed asked.now ≡ false → final_status result ≡ Status.Refused → out.new ≡ out.old }
    ensures untouched { is_streamed asked.now ≡ false → result ≡ Err Fault.Memory → out.new ≡ out.old }
    ensures begun { result ≡ Err Fault.Memory → Keeps (O.contents out.old) (O.contents out.new)
        ⊎ ((is_streamed asked.now ≡ true) × BeginsPrinted (Captures (F.content files.old) asked.now)
        (O.contents out.old) (O.contents out.new)) }
    ensures printed { PrintsUnlessDenied (Captures (F.content files.old) asked.now)
        (CanCapture (F.content files.old) asked.now) result
        (O.contents out.old) (O.contents out.new) }
    ensures cut { IsCutOf (Captures (F.content files.old) asked.now) (O.contents out.old) (O.contents out.new) }
{
    let settings = settings_of(asked)?;
    if is_known(asked.version, asked.harts) {
        write_stream(alloc, &*files, asked, &settings, out)
    } else {
        write_held(files, asked, settings, out)
    }
}

/// Whether it is known before the messages what a capture begins with: nothing in version 1, and else the header, where
/// the count of harts is given.
fn is_known(version: Version, harts: Option<u16>) -> bool
    ensures { result ≡ is_known version harts }
{
    match version {
        Version::One => true,
        Version::Two => harts.is_some(),
    }
}

/// Whether lines that have a fault are to be skipped, and the lines are not written as they come.
fn skips_alone<'a>(asked: &Capture<'a>) -> bool
    ensures { result ≡ skips_alone asked.now }
{
    asked.skip && !is_known(asked.version, asked.harts)
}

/// What the capture is to be beside its messages, or the fault that is found without the file.
fn settings_of<'a>(asked: &Capture<'a>) -> Result<Settings, Fault<'a>>
    requires period { 1 ≤ asked.now.period }
    requires harts { IsCountIfGiven asked.now.harts }
    requires bits { AreBitsIfGiven asked.now.number_bits }
    ensures value { result ≡ settings_at asked.now }
    ensures ready { IfOk result IsReady }
{
    let most = asked.version.most_harts();
    match asked.harts {
        Some(harts) if harts > most => Err(Fault::Own(LineReason::ManyHarts(most))),
        _ => few_settings(asked),
    }
}

/// The same where no more harts are asked for than the version of the capture has.
fn few_settings<'a>(asked: &Capture<'a>) -> Result<Settings, Fault<'a>>
    requires period { 1 ≤ asked.now.period }
    requires harts { IfSome asked.now.harts (λ harts. (1 ≤ harts) × (harts ≤ most_harts asked.now.version)) }
    requires bits { AreBitsIfGiven asked.now.number_bits }
    ensures value { result ≡ skip_at asked.now }
    ensures ready { IfOk result IsReady }
{
    if skips_alone(asked) {
        return Err(Fault::Own(LineReason::SkipAlone));
    }
    Ok(Settings {
        version: asked.version,
        mode: asked.mode,
        period: asked.period,
        harts: asked.harts,
        numbers: numbers_of(asked.number_bits),
    })
}

/// How many numbers there are of so many bits, where these are given.
fn numbers_of(bits: Option<u16>) -> Option<u64>
    requires { AreBitsIfGiven bits }
    ensures value { result ≡ numbers_of bits }
    ensures some { IfSome result (λ numbers. 2 ≤ numbers) }
{
    match bits {
        Some(bits) => Some(1 << bits),
        None => None,
    }
}

/// Reads all lines of a file, and writes their capture.
fn write_held<'a, F: Files, O: Write>(
    files: &mut F,
    asked: &Capture<'a>,
    settings: Settings,
    out: &mut O,
) -> Result<Status, Fault<'a>>
    requires { IsReady settings }
    ensures refused { final_status result ≡ Status.Refused → out.new ≡ out.old }
    ensures untouched { result ≡ Err Fault.Memory → out.new ≡ out.old }
    ensures printed { PrintsUnlessDenied (WritesLines false (F.content files.old) asked.now settings)
        (CanRead (F.content files.old) asked.now) result (O.contents out.old) (O.contents out.new) }
    ensures cut { IsCutOf (WritesLines false (F.content files.old) asked.now settings)
        (O.contents out.old) (O.contents out.new) }
{
    let text = content_of(files, asked.lines)?;
    write_lines(settings, asked.lines, text.as_slice(), out)
}

/// Writes the capture of the lines of a text, which is that of the file at this path.
fn write_lines<'a, O: Write>(
    settings: Settings,
    path: &'a str,
    text: &[u8],
    out: &mut O,
) -> Result<Status, Fault<'a>>
    requires { IsReady settings }
    ensures refused { final_status result ≡ Status.Refused → out.new ≡ out.old }
    ensures memory { result ≢ Err Fault.Memory }
    ensures printed { PrintsUnlessDenied (WritesCapture path.entry settings text.now) ⊤ result
        (O.contents out.old) (O.contents out.new) }
    ensures cut { IsCutOf (WritesCapture path.entry settings text.now) (O.contents out.old) (O.contents out.new) }
{
    if let Err(why) = write_capture(settings, text, out) {
        return Err(lines_fault(path, why));
    }
    out.flush()?;
    Ok(Status::Whole)
}
