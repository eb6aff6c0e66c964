//! The subcommand `generate`.

ghost use Rattle.std.specs.Prelude.{⊤, ◌≡◌, ◌≢◌, Err, IfErr, IfOk, IfSome, OnOk};
ghost use Rattle.std.specs.Io.KnownBytes.{Appends};
ghost use Rattle.output.specs.Begun.{AppendsBeginning};
ghost use Rattle.command_inputs.specs.Begun.{IsCutOf};
ghost use Rattle.command_inputs.specs.Limits.{IsGenerateWithin};
ghost use Rattle.command_inputs.specs.Printed.{PrintsUnlessDenied};
ghost use Rattle.command_inputs.specs.declared.fault.Fault.TheVariants as Fault;
ghost use Rattle.log_commands.specs.Faults.{final_status};
ghost use Rattle.log_commands.specs.Generating.{CanGenerate, Generates, GeneratesFront, IsReady, Makes, MakesFront};
ghost use Rattle.log_commands.specs.Generating.{WritesFront, WritesMixed, WritesRows, capture_of, capture_option};
ghost use Rattle.log_commands.specs.Generating.{generate_fault, log_asked, log_option, stray_of};
ghost use Rattle.stimulus.specs.ImageBytes.{image_bytes};

use crate::reason::{Fault, LogReason, Stray};
use command_inputs::{Generate, Product, Status};
use message::Version;
use output::write_bytes;
use payload::Mode;
use retire::number;
use rvclass::ProgramOver;
use std::alloc::Global;
use std::io::Write;
use stimulus::{Capture, Log, Mix, image_of, write_capture, write_log};

/// How many rows a log has where the arguments give no count.
const DEFAULT_EVENTS: u64 = 1_000_000;

/// How many harts a capture has where the arguments give no count.
const DEFAULT_HARTS: u16 = 1;

/// How many messages a capture has, but for those that close the traces, where the arguments give no count.
const DEFAULT_MESSAGES: u64 = 1_000_000;

/// The period where the arguments give none.
const DEFAULT_PERIOD: u16 = 1024;

/// How many messages of one hart come one after another at most where the arguments do not say.
const DEFAULT_BURST: u16 = 16;

/// Writes the image of a program that the seed and the mix give, or the log of a hart that runs it, or a capture of harts
/// that run it, whose messages are mixed.
///
/// No file is read. What is asked for is looked at first: what is made, the mix, options that do not go with it, the
/// base, the count of harts; then the program is made. No list grows with the run. The log of a hart is legal, and each
/// hart's messages are those of a legal log of the same program: so `stimulus` promises.
pub fn generate<'a, O: Write>(
    alloc: Global,
    asked: &Generate<'a>,
    out: &mut O,
) -> Result<Status, Fault<'a>>
    requires { IsGenerateWithin asked.now }
    ensures early { IfSome (generate_fault asked.now) (λ fault. result ≡ Err fault) }
    ensures refused { final_status result ≡ Status.Refused → out.new ≡ out.old }
    ensures untouched { result ≡ Err Fault.Memory → out.new ≡ out.old }
    ensures printed { PrintsUnlessDenied (Generates asked.now) (CanGenerate asked.now) result
        (O.contents out.old) (O.contents out.new) }
    ensures cut { IsCutOf (GeneratesFront asked.now) (O.contents out.old) (O.contents out.new) }
{
    let (mix, base) = ready(asked)?;
    let image = image_of(alloc, mix, asked.seed)?;
    let program = ProgramOver::borrowed(base, image.as_slice())?;
    make(alloc, asked, mix, &program, image.as_slice(), out)
}

/// The mix and the base that are asked for, or the fault that there is before anything is made.
fn ready<'a>(asked: &Generate<'a>) -> Result<(Mix, u64), Fault<'a>>
    ensures { IsReady asked.now result }
{
    if matches!(asked.product, Product::Other) {
        return Err(Fault::Own(LogReason::Product));
    }
    let Some(mix) = asked.mix else {
        return Err(Fault::Own(LogReason::Mix));
    };
    if let Some(stray) = stray_of(asked) {
        return Err(Fault::Own(LogReason::Stray(stray)));
    }
    let Some(base) = number(asked.base.as_bytes()) else {
        return Err(Fault::Base);
    };
    let most = asked.version.most_harts();
    if most < asked.harts.unwrap_or(DEFAULT_HARTS) {
        return Err(Fault::Own(LogReason::ManyHarts(most)));
    }
    Ok((mix, base))
}

/// The first option that is given and does not go with what is made.
fn stray_of(asked: &Generate<'_>) -> Option<Stray>
    ensures { result ≡ stray_of asked.now.product asked.now }
{
    match asked.product {
        Product::Log => capture_option(asked),
        Product::Capture => log_option(asked),
        _ => match log_option(asked) {
            Some(option) => Some(option),
            None => capture_option(asked),
        },
    }
}

/// The first option that is given and goes with a log alone.
fn log_option(asked: &Generate<'_>) -> Option<Stray>
    ensures { result ≡ log_option asked.now }
{
    if asked.hart.is_some() {
        return Some(Stray::Hart);
    }
    if asked.events.is_some() {
        return Some(Stray::Events);
    }
    None
}

/// The first option that is given and goes with a capture alone.
fn capture_option(asked: &Generate<'_>) -> Option<Stray>
    ensures { result ≡ capture_option asked.now }
{
    if asked.harts.is_some() {
        return Some(Stray::Harts);
    }
    if asked.messages.is_some() {
        return Some(Stray::Messages);
    }
    if asked.period.is_some() {
        return Some(Stray::Period);
    }
    if matches!(asked.mode, Mode::Full) {
        return Some(Stray::Full);
    }
    if matches!(asked.version, Version::One) {
        return Some(Stray::VersionOne);
    }
    if asked.burst.is_some() {
        return Some(Stray::Burst);
    }
    None
}

/// Writes the image that these bytes are, or what is made of its program.
fn make<'a, O: Write>(
    alloc: Global,
    asked: &Generate<'a>,
    mix: Mix,
    program: &ProgramOver,
    image: &[u8],
    out: &mut O,
) -> Result<Status, Fault<'a>>
    requires within { IsGenerateWithin asked.now }
    requires image { image.now ≡ image_bytes mix asked.now.seed }
    ensures refused { final_status result ≢ Status.Refused }
    ensures untouched { result ≡ Err Fault.Memory → out.new ≡ out.old }
    ensures printed { PrintsUnlessDenied (Makes asked.now.product asked.now mix program.now) ⊤ result
        (O.contents out.old) (O.contents out.new) }
    ensures cut { IsCutOf (MakesFront asked.now.product asked.now mix program.now)
        (O.contents out.old) (O.contents out.new) }
{
    match asked.product {
        Product::Image => write_image(image, out),
        Product::Log => write_rows(alloc, asked, mix, program, out),
        _ => write_mixed(alloc, asked, mix, program, out),
    }
}

/// Writes the bytes of an image.
fn write_image<'a, O: Write>(image: &[u8], out: &mut O) -> Result<Status, Fault<'a>>
    ensures fault { IfErr result (λ fault. fault ≡ Fault.Output) }
    ensures ended { IfOk result (λ status. status ≡ Status.Whole) }
    ensures text { OnOk result (Appends (O.contents out.old) (O.contents out.new) image.now) }
    ensures begun { AppendsBeginning image.now (O.contents out.old) (O.contents out.new) }
{
    write_bytes(out, image)?;
    out.flush()?;
    Ok(Status::Whole)
}

/// Writes the log of a hart that runs the program.
fn write_rows<'a, O: Write>(
    alloc: Global,
    asked: &Generate<'a>,
    mix: Mix,
    program: &ProgramOver,
    out: &mut O,
) -> Result<Status, Fault<'a>>
    requires { IsGenerateWithin asked.now }
    ensures ended { final_status result ≢ Status.Refused }
    ensures untouched { result ≡ Err Fault.Memory → out.new ≡ out.old }
    ensures printed { PrintsUnlessDenied (WritesRows asked.now mix program.now) ⊤ result
        (O.contents out.old) (O.contents out.new) }
    ensures cut { IsCutOf (WritesRows asked.now mix program.now) (O.contents out.old) (O.contents out.new) }
{
    write_log(alloc, program, &log_asked(asked, mix), out)?;
    out.flush()?;
    Ok(Status::Whole)
}

/// What a log is made of.
fn log_asked(asked: &Generate<'_>, mix: Mix) -> Log
    requires { IsGenerateWithin asked.now }
    ensures { result ≡ log_asked asked.now mix }
{
    Log {
        mix,
        seed: asked.seed,
        hart: asked.hart.unwrap_or(0),
        events: asked.events.unwrap_or(DEFAULT_EVENTS) as u32,
    }
}

/// What a capture is made of.
fn capture_of(asked: &Generate<'_>, mix: Mix) -> Capture
    ensures { result ≡ capture_of asked.now mix }
{
    Capture {
        mix,
        seed: asked.seed,
        harts: asked.harts.unwrap_or(DEFAULT_HARTS),
        messages: asked.messages.unwrap_or(DEFAULT_MESSAGES),
        period: asked.period.unwrap_or(DEFAULT_PERIOD),
        mode: asked.mode,
        version: asked.version,
        burst: u32::from(asked.burst.unwrap_or(DEFAULT_BURST)),
    }
}

/// Writes a capture of harts that run the program.
fn write_mixed<'a, O: Write>(
    alloc: Global,
    asked: &Generate<'a>,
    mix: Mix,
    program: &ProgramOver,
    out: &mut O,
) -> Result<Status, Fault<'a>>
    requires { IsGenerateWithin asked.now }
    ensures ended { final_status result ≢ Status.Refused }
    ensures untouched { result ≡ Err Fault.Memory → out.new ≡ out.old }
    ensures printed { PrintsUnlessDenied (WritesMixed asked.now mix program.now) ⊤ result
        (O.contents out.old) (O.contents out.new) }
    ensures cut { IsCutOf (WritesFront asked.now mix program.now) (O.contents out.old) (O.contents out.new) }
{
    write_capture(alloc, program, &capture_of(asked, mix), out)?;
    out.flush()?;
    Ok(Status::Whole)
}
