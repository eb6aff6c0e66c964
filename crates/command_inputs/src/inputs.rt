//! The inputs of a subcommand: a base, a file and an image with its further pieces.

ghost use Rattle.std.specs.Prelude.{◌≡◌, ◌⊎◌, ◌≤◌, ◌<◌, IfErr, IfOk, IfSome, Err, None, Ok, Some, length};
ghost use Rattle.command_inputs.specs.declared.fault.Fault.TheVariants as fault;
ghost use Rattle.command_inputs.specs.Found.{AreFew, IsAskedBase, IsAskedProgram, IsBase, IsFormat, IsImageAt, IsProgramAt, IsRead};
ghost use Rattle.command_inputs.specs.FurtherPieces.{base_number};
ghost use Rattle.log_streams.specs.Known.{MayBegin};
ghost use Rattle.command_inputs.specs.Order.{format_fault, format_or_base_fault, logs_fault};

use crate::fault::Fault;
use crate::limits::LARGEST_PIECE;
use crate::pieces::{add_pieces, give_pieces};
use crate::{Format, ProgramArgs};
use log_streams::Files;
use retire::number;
use rvclass::Program;
use std::alloc::Global;

/// Refuses an argument that names no format.
pub fn check_format<'a, W>(format: Format) -> Result<(), Fault<'a, W>>
    ensures found { IsFormat format result }
    ensures some { IfOk result (λ _. format_fault {W = W} format ≡ None) }
    ensures none { IfErr result (λ why. format_fault format ≡ Some why) }
{
    match format {
        Format::Text | Format::Csv => Ok(()),
        Format::Other => Err(Fault::Format),
    }
}

/// The number that a base is, where there is a format. The format is looked at first.
pub fn asked_base<'a, W>(format: Format, asked: &ProgramArgs) -> Result<u64, Fault<'a, W>>
    ensures found { IsAskedBase format asked.now result }
    ensures number { IfOk result (λ base. format_or_base_fault {W = W} format (base_number asked.now) ≡ None) }
    ensures none { IfErr result (λ why. format_or_base_fault format (base_number asked.now) ≡ Some why) }
{
    check_format(format)?;
    base_of(asked)
}

/// The number that a base is, where each of the further arguments gives a piece with a base that is a number too.
pub fn base_of<'a, W>(asked: &ProgramArgs) -> Result<u64, Fault<'a, W>>
    ensures found { IsBase asked.now result }
    ensures number { IfOk result (λ base. base_number asked.now ≡ Some base) }
    ensures none { IfErr result (λ fault. (fault ≡ Fault.Base) × (base_number asked.now ≡ None)) }
{
    if !give_pieces(asked.also.as_slice()) {
        return Err(Fault::Base);
    }
    match number(asked.base.as_bytes()) {
        Some(base) => Ok(base),
        None => Err(Fault::Base),
    }
}

/// Refuses a count of logs that is 0 or more than this many.
fn check_count<'a, W>(logs: &Vec<&'a str>, most: u16) -> Result<(), Fault<'a, W>>
    ensures found { AreFew most logs.now.items result }
    ensures some { IfOk result (λ _. 1 ≤ length logs.now.items) }
    ensures few { IfOk result (λ _. length logs.now.items ≤ most) }
    ensures fault { IfErr result (λ why. ((why ≡ Fault.NoLogs) × (length logs.now.items ≡ 0))
        ⊎ ((why ≡ fault.ManyLogs most) × (1 ≤ length logs.now.items) × (most < length logs.now.items))) }
{
    let paths = logs.as_slice();
    if paths.is_empty() {
        return Err(Fault::NoLogs);
    }
    if paths.len() > usize::from(most) {
        return Err(Fault::ManyLogs(most));
    }
    Ok(())
}

/// The content of the file at a path.
pub fn content_of<'a, W, F: Files>(files: &mut F, path: &'a str) -> Result<Vec<u8>, Fault<'a, W>>
    ensures machine { IfErr result (λ why. (why ≡ Fault.Memory) ⊎ (why ≡ fault.Unreadable path.entry)) }
    ensures held { IfOk result (λ bytes. IsRead {W = W} (F.content files.old) path.entry (Ok bytes.items)) }
    ensures lacked { IfErr result (λ why. (why ≡ Fault.Memory) ⊎ IsRead (F.content files.old) path.entry (Err why)) }
    ensures kept { F.content files.new ≡ F.content files.old }
{
    start_of(files, path, None)
}

/// The bytes of the file at a path: all that it has, or the first ones if it has more than `most`. An input that has a
/// largest size is asked for one byte more, so a file without an end is refused for its size.
pub fn start_of<'a, W, F: Files>(
    files: &mut F,
    path: &'a str,
    most: Option<usize>,
) -> Result<Vec<u8>, Fault<'a, W>>
    ensures machine { IfErr result (λ why. (why ≡ Fault.Memory) ⊎ (why ≡ fault.Unreadable path.entry)) }
    ensures held { IfOk result (λ bytes. MayBegin most (F.content files.old path.entry.now) bytes.items) }
    ensures lacked { IfErr result (λ why. (why ≡ Fault.Memory) ⊎ IsRead (F.content files.old) path.entry (Err why)) }
    ensures kept { F.content files.new ≡ F.content files.old }
{
    match files.read(path, most) {
        Ok(bytes) => Ok(bytes),
        Err(why) => Err(Fault::of_file(path, why)),
    }
}

/// The program of an image at a base, with no further piece.
fn image_of<'a, W, F: Files>(
    files: &mut F,
    base: u64,
    image: &'a str,
) -> Result<Program, Fault<'a, W>>
    ensures program { IfOk result
        (λ program. IsImageAt {W = W} (F.content files.old) base image.entry (Ok program)) }
    ensures fault { IfErr result
        (λ why. (why ≡ Fault.Memory) ⊎ IsImageAt (F.content files.old) base image.entry (Err why)) }
    ensures kept { F.content files.new ≡ F.content files.old }
{
    let bytes = start_of(files, image, Some(LARGEST_PIECE + 1))?;
    Ok(Program::new(base, bytes)?)
}

/// The program of the image at a base, with its further pieces. Each piece is read and added before the next is looked
/// at.
pub fn program_of<'a, W, F: Files>(
    alloc: Global,
    files: &mut F,
    base: u64,
    asked: &ProgramArgs<'a>,
) -> Result<Program, Fault<'a, W>>
    ensures program { IfOk result
        (λ program. IsProgramAt {W = W} (F.content files.old) base asked.now (Ok program)) }
    ensures fault { IfErr result (λ why.
        (why ≡ Fault.Memory) ⊎ IsProgramAt (F.content files.old) base asked.now (Err why)) }
    ensures kept { F.content files.new ≡ F.content files.old }
{
    let program = image_of(files, base, asked.image)?;
    add_pieces(alloc, files, program, asked.also.as_slice())
}

/// The program that is asked for together with logs. The bases are looked at first, then the count of logs, then the
/// image and its further pieces.
pub fn asked_program<'a, W, F: Files>(
    alloc: Global,
    files: &mut F,
    most: u16,
    asked: &ProgramArgs<'a>,
    logs: &Vec<&'a str>,
) -> Result<Program, Fault<'a, W>>
    ensures early { IfSome (logs_fault most (base_number asked.now) (length logs.now.items))
        (λ fault. result ≡ Err fault) }
    ensures program { IfOk result
        (λ program. IsAskedProgram {W = W} (F.content files.old) most asked.now logs.now.items (Ok program)) }
    ensures fault { IfErr result (λ why. (why ≡ Fault.Memory)
        ⊎ IsAskedProgram (F.content files.old) most asked.now logs.now.items (Err why)) }
    ensures count { IfOk result (λ _. (1 ≤ length logs.now.items) × (length logs.now.items ≤ most)) }
    ensures kept { F.content files.new ≡ F.content files.old }
{
    let base = base_of(asked)?;
    check_count(logs, most)?;
    program_of(alloc, files, base, asked)
}
