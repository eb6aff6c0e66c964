//! Lines that are written as they come.

ghost use Rattle.std.specs.Prelude.{◌≡◌, ◌≤◌, ◌<◌, ◌⊎◌, ◌-◌, ◌++◌, ℕ, List, [], Option, IfErr, IfSome, OnOk, get_or, length};
ghost use Rattle.std.specs.Io.KnownBytes.{Appends};
ghost use Rattle.output.specs.Begun.{AppendsBeginning};
ghost use Rattle.captures.specs.Capture.{header_with};
ghost use Rattle.captures.specs.Versions.{start_bytes};
ghost use Rattle.captures.specs.declared.line_settings.Settings.{Settings as AnySettings};
ghost use Rattle.command_inputs.specs.declared.words.Capture.{Capture as AskedCapture};
ghost use Rattle.log_streams.specs.Known.{Content};
ghost use Rattle.command_inputs.specs.declared.fault.Fault.TheVariants as Fault;
ghost use Rattle.path_commands.specs.Capturing.{HasEnd};
ghost use Rattle.path_commands.specs.steps.Ready.{IsReady};
ghost use Rattle.path_commands.specs.steps.Streaming.{HasEnded, HasPassedAll, HasStreamed, HasTaken, IsReadTo, TakesMore};

use crate::line_reason::{Fault, LineReason, lines_fault};
use captures::{PassedLines, Settings, write_start};
use command_inputs::{Capture, FileReader, Files, Status};
use std::alloc::Global;
use std::io::Write;

/// How many bytes are read at once.
const BLOCK_BYTES: usize = 4_096;

/// How far a text is passed that is read a block at a time.
#[derive(Drop)]
pub(crate) struct Taken {
    /// What is kept of the lines that were passed.
    passed: PassedLines,
    /// What was read after them.
    held: Vec<u8>,
}

/// Writes the capture of the lines of a file as they come: after each read the messages of the lines that are complete.
/// No more is held than a line and what a read gives.
pub(crate) fn write_stream<'a, F: Files, O: Write>(
    alloc: Global,
    files: &F,
    asked: &Capture<'a>,
    settings: &Settings,
    out: &mut O,
) -> Result<Status, Fault<'a>>
    requires { IsReady settings.now }
    ensures { HasStreamed (F.content files.now) asked.now settings.now result
        (O.contents out.old) (O.contents out.new) }
{
    let mut reader = match files.open_file(asked.lines) {
        Ok(reader) => reader,
        Err(why) => return Err(Fault::of_file(asked.lines, why)),
    };
    match begin(settings, out) {
        Ok(()) => {}
        Err(why) => return Err(why),
    }
    let mut taken = Taken {
        passed: PassedLines::new(settings),
        held: Vec::new(alloc),
    };
    let mut block = [0; BLOCK_BYTES];
    copy_lines(&mut reader, &mut block, asked, settings, &mut taken, out)
}

/// Writes what the capture begins with. The only fault is that of the output.
fn begin<'a, O: Write>(settings: &Settings, out: &mut O) -> Result<(), Fault<'a>>
    requires { IsReady settings.now }
    ensures written { OnOk result (Appends (O.contents out.old) (O.contents out.new)
        (start_bytes settings.now.version (header_with settings.now 1))) }
    ensures begun { AppendsBeginning (start_bytes settings.now.version (header_with settings.now 1))
        (O.contents out.old) (O.contents out.new) }
    ensures fault { IfErr result (λ why. why ≡ Fault.Output) }
{
    let harts = usize::from(settings.harts.unwrap_or(1));
    match write_start(out, settings.version, settings.period, settings.mode, harts) {
        Ok(()) => Ok(()),
        Err(_) => Err(Fault::Output),
    }
}

/// Reads a file to its end, and writes the messages of its lines.
fn copy_lines<'a, R: FileReader, O: Write>(
    reader: &mut R,
    block: &mut [u8],
    asked: &Capture<'a>,
    settings: &Settings,
    taken: &mut Taken,
    out: &mut O,
) -> Result<Status, Fault<'a>>
    requires numbers { IfSome settings.now.numbers (λ numbers. 2 ≤ numbers) }
    requires room { 0 < length block.old }
    ensures { (content : Content) (old : Option (List ℕ)) →
        IsReadTo (content asked.now.lines.now) [] (R.left reader.old) →
        HasTaken asked.now settings.now [] taken.old old (O.contents out.old) →
        HasStreamed content asked.now settings.now result old (O.contents out.new) }
{
    for _ in 0..u64::MAX {
        let count = match reader.read(block) {
            Ok(count) => count,
            Err(why) => return Err(Fault::of_file(asked.lines, why)),
        };
        if count == 0 {
            return finish(asked, settings, taken, out);
        }
        match take_block(asked, settings, taken, &block[..count], out) {
            Ok(()) => {}
            Err(why) => return Err(why),
        }
    }
    // No file is read so often.
    Err(Fault::Memory)
}

/// Takes a block: passes the lines that are complete with it, and holds what follows them.
fn take_block<'a, O: Write>(
    asked: &Capture<'a>,
    settings: &Settings,
    taken: &mut Taken,
    block: &[u8],
    out: &mut O,
) -> Result<(), Fault<'a>>
    requires { IfSome settings.now.numbers (λ numbers. 2 ≤ numbers) }
    ensures { (given : List ℕ) (old : Option (List ℕ)) →
        HasTaken asked.now settings.now given taken.old old (O.contents out.old) →
        TakesMore asked.now settings.now (given ++ block.now) result taken.new old (O.contents out.new) }
{
    let end = end_of_lines(block);
    if end == 0 {
        return hold(taken, block);
    }
    match pass_lines(asked, settings, taken, &block[..end], out) {
        Ok(()) => hold(taken, &block[end..]),
        Err(why) => Err(why),
    }
}

/// The end of the last line that has one, or 0 where none has.
fn end_of_lines(block: &[u8]) -> usize
    ensures within { result ≤ length block.now }
    ensures ends { (result ≡ 0) ⊎ (get_or block.now (result - 1) 0 ≡ 10) }
{
    let mut end = block.len();
    while end > 0 {
        if block[end - 1] == b'\n' {
            return end;
        }
        end -= 1;
    }
    0
}

/// Holds bytes behind those that are held.
fn hold<'a>(taken: &mut Taken, bytes: &[u8]) -> Result<(), Fault<'a>>
    ensures { (asked : AskedCapture) (settings : AnySettings) (given : List ℕ) (old new : Option (List ℕ)) →
        HasTaken asked settings given taken.old old new →
        TakesMore asked settings (given ++ bytes.now) result taken.new old new }
{
    match taken.held.extend_from_slice(bytes) {
        Ok(()) => Ok(()),
        Err(_) => Err(Fault::Memory),
    }
}

/// Passes the lines of what is held and of these bytes, which end with a line's end.
fn pass_lines<'a, O: Write>(
    asked: &Capture<'a>,
    settings: &Settings,
    taken: &mut Taken,
    bytes: &[u8],
    out: &mut O,
) -> Result<(), Fault<'a>>
    requires numbers { IfSome settings.now.numbers (λ numbers. 2 ≤ numbers) }
    requires ends { HasEnd bytes.now }
    ensures { (given : List ℕ) (old : Option (List ℕ)) →
        HasTaken asked.now settings.now given taken.old old (O.contents out.old) →
        TakesMore asked.now settings.now (given ++ bytes.now) result taken.new old (O.contents out.new) }
{
    match hold(taken, bytes) {
        Ok(()) => {}
        Err(why) => return Err(why),
    }
    match pass_held(asked, settings, taken, out) {
        Ok(()) => {}
        Err(why) => return Err(why),
    }
    taken.held.clear();
    Ok(())
}

/// Passes the lines of what is held, as if the text ended with it. What is held stays.
fn pass_held<'a, O: Write>(
    asked: &Capture<'a>,
    settings: &Settings,
    taken: &mut Taken,
    out: &mut O,
) -> Result<(), Fault<'a>>
    requires { IfSome settings.now.numbers (λ numbers. 2 ≤ numbers) }
    ensures { (given : List ℕ) (old : Option (List ℕ)) →
        HasTaken asked.now settings.now given taken.old old (O.contents out.old) →
        HasPassedAll asked.now settings.now given result taken.new old (O.contents out.new) }
{
    match taken
        .passed
        .add(settings, asked.skip, taken.held.as_slice(), out)
    {
        Ok(()) => {}
        Err(why) => return Err(lines_fault(asked.lines, why)),
    }
    match out.flush() {
        Ok(()) => Ok(()),
        Err(_) => Err(Fault::Output),
    }
}

/// Passes what is left of a text that was read to its end, and says how that ended.
fn finish<'a, O: Write>(
    asked: &Capture<'a>,
    settings: &Settings,
    taken: &mut Taken,
    out: &mut O,
) -> Result<Status, Fault<'a>>
    requires { IfSome settings.now.numbers (λ numbers. 2 ≤ numbers) }
    ensures { (given : List ℕ) (old : Option (List ℕ)) →
        HasTaken asked.now settings.now given taken.old old (O.contents out.old) →
        HasEnded asked.now settings.now given result old (O.contents out.new) }
{
    match pass_held(asked, settings, taken, out) {
        Ok(()) => {}
        Err(why) => return Err(why),
    }
    let count = taken.passed.skipped();
    if count == 0 {
        return Ok(Status::Whole);
    }
    Err(Fault::Own(LineReason::Skipped(asked.lines, count)))
}
