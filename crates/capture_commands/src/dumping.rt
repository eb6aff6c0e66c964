//! The subcommand `dump`.

ghost use Rattle.std.specs.Prelude.{◌≡◌, ◌≢◌, Err, IfErr, IfOk, IfSome, OnErr, option_map};
ghost use Rattle.captures.specs.Dump.{AppendsDump, BeginsDump};
ghost use Rattle.command_inputs.specs.Begun.{IsCutOf};
ghost use Rattle.command_inputs.specs.OnlyHarts.{asked_harts};
ghost use Rattle.command_inputs.specs.Order.{only_fault};
ghost use Rattle.command_inputs.specs.Printed.{PrintsUnlessDenied};
ghost use Rattle.capture_commands.specs.Faults.{final_status};
ghost use Rattle.capture_commands.specs.Dumping.{CanDump, CanDumpHarts, CanDumpNamed, Dumps, DumpsHarts, DumpsNamed};
ghost use Rattle.capture_commands.specs.Dumping.{IsDumpAsked, end_of_dump};
ghost use Rattle.command_inputs.specs.declared.fault.Fault.TheVariants as Fault;

use crate::counting::{frames_in, messages_in};
use crate::hart_check::check_harts;
use crate::reason::Fault;
use crate::stopping::capture_fault;
use captures::{CaptureFault, Dumped, dump_harts};
use command_inputs::{Dump, Files, MessageProgress, Status, content_of, harts_asked, symbols_of};
use frames::search_harts;
use message::HartRange;
use retire::WriteFault;
use std::alloc::Global;
use std::io::Write;
use symbols::Symbols;

/// Writes the line of a capture's header, if it has one, and a line for each message, up to the first place where there
/// is no complete message. Returns that all is done if every payload is a packet, and else that the capture is not
/// good.
///
/// Where a search is asked for, messages are looked for after damage too: a line for each frame that is taken, and one
/// for each longest run of bytes between. Where there is such a run, the capture is not good. Where its header is cut
/// short or bad, the lines go on to its end, and then that fault is returned.
///
/// Where some harts are asked for, messages of all other harts are passed over: they have no line, and their payloads
/// may be bad. A fault counts them. Where the capture has none of these harts, nothing is written.
///
/// Where symbols are given, the line of a packet that reports an address ends with its name. They are read before the
/// capture.
pub fn dump<'a, F: Files, O: Write>(
    alloc: Global,
    files: &mut F,
    asked: &Dump<'a>,
    out: &mut O,
) -> Result<Status, Fault<'a>>
    ensures early { IfSome (only_fault (asked_harts asked.now.only)) (λ fault. result ≡ Err fault) }
    ensures refused { final_status result ≡ Status.Refused → out.new ≡ out.old }
    ensures untouched { result ≡ Err Fault.Memory → out.new ≡ out.old }
    ensures printed { PrintsUnlessDenied (Dumps (F.content files.old) asked.now)
        (CanDump (F.content files.old) asked.now) result
        (O.contents out.old) (O.contents out.new) }
    ensures cut { IsCutOf (Dumps (F.content files.old) asked.now) (O.contents out.old) (O.contents out.new) }
{
    let harts = harts_asked(asked.only)?;
    dump_named(alloc, files, asked, harts, out)
}

/// Reads the symbols, if they are given, and writes the dump of what a capture has of these harts.
fn dump_named<'a, F: Files, O: Write>(
    alloc: Global,
    files: &mut F,
    asked: &Dump<'a>,
    harts: HartRange,
    out: &mut O,
) -> Result<Status, Fault<'a>>
    ensures refused { final_status result ≡ Status.Refused → out.new ≡ out.old }
    ensures untouched { result ≡ Err Fault.Memory → out.new ≡ out.old }
    ensures printed { PrintsUnlessDenied (DumpsHarts (F.content files.old) asked.now harts)
        (CanDumpHarts (F.content files.old) asked.now harts) result
        (O.contents out.old) (O.contents out.new) }
    ensures cut { IsCutOf (DumpsHarts (F.content files.old) asked.now harts)
        (O.contents out.old) (O.contents out.new) }
{
    let symbols = symbols_of(alloc, files, asked.symbols)?;
    dump_of(files, asked, symbols.as_ref(), harts, out)
}

/// Writes the dump of what a capture has of these harts, with names by the symbols, if they are given.
fn dump_of<'a, F: Files, O: Write>(
    files: &mut F,
    asked: &Dump<'a>,
    symbols: Option<&Symbols>,
    harts: HartRange,
    out: &mut O,
) -> Result<Status, Fault<'a>>
    ensures never_refused { final_status result ≢ Status.Refused }
    ensures untouched { result ≡ Err Fault.Memory → out.new ≡ out.old }
    ensures printed { PrintsUnlessDenied
        (DumpsNamed (F.content files.old) asked.now harts (option_map (λ file. file.now) symbols.entry))
        (CanDumpNamed (F.content files.old) asked.now harts) result (O.contents out.old) (O.contents out.new) }
    ensures cut { IsCutOf
        (DumpsNamed (F.content files.old) asked.now harts (option_map (λ file. file.now) symbols.entry))
        (O.contents out.old) (O.contents out.new) }
{
    let bytes = content_of(files, asked.capture)?;
    check_harts(harts, bytes.as_slice())?;
    let progress = MessageProgress::new(&*files, asked.progress);
    let dumped = show_dump(&progress, asked, symbols, harts, bytes.as_slice(), out)?;
    out.flush()?;
    ended(&dumped)
}

/// Writes the dump of what a capture's bytes have of these harts, with names by the symbols, if they are given. How far
/// their messages are worked through is shown, where that is asked for.
fn show_dump<'a, F: Files, O: Write>(
    progress: &MessageProgress<'_, F>,
    asked: &Dump<'a>,
    symbols: Option<&Symbols>,
    harts: HartRange,
    bytes: &[u8],
    out: &mut O,
) -> Result<Dumped, WriteFault>
    ensures dumped { IfOk result (λ dumped. AppendsDump
        (IsDumpAsked asked.now.search (option_map (λ file. file.now) symbols.entry) harts bytes.now) dumped.bad dumped.fault
        (O.contents out.old) (O.contents out.new)) }
    ensures begun { OnErr result
        (BeginsDump (IsDumpAsked asked.now.search (option_map (λ file. file.now) symbols.entry) harts bytes.now)
        (O.contents out.old) (O.contents out.new)) }
    ensures fault { IfErr result (λ fault. fault ≡ WriteFault.Write) }
{
    if progress.is_asked() {
        progress.begin(dumped_in(asked, bytes));
    }
    let dumped = write_dump(progress, asked, symbols, harts, bytes, out);
    progress.end();
    dumped
}

/// How many messages a dump of these bytes has.
fn dumped_in(asked: &Dump<'_>, bytes: &[u8]) -> u64 {
    if !asked.search {
        return messages_in(bytes);
    }
    frames_in(bytes)
}

/// Writes the dump of what a capture's bytes have of these harts, by a search where one is asked for, with names by the
/// symbols, if they are given.
fn write_dump<'a, F: Files, O: Write>(
    progress: &MessageProgress<'_, F>,
    asked: &Dump<'a>,
    symbols: Option<&Symbols>,
    harts: HartRange,
    bytes: &[u8],
    out: &mut O,
) -> Result<Dumped, WriteFault>
    ensures dumped { IfOk result (λ dumped. AppendsDump
        (IsDumpAsked asked.now.search (option_map (λ file. file.now) symbols.entry) harts bytes.now) dumped.bad dumped.fault
        (O.contents out.old) (O.contents out.new)) }
    ensures begun { OnErr result
        (BeginsDump (IsDumpAsked asked.now.search (option_map (λ file. file.now) symbols.entry) harts bytes.now)
        (O.contents out.old) (O.contents out.new)) }
    ensures fault { IfErr result (λ fault. fault ≡ WriteFault.Write) }
{
    if asked.search {
        search_harts(bytes, harts, symbols, out, progress)
    } else {
        dump_harts(bytes, harts, symbols, out, progress)
    }
}

/// How a dump ended: at the place where there is no complete message or no header, if there is such a place, or else by
/// whether a payload is bad.
fn ended<'a>(dumped: &Dumped) -> Result<Status, Fault<'a>>
    ensures value { result ≡ end_of_dump dumped.now.bad dumped.now.fault }
    ensures never_refused { final_status result ≢ Status.Refused }
{
    match dumped.fault {
        Some((number, why)) => Err(capture_fault(number, CaptureFault::Message(why))),
        None if dumped.bad => Ok(Status::NotWhole),
        None => Ok(Status::Whole),
    }
}
