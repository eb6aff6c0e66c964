//! The subcommand `list`.

ghost use Rattle.std.specs.Prelude.{⊤, ◌≡◌, ◌≢◌, ◌⊎◌, true, Err, IfOk, IfSome, OnErr};
ghost use Rattle.listing.specs.Begun.{BeginsPart, IsPartOfListing};
ghost use Rattle.listing.specs.Listing.{AppendsListing, IsListing};
ghost use Rattle.rvclass.specs.Fetch.{words_of};
ghost use Rattle.command_inputs.specs.Begun.{IsCutOf};
ghost use Rattle.command_inputs.specs.FurtherPieces.{base_number};
ghost use Rattle.command_inputs.specs.OnlyHarts.{asked_harts};
ghost use Rattle.command_inputs.specs.Order.{format_base_or_only_fault};
ghost use Rattle.command_inputs.specs.Printed.{PrintsUnlessDenied};
ghost use Rattle.capture_commands.specs.Faults.{final_status};
ghost use Rattle.capture_commands.specs.Listed.{CanList, CanListInput, Lists, ListsInPart, ListsInput};
ghost use Rattle.capture_commands.specs.Listed.{ListsInputInPart, ListsUpToMemory, WritesListing, WritesPart, harts_or_one};
ghost use Rattle.capture_commands.specs.ListedFormats.{IsListedIn, IsPartListedIn};
ghost use Rattle.capture_commands.specs.steps.Inputs.{lent_in, names_in};
ghost use Rattle.command_inputs.specs.declared.fault.Fault.TheVariants as Fault;

use crate::counting::begin_messages;
use crate::ending::ended_of;
use crate::hart_check::check_harts_below;
use crate::input::{Input, InputArgs, read_input};
use crate::reason::Fault;
use crate::salvaged_listing::{form_of, list_salvaged};
use command_inputs::{Files, Listing, MessageProgress, Status};
use listing::{Form, ListInput, Listed, list_capture};
use retire::WriteFault;
use std::alloc::Global;
use std::io::Write;

/// Writes the line of a capture's header, if it has one, and a line for each message: its offset in the file, its
/// packet, and the events that it settles, with their rows where these are asked for. Places are named by the symbols,
/// if they are given. Returns that all is done
/// if the capture is decoded to its end and each hart's closing packet came.
///
/// The listing ends where the decoding of the capture does, at the same fault. A message that is refused has a line
/// without events. Where allocation fails for the events of a message, the lines before it are still written.
///
/// The format is looked at first. As CSV the same is written as a table, whose rows are of the same definitions.
///
/// Where `salvage` is asked for, it writes a line for each message that is found whatever happened to the capture's
/// bytes, and for the bytes between, and the word for what [`salvage`](crate::salvage) does with the message. It ends
/// as `salvage` does. The messages are worked through twice: once for how it ends, and once for the words. Nothing is
/// allocated once something is written then.
///
/// Where some harts are asked for, messages of all other harts are passed over, unjudged: the lines are those of these
/// harts, and only the closing packets of these harts are missed. Offsets, places and a fault's message are those of
/// the whole capture. Where it has none of these harts, nothing is written.
pub fn list<'a, F: Files, O: Write>(
    alloc: Global,
    files: &mut F,
    asked: &Listing<'a>,
    out: &mut O,
) -> Result<Status, Fault<'a>>
    ensures early { IfSome
        (format_base_or_only_fault asked.now.format (base_number asked.now.program) (asked_harts asked.now.only))
        (λ fault. result ≡ Err fault) }
    ensures untouched { (final_status result ≡ Status.Refused)
        ⊎ ((asked.now.salvage ≡ true) × (result ≡ Err Fault.Memory)) → out.new ≡ out.old }
    ensures printed { PrintsUnlessDenied (Lists (F.content files.old) asked.now)
        (CanList (F.content files.old) asked.now) result
        (O.contents out.old) (O.contents out.new) }
    ensures begun { result ≡ Err Fault.Memory
        → ListsUpToMemory (Lists (F.content files.old) asked.now) (O.contents out.old) (O.contents out.new) }
    ensures cut { IsCutOf (ListsInPart (F.content files.old) asked.now) (O.contents out.old) (O.contents out.new) }
{
    let wanted = InputArgs {
        format: asked.format,
        program: &asked.program,
        only: asked.only,
        symbols: asked.symbols,
        capture: asked.capture,
    };
    let input = read_input(alloc, files, &wanted)?;
    let progress = MessageProgress::new(&*files, asked.progress);
    let lent = input.lent();
    write_listed(alloc, &progress, asked, &lent, out)
}

/// Writes what is listed of an input, where the capture has one of its harts: what salvaging does with each of their
/// messages, where that is asked for, and else their listing.
fn write_listed<'a, F: Files, O: Write>(
    alloc: Global,
    progress: &MessageProgress<'_, F>,
    asked: &Listing<'a>,
    input: &Input,
    out: &mut O,
) -> Result<Status, Fault<'a>>
    ensures never_refused { final_status result ≢ Status.Refused }
    ensures untouched { asked.now.salvage ≡ true → result ≡ Err Fault.Memory → out.new ≡ out.old }
    ensures printed { PrintsUnlessDenied (ListsInput asked.now (lent_in input.now))
        (CanListInput asked.now (lent_in input.now)) result
        (O.contents out.old) (O.contents out.new) }
    ensures begun { result ≡ Err Fault.Memory
        → ListsUpToMemory (ListsInput asked.now (lent_in input.now)) (O.contents out.old) (O.contents out.new) }
    ensures cut { IsCutOf (ListsInputInPart asked.now (lent_in input.now)) (O.contents out.old) (O.contents out.new) }
{
    if asked.salvage {
        return list_salvaged(alloc, progress, asked, input, out);
    }
    let harts = harts_or_one(asked.harts);
    check_harts_below(harts, input.only, input.bytes)?;
    write_listing(alloc, progress, asked, harts, input, out)
}

/// The count of harts of a capture with no header: one where none is given.
fn harts_or_one(given: Option<u16>) -> u16
    ensures { result ≡ harts_or_one given }
{
    given.unwrap_or(1)
}

/// Writes the listing of an input, and returns how the decoding of its harts ended.
fn write_listing<'a, F: Files, O: Write>(
    alloc: Global,
    progress: &MessageProgress<'_, F>,
    asked: &Listing<'_>,
    harts: u16,
    input: &Input,
    out: &mut O,
) -> Result<Status, Fault<'a>>
    ensures never_refused { final_status result ≢ Status.Refused }
    ensures printed { PrintsUnlessDenied
        (WritesListing asked.now.format asked.now.rows input.now.only harts input.now.program.now (names_in input.now) input.now.bytes.now) ⊤ result
        (O.contents out.old) (O.contents out.new) }
    ensures begun { result ≡ Err Fault.Memory → ListsUpToMemory
        (WritesListing asked.now.format asked.now.rows input.now.only harts input.now.program.now (names_in input.now) input.now.bytes.now)
        (O.contents out.old) (O.contents out.new) }
    ensures cut { IsCutOf
        (WritesPart asked.now.format asked.now.rows input.now.only harts input.now.program.now (names_in input.now) input.now.bytes.now)
        (O.contents out.old) (O.contents out.new) }
{
    let listed = show_listing(alloc, progress, asked, harts, input, out)?;
    out.flush()?;
    ended_of(input.only, listed.fault, listed.closed.as_slice())
}

/// Writes the listing of an input in a format. How far the messages are worked through is shown, where that is asked
/// for.
fn show_listing<F: Files, O: Write>(
    alloc: Global,
    progress: &MessageProgress<'_, F>,
    asked: &Listing<'_>,
    harts: u16,
    input: &Input,
    out: &mut O,
) -> Result<Listed, WriteFault>
    ensures listed { IfOk result (λ listed. AppendsListing
        (IsListedIn asked.now.format asked.now.rows (words_of input.now.program.now) input.now.only harts (names_in input.now) input.now.bytes.now)
        listed.closed.items listed.fault (O.contents out.old) (O.contents out.new)) }
    ensures begun { OnErr result (BeginsPart
        (IsPartListedIn asked.now.format asked.now.rows (words_of input.now.program.now) input.now.only harts (names_in input.now)
        input.now.bytes.now) (O.contents out.old) (O.contents out.new)) }
    ensures memory { result ≡ Err WriteFault.Memory → out.new ≡ out.old }
{
    begin_messages(progress, input.bytes);
    let form = form_of(asked.format, asked.rows);
    let listed = list_in(alloc, progress, form, harts, input, out);
    progress.end();
    listed
}

/// Writes the listing of an input in a form.
fn list_in<F: Files, O: Write>(
    alloc: Global,
    progress: &MessageProgress<'_, F>,
    form: Form,
    harts: u16,
    input: &Input,
    out: &mut O,
) -> Result<Listed, WriteFault>
    ensures listed { IfOk result (λ listed. AppendsListing
        (IsListing (words_of input.now.program.now) form input.now.only harts (names_in input.now) input.now.bytes.now)
        listed.closed.items listed.fault (O.contents out.old) (O.contents out.new)) }
    ensures begun { OnErr result (BeginsPart
        (IsPartOfListing (words_of input.now.program.now) form input.now.only harts (names_in input.now)
        input.now.bytes.now) (O.contents out.old) (O.contents out.new)) }
    ensures memory { result ≡ Err WriteFault.Memory → out.new ≡ out.old }
{
    let wanted = ListInput {
        program: input.program,
        harts,
        only: input.only,
        capture: input.bytes,
        symbols: input.symbols,
        form,
    };
    list_capture(alloc, &wanted, out, progress)
}
