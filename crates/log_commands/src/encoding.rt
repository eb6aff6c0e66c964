//! The subcommand `encode`.

ghost use Rattle.std.specs.Prelude.{◌≡◌, ◌⊎◌, ◌≤◌, ◌+◌, ◌++◌, ℕ, Err, IfErr, IfOk, IfSome, List, Ok, OnOk, length};
ghost use Rattle.std.specs.List.{flat_map};
ghost use Rattle.std.specs.Io.KnownBytes.{Appends};
ghost use Rattle.legalpath.specs.ProgramLog.{ProgramLog, program_log};
ghost use Rattle.message.specs.declared.message.Message.{Message};
ghost use Rattle.message.specs.Version.{most_harts};
ghost use Rattle.output.specs.Begun.{AppendsBeginning};
ghost use Rattle.rvclass.specs.Fetch.{words_of};
ghost use Rattle.captures.specs.HasEncoded.{HasEncoded};
ghost use Rattle.command_inputs.specs.FurtherPieces.{base_number};
ghost use Rattle.command_inputs.specs.Begun.{IsCutOf};
ghost use Rattle.command_inputs.specs.FoundLogs.{AreLegalLogsUpTo};
ghost use Rattle.command_inputs.specs.Order.{logs_fault};
ghost use Rattle.command_inputs.specs.Printed.{PrintsUnlessDenied};
ghost use Rattle.log_commands.specs.Encoding.{CanEncode, Encodes, encode_fault, written};
ghost use Rattle.log_commands.specs.Most.{most_of};
ghost use Rattle.log_commands.specs.Faults.{final_status};
ghost use Rattle.log_commands.specs.Parts.{all_harts, first_hart};
ghost use Rattle.log_commands.specs.steps.Made.{AreAskedMessages, AreMadeOfLogs, AreMessagesOf, form_text, joined};
ghost use Rattle.log_commands.specs.steps.Made.{lines_made, output_or, start_of, written_of};
ghost use Rattle.log_commands.specs.steps.Parts.{CanEncodeUpTo, EncodesUpTo, limit_of};
ghost use Rattle.command_inputs.specs.declared.fault.Fault.TheVariants as Fault;
ghost use Rattle.stimulus.specs.Mixing.{IsUnmixed, mixed_by};

use crate::made::all_made;
use crate::most::most_of;
use crate::parts::{all_harts, first_hart, hart_at, limit_of};
use crate::reason::Fault;
use captures::{CaptureBytes, Form, HartMessages, HexLines, write_start};
use command_inputs::{Encode, Status, asked_program, begin_progress};
use legalpath::PathFault;
use log_streams::{Files, IllegalRow, LogTask, made_of_logs};
use message::MessageFault;
use output::write_bytes;
use payload::Mode;
use retire::Event;
use rvclass::ProgramOver;
use std::alloc::{AllocError, Global};
use std::io::Write;
use std::thread::Threads;
use stimulus::Mixing;

/// Writes the messages of each hart's log, once all logs are legal: as a capture of the version that is asked for, or
/// as lines of hexadecimal. The version limits the count of logs in both cases. A log may have 4,294,967,295 rows where
/// long logs are asked for, and else 16,777,216.
///
/// Where a count of all harts is given, the logs are those of some of them, and a part of the capture is written. Its
/// header counts all harts, and only the part with the log of hart 0 has it. The parts of all harts, one after the
/// other, are the capture of all logs: so [`parts_are_joined`] promises.
///
/// Where a seed is given, the messages of the logs are mixed by it, as [`Mixing`] does, and each hart's stay in their
/// order: [`mixed_messages_are_the_same`].
///
/// The logs are read side by side, each a piece at a time. The messages are made while the events come, and kept until
/// it is known that all logs are legal. No list holds the events of a log. A complete capture decodes to the logs again,
/// to long ones too, unless allocation fails, and in version 1 if the count of logs is given: so
/// `captures::decode_capture` promises.
///
/// [`parts_are_joined`]: crate::parts_are_joined
/// [`mixed_messages_are_the_same`]: crate::mixed_messages_are_the_same
pub fn encode<'a, F: Files + Sync, O: Write, R: Threads + Sync>(
    alloc: Global,
    rt: &R,
    files: &mut F,
    asked: &Encode<'a>,
    out: &mut O,
) -> Result<Status, Fault<'a>>
where
    F::Reader: Send,
    requires { 1 ≤ asked.now.period }
    ensures early { IfSome (encode_fault asked.now) (λ fault. result ≡ Err fault) }
    ensures refused { final_status result ≡ Status.Refused → out.new ≡ out.old }
    ensures untouched { result ≡ Err Fault.Memory → out.new ≡ out.old }
    ensures printed { PrintsUnlessDenied (Encodes (F.content files.old) asked.now)
        (CanEncode (F.content files.old) asked.now) result
        (O.contents out.old) (O.contents out.new) }
    ensures cut { IsCutOf (Encodes (F.content files.old) asked.now) (O.contents out.old) (O.contents out.new) }
{
    match limit_of(asked) {
        Ok(most) => encode_up_to(alloc, rt, files, asked, most, out),
        Err(why) => Err(why),
    }
}

/// Writes the same of at most this many logs.
fn encode_up_to<'a, F: Files + Sync, O: Write, R: Threads + Sync>(
    alloc: Global,
    rt: &R,
    files: &mut F,
    asked: &Encode<'a>,
    most: u16,
    out: &mut O,
) -> Result<Status, Fault<'a>>
where
    F::Reader: Send,
    requires period { 1 ≤ asked.now.period }
    requires most { limit_of asked.now ≡ Ok most }
    ensures early { IfSome (logs_fault most (base_number asked.now.program) (length asked.now.logs.items))
        (λ fault. result ≡ Err fault) }
    ensures refused { final_status result ≡ Status.Refused → out.new ≡ out.old }
    ensures untouched { result ≡ Err Fault.Memory → out.new ≡ out.old }
    ensures printed { PrintsUnlessDenied (EncodesUpTo (F.content files.old) asked.now most)
        (CanEncodeUpTo (F.content files.old) asked.now most) result
        (O.contents out.old) (O.contents out.new) }
    ensures cut { IsCutOf (EncodesUpTo (F.content files.old) asked.now most)
        (O.contents out.old) (O.contents out.new) }
{
    let program = asked_program(alloc, files, most, &asked.program, &asked.logs)?;
    let paths = asked.logs.as_slice();
    let messages = messages_of_logs(alloc, rt, &*files, &program, asked, paths)?;
    write_messages(alloc, asked, messages.as_slice(), out)
}

/// How the messages of logs are made, and in which form they are written.
#[derive(Drop)]
struct Encoding<C> {
    alloc: Global,
    form: C,
    /// The hart of the first log.
    first: u16,
    period: u16,
    mode: Mode,
    ghost some: { 1 ≤ period },
}

impl<C: Form> LogTask<Vec<u8>> for Encoding<C> {
    type State = HartMessages<C>;

    ghost Keeps = { λ task program place seen messages.
        HasEncoded C.text (words_of program) task.period task.mode (task.first + place) seen messages };

    ghost Makes = { λ task program place events bytes.
        AreMessagesOf C.text task.period task.mode task.first place (program_log program events) bytes };

    ghost MakesOfIllegal = { λ task program events row bytes. ⊥ };

    fn begin(&self, _: &ProgramOver, place: usize) -> Result<HartMessages<C>, AllocError> {
        // Messages have 16 bits for the number of the hart. No version has more harts.
        match hart_at(self.first, place) {
            Some(hart) => Ok(HartMessages::new(self.alloc, hart, self.period, self.mode)),
            None => Err(AllocError),
        }
    }

    fn add(
        &self,
        program: &ProgramOver,
        messages: &mut HartMessages<C>,
        events: &[Event],
    ) -> Result<(), AllocError> {
        messages.add(program, events)
    }

    fn finish(
        &self,
        program: &ProgramOver,
        messages: HartMessages<C>,
    ) -> Result<Vec<u8>, AllocError> {
        messages.finish(program)
    }

    fn refuse(&self, _: &ProgramOver, row: IllegalRow) -> Result<Vec<u8>, PathFault> {
        Err(row.fault)
    }
}

/// Whether the messages are made as lines of hexadecimal: if these are asked for, and the messages are not mixed after.
fn lines_made(asked: &Encode) -> bool
    ensures { result ≡ lines_made asked.now.mixed asked.now.hex }
{
    match asked.mixed {
        None => asked.hex,
        Some(_) => false,
    }
}

/// The messages of the logs at these paths, in the form that is asked for, or as a capture has them, if they are mixed
/// after.
fn messages_of_logs<'a, F: Files + Sync, R: Threads + Sync>(
    alloc: Global,
    rt: &R,
    files: &F,
    program: &ProgramOver,
    asked: &Encode<'a>,
    paths: &[&'a str],
) -> Result<Vec<Vec<u8>>, Fault<'a>>
where
    F::Reader: Send,
    requires { 1 ≤ asked.now.period }
    ensures count { IfOk result (λ made. length made.items ≡ length paths.now) }
    ensures logs { IfOk result (λ made.
        AreMadeOfLogs (AreMessagesOf (form_text (lines_made asked.now.mixed asked.now.hex)) asked.now.period
        asked.now.mode (first_hart asked.now.first)) (most_of asked.now.long)
        (F.content files.now) program.now paths.now made.items) }
    ensures fault { IfErr result (λ why. (why ≡ Fault.Memory)
        ⊎ AreLegalLogsUpTo (most_of asked.now.long) (F.content files.now) program.now paths.now (Err why)) }
{
    let rows = most_of(asked.long);
    let first = first_hart(asked);
    let period = asked.period;
    let mode = asked.mode;
    begin_progress(files, asked.progress, paths);
    if lines_made(asked) {
        let form = HexLines;
        let encoding = Encoding {
            alloc,
            form,
            first,
            period,
            mode,
        };
        let made = made_of_logs(alloc, rt, files, program, rows, paths, &encoding);
        files.end_progress();
        all_made(made)
    } else {
        let form = CaptureBytes;
        let encoding = Encoding {
            alloc,
            form,
            first,
            period,
            mode,
        };
        let made = made_of_logs(alloc, rt, files, program, rows, paths, &encoding);
        files.end_progress();
        all_made(made)
    }
}

/// Writes the messages that were made of logs, flushes the output, and returns that all is done.
fn write_messages<'a, O: Write>(
    alloc: Global,
    asked: &Encode<'a>,
    messages: &[Vec<u8>],
    out: &mut O,
) -> Result<Status, Fault<'a>>
    requires period { 1 ≤ asked.now.period }
    requires some { 1 ≤ all_harts asked.now.of (length messages.now) }
    requires few { all_harts asked.now.of (length messages.now) ≤ most_harts asked.now.version }
    requires room { first_hart asked.now.first + length messages.now ≤ all_harts asked.now.of (length messages.now) }
    ensures fault { IfErr result (λ fault. (fault ≡ Fault.Memory) ⊎ (fault ≡ Fault.Output)) }
    ensures ended { IfOk result (λ status. status ≡ Status.Whole) }
    ensures untouched { result ≡ Err Fault.Memory → out.new ≡ out.old }
    ensures text { (logs : List ProgramLog) → AreAskedMessages asked.now logs messages.now
        → OnOk result (Appends (O.contents out.old) (O.contents out.new) (written asked.now logs)) }
    ensures begun { (logs : List ProgramLog) → AreAskedMessages asked.now logs messages.now
        → AppendsBeginning (written asked.now logs) (O.contents out.old) (O.contents out.new) }
{
    write_in_order(alloc, asked, messages, out)?;
    out.flush()?;
    Ok(Status::Whole)
}

/// Writes the messages that were made of logs, in the order that is asked for.
fn write_in_order<'a, O: Write>(
    alloc: Global,
    asked: &Encode<'a>,
    messages: &[Vec<u8>],
    out: &mut O,
) -> Result<(), Fault<'a>>
    requires period { 1 ≤ asked.now.period }
    requires some { 1 ≤ all_harts asked.now.of (length messages.now) }
    requires few { all_harts asked.now.of (length messages.now) ≤ most_harts asked.now.version }
    requires room { first_hart asked.now.first + length messages.now ≤ all_harts asked.now.of (length messages.now) }
    ensures fault { IfErr result (λ fault. (fault ≡ Fault.Memory) ⊎ (fault ≡ Fault.Output)) }
    ensures untouched { result ≡ Err Fault.Memory → out.new ≡ out.old }
    ensures text { (logs : List ProgramLog) → AreAskedMessages asked.now logs messages.now
        → OnOk result (Appends (O.contents out.old) (O.contents out.new) (written asked.now logs)) }
    ensures begun { (logs : List ProgramLog) → AreAskedMessages asked.now logs messages.now
        → AppendsBeginning (written asked.now logs) (O.contents out.old) (O.contents out.new) }
{
    match asked.mixed {
        None => write_in_form(asked, messages, out),
        Some(seed) => {
            let mixing = Mixing::new(alloc, seed, messages)?;
            write_mixed(asked, messages.len(), mixing, out)
        }
    }
}

/// Writes mixed messages of this many logs: what a capture begins with, where one is asked for, and then the messages.
fn write_mixed<'a, O: Write>(
    asked: &Encode<'a>,
    logs: usize,
    mixing: Mixing<'_, Global>,
    out: &mut O,
) -> Result<(), Fault<'a>>
    requires period { 1 ≤ asked.now.period }
    requires some { 1 ≤ all_harts asked.now.of logs }
    requires few { all_harts asked.now.of logs ≤ most_harts asked.now.version }
    ensures fault { IfErr result (λ fault. fault ≡ Fault.Output) }
    ensures text { (seed : ℕ) (left : List (List Message)) → IsUnmixed seed left mixing.entry
        → OnOk result (Appends (O.contents out.old) (O.contents out.new)
        (start_of asked.now logs ++ flat_map (form_text asked.now.hex) (mixed_by seed left))) }
    ensures begun { (seed : ℕ) (left : List (List Message)) → IsUnmixed seed left mixing.entry
        → AppendsBeginning (start_of asked.now logs ++ flat_map (form_text asked.now.hex) (mixed_by seed left))
        (O.contents out.old) (O.contents out.new) }
{
    write_beginning(asked, logs, out)?;
    if asked.hex {
        return written_to_output(mixing.write::<HexLines, O>(out));
    }
    written_to_output(mixing.write::<CaptureBytes, O>(out))
}

/// What became of messages that were written: the output failed, or not.
fn written_to_output<'a>(written: Result<(), MessageFault>) -> Result<(), Fault<'a>>
    ensures { result ≡ output_or written }
{
    match written {
        Ok(()) => Ok(()),
        Err(_) => Err(Fault::Output),
    }
}

/// Writes the messages that were made of logs: what a capture begins with, where one is asked for, and their bytes.
fn write_in_form<'a, O: Write>(
    asked: &Encode<'a>,
    messages: &[Vec<u8>],
    out: &mut O,
) -> Result<(), Fault<'a>>
    requires period { 1 ≤ asked.now.period }
    requires some { 1 ≤ all_harts asked.now.of (length messages.now) }
    requires few { all_harts asked.now.of (length messages.now) ≤ most_harts asked.now.version }
    ensures fault { IfErr result (λ fault. fault ≡ Fault.Output) }
    ensures text { OnOk result (Appends (O.contents out.old) (O.contents out.new) (written_of asked.now messages.now)) }
    ensures begun { AppendsBeginning (written_of asked.now messages.now) (O.contents out.old) (O.contents out.new) }
{
    write_beginning(asked, messages.len(), out)?;
    write_joined(messages, out)
}

/// Writes what comes before the messages of this many logs.
#[tactic(auto, using(crate::proofs::Headers::may_start))]
fn write_beginning<'a, O: Write>(
    asked: &Encode<'a>,
    logs: usize,
    out: &mut O,
) -> Result<(), Fault<'a>>
    requires period { 1 ≤ asked.now.period }
    requires some { 1 ≤ all_harts asked.now.of logs }
    requires few { all_harts asked.now.of logs ≤ most_harts asked.now.version }
    ensures fault { IfErr result (λ fault. fault ≡ Fault.Output) }
    ensures text { OnOk result (Appends (O.contents out.old) (O.contents out.new) (start_of asked.now logs)) }
    ensures begun { AppendsBeginning (start_of asked.now logs) (O.contents out.old) (O.contents out.new) }
{
    if asked.hex {
        return Ok(());
    }
    if first_hart(asked) > 0 {
        return Ok(());
    }
    let harts = all_harts(asked, logs);
    match write_start(out, asked.version, asked.period, asked.mode, harts) {
        Ok(()) => Ok(()),
        Err(_) => Err(Fault::Output),
    }
}

/// Writes the bytes that were made of logs, one after the other.
fn write_joined<'a, O: Write>(messages: &[Vec<u8>], out: &mut O) -> Result<(), Fault<'a>>
    ensures fault { IfErr result (λ fault. fault ≡ Fault.Output) }
    ensures text { OnOk result (Appends (O.contents out.old) (O.contents out.new) (joined messages.now)) }
    ensures begun { AppendsBeginning (joined messages.now) (O.contents out.old) (O.contents out.new) }
{
    for bytes in messages {
        write_bytes(out, bytes.as_slice())?;
    }
    Ok(())
}
