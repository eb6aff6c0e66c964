//! Writing the lines that explain a fault.

ghost use Rattle.std.specs.Prelude.{◌≡◌, IfErr, List, OnOk, Some, option_map};
ghost use Rattle.std.specs.Io.KnownBytes.{Appends};
ghost use Rattle.output.specs.Begun.{AppendsBeginning};
ghost use Rattle.retire.specs.declared.event.Event.{Event as AnyEvent};
ghost use Rattle.explaining.specs.Explanation.{at_row, event_line, explained, explanation};
ghost use Rattle.explaining.specs.StandsAt.{StandsAt};

use crate::elf_image::ElfLine;
use crate::retirement::RetirementLine;
use crate::trap::TrapLine;
use legalpath::{PathFault, Why};
use output::write_text;
use retire::{Event, WriteFault};
use rvclass::ProgramOver;
use std::alloc::Allocator;
use std::fmt;
use std::fmt::Display;
use std::io::Write;
use symbols::{Symbols, write_name};

/// Why an event is illegal: what is at its row, or at the row before, and what may be there.
#[derive(Clone, Copy)]
struct EventLine<'a> {
    program: &'a ProgramOver<'a>,
    before: Option<Event>,
    event: Event,
    why: Why,
}

impl fmt::Display for EventLine<'_> {
    ghost output = { λ text. Some (event_line text.program.now text.before text.event text.why) };

    fn fmt<W: fmt::Write>(&self, f: &mut fmt::Formatter<W>) -> fmt::Result {
        let program = self.program;
        let before = self.before;
        let why = self.why;
        match self.event {
            Event::Retire {
                addr,
                itype,
                privilege,
            } => {
                let line = RetirementLine {
                    program,
                    before,
                    addr,
                    itype,
                    privilege,
                    why,
                };
                line.fmt(f)
            }
            Event::Trap {
                privilege,
                interrupt,
                cause,
                epc,
                tval,
            } => {
                let line = TrapLine {
                    program,
                    before,
                    privilege,
                    interrupt,
                    cause,
                    epc,
                    tval,
                    why,
                };
                line.fmt(f)
            }
        }
    }
}

/// The event at a row of a log. Rows are counted from 1.
fn at_row(log: &[Event], row: u32) -> Option<Event>
    ensures { result ≡ at_row log.now row }
{
    if row == 0 {
        return None;
    }
    log.get((row - 1) as usize).copied()
}

/// Writes the line that explains a fault of a log: what is at the row, or at the row before where that leads elsewhere,
/// and what may be there. The line begins with two blanks, and ends with the name of the row's address or exception
/// program counter, where symbols are given, and a line feed. If the image begins with the bytes 7f 45 4c 46, a line
/// below says that it looks like an ELF file.
///
/// The fault is one that [`check`](legalpath::check) returns for this program and this log. For a row that the log does
/// not have, nothing is written. The only fault is [`WriteFault::Write`]: the writer failed, and what was written is a
/// prefix of the text. The call allocates nothing, and does not flush the writer.
pub fn explain<S: Allocator, W: Write>(
    program: &ProgramOver,
    log: &[Event],
    fault: PathFault,
    symbols: Option<&Symbols<S>>,
    sink: &mut W,
) -> Result<(), WriteFault>
    ensures text { OnOk result (Appends (W.contents sink.old) (W.contents sink.new)
        (explanation (option_map (λ file. file.now) symbols.entry) program.now log.now fault)) }
    ensures begun { AppendsBeginning (explanation (option_map (λ file. file.now) symbols.entry) program.now log.now fault)
        (W.contents sink.old) (W.contents sink.new) }
    ensures fault { IfErr result (λ fault. fault ≡ WriteFault.Write) }
{
    let Some(event) = at_row(log, fault.row) else {
        return Ok(());
    };
    let before = at_row(log, fault.row.saturating_sub(1));
    explain_row(program, before, &event, fault, symbols, sink)
}

/// Writes what [`explain`] writes of a fault of a log, of which the caller has two events: the one at the fault's row,
/// and the one at the row before, if there is one. So the fault of a log whose events come piece by piece is explained.
///
/// The text depends on the program, the two events, the reason and the symbols alone. The only fault is [`WriteFault::Write`]: the
/// writer failed, and what was written is a prefix of the text. The call allocates nothing, and does not flush the
/// writer.
pub fn explain_row<S: Allocator, W: Write>(
    program: &ProgramOver,
    before: Option<Event>,
    event: &Event,
    fault: PathFault,
    symbols: Option<&Symbols<S>>,
    sink: &mut W,
) -> Result<(), WriteFault>
    ensures text { (log : List AnyEvent) → StandsAt log fault.row before event.now →
        OnOk result (Appends (W.contents sink.old) (W.contents sink.new)
        (explanation (option_map (λ file. file.now) symbols.entry) program.now log fault)) }
    ensures begun { (log : List AnyEvent) → StandsAt log fault.row before event.now →
        AppendsBeginning (explanation (option_map (λ file. file.now) symbols.entry) program.now log fault)
        (W.contents sink.old) (W.contents sink.new) }
    ensures fault { IfErr result (λ fault. fault ≡ WriteFault.Write) }
    // What is written of any two events.
    ensures line { OnOk result (Appends (W.contents sink.old) (W.contents sink.new)
        (explained (option_map (λ file. file.now) symbols.entry) program.now before (Some event.now) fault.why)) }
    ensures line_begun { AppendsBeginning
        (explained (option_map (λ file. file.now) symbols.entry) program.now before (Some event.now) fault.why)
        (W.contents sink.old) (W.contents sink.new) }
{
    let line = EventLine {
        program,
        before,
        event: *event,
        why: fault.why,
    };
    write_event_line(&line, symbols, sink)
}

/// Writes the line of an event, and the one below it, if there is one.
fn write_event_line<S: Allocator, W: Write>(
    line: &EventLine<'_>,
    symbols: Option<&Symbols<S>>,
    sink: &mut W,
) -> Result<(), WriteFault>
    ensures text { OnOk result (Appends (W.contents sink.old) (W.contents sink.new)
        (explained (option_map (λ file. file.now) symbols.entry) line.now.program.now line.now.before
        (Some line.now.event) line.now.why)) }
    ensures begun { AppendsBeginning (explained (option_map (λ file. file.now) symbols.entry) line.now.program.now
        line.now.before (Some line.now.event) line.now.why) (W.contents sink.old) (W.contents sink.new) }
    ensures fault { IfErr result (λ fault. fault ≡ WriteFault.Write) }
{
    write_text(sink, format_args!("  {line}"))?;
    write_name(symbols, line.event.place(), sink)?;
    let below = ElfLine(line.program);
    write_text(sink, format_args!("\n{below}"))?;
    Ok(())
}
