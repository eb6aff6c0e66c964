//! Writing the log of a hart.

ghost use Rattle.std.specs.Prelude.{◌≡◌, ◌<◌, [], Err, OnOk, vec_capacity};
ghost use Rattle.rvclass.specs.Fetch.{words_of};
ghost use Rattle.stimulus.specs.Walked.{HasWalked};
ghost use Rattle.stimulus.specs.Written.{BeginsLog, WritesLog};
ghost use Rattle.stimulus.specs.declared.walk.Walk.{Walk};
ghost use Rattle.stimulus.specs.steps.Rows.{AddsRows, BeginsRows};

use crate::hart::Hart;
use crate::mix::Mix;
use crate::walk::Extent;
use retire::{LOG_ROOM, WriteFault, begin_log_in, end_log_in, write_rows_in};
use rvclass::ProgramOver;
use std::alloc::Allocator;
use std::io::Write;

/// What a log is made of.
#[derive(Clone, Copy)]
pub struct Log {
    /// What the program does, and how the hart behaves.
    pub mix: Mix,
    /// What all draws are decided by.
    pub seed: u64,
    /// The hart's number.
    pub hart: u16,
    /// How many rows there are.
    pub events: u32,
}

/// Writes the log of a hart that runs the program: the line of the header, and as many rows as are asked for.
///
/// The rows are written through a buffer of 64 kB, and no list holds the events. Where the writer fails, what was
/// written is a prefix of the text; where allocation fails, nothing is written. The writer is not flushed.
pub fn write_log<A: Allocator, W: Write>(
    alloc: A,
    program: &ProgramOver,
    asked: &Log,
    sink: &mut W,
) -> Result<(), WriteFault>
    ensures written { OnOk result (WritesLog program.now asked.now (W.contents sink.old) (W.contents sink.new)) }
    ensures begun { BeginsLog program.now asked.now (W.contents sink.old) (W.contents sink.new) }
    ensures untouched { result ≡ Err WriteFault.Memory → sink.new ≡ sink.old }
{
    let extent = Extent::of(program);
    let mut room = Vec::with_capacity(alloc, LOG_ROOM)?;
    let mut hart = Hart::within(extent, asked.mix, asked.seed, asked.hart);
    begin_log_in(&mut room)?;
    write_events(program, &mut hart, asked.events, &mut room, sink)?;
    end_log_in(&mut room, sink)
}

/// Goes on with the rows of the first events, so many, of a hart that has given none.
fn write_events<A: Allocator, W: Write>(
    program: &ProgramOver,
    hart: &mut Hart,
    events: u32,
    room: &mut Vec<u8, A>,
    sink: &mut W,
) -> Result<(), WriteFault>
    ensures rows { (start : Walk) → HasWalked (words_of program.now) start [] hart.old
        → OnOk result (AddsRows (words_of program.now) start events room.old.items room.new.items
        (W.contents sink.old) (W.contents sink.new)) }
    ensures begun { (start : Walk) → HasWalked (words_of program.now) start [] hart.old
        → BeginsRows (words_of program.now) start events room.old.items (W.contents sink.old) (W.contents sink.new) }
    ensures memory { result ≡ Err WriteFault.Memory → vec_capacity room.old < LOG_ROOM }
{
    for _ in 0..events {
        let Some(event) = hart.next_event(program) else {
            return Ok(());
        };
        let next = [event];
        write_rows_in(room, sink, &next)?;
    }
    Ok(())
}
