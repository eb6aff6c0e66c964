//! Writing a capture in which the messages of many harts are mixed.

ghost use Rattle.std.specs.Prelude.{ℕ, ◌≡◌, ◌≤◌, ◌<◌, ◌*◌, ◌/◌, ◌+◌, Err, IfOk, OnOk, length, min};
ghost use Rattle.output.specs.Begun.{AppendsBeginning};
ghost use Rattle.rvclass.specs.Fetch.{words_of};
ghost use Rattle.rvclass.specs.Image.{IsImage};
ghost use Rattle.rvclass.specs.Words.{Words};
ghost use Rattle.captures.specs.Versions.{MayStart};
ghost use Rattle.stimulus.specs.Mixed.{AppendsMixed, Plan, Sent, after_closing, after_turns, closes, closes_one};
ghost use Rattle.stimulus.specs.Mixed.{ending_of, first_order, goes, has_turn, header_of, mixed_capture, none_sent, plan_of};
ghost use Rattle.stimulus.specs.Order.{drawn_of};
ghost use Rattle.stimulus.specs.steps.Sending.{AllBegun, AllSend, AreSent, IsClosed};

use crate::mix::Mix;
use crate::order::{Bursts, Order};
use crate::sender::Sender;
use crate::walk::Extent;
use captures::write_start;
use message::{MessageFault, Version};
use payload::Mode;
use retire::WriteFault;
use rvclass::ProgramOver;
use std::alloc::{AllocError, Allocator};
use std::io::Write;

/// What a capture is made of.
#[derive(Clone, Copy)]
pub struct Capture {
    /// What the program does, and how the harts behave.
    pub mix: Mix,
    /// What all draws are decided by.
    pub seed: u64,
    /// How many harts there are, 1 to 1024, or to 64 in version 1.
    pub harts: u16,
    /// How many messages there are, but for those that close the traces.
    pub messages: u64,
    /// How many retirements come between two periodic synchronisations, 1 at least.
    pub period: u16,
    /// What the address fields hold.
    pub mode: Mode,
    /// The version of the format.
    pub version: Version,
    /// How many messages of one hart come one after another at most.
    pub burst: u32,
}

/// Writes a capture of harts that run the program, whose messages are mixed as a path sees them: in bursts of one hart,
/// harts of different weights, and some that close their traces before the others.
///
/// `messages` steps are drawn, and in each a hart sends one message; a hart with no event left sends none. A hart runs
/// just as many events as its messages need. When a trace closes, up to two messages come that are not counted. Memory
/// is taken for what each hart keeps, and no list grows with the run. Where the writer fails, what was written is a
/// prefix of the capture; where allocation fails, nothing is written. The writer is not flushed.
pub fn write_capture<A: Allocator + Copy, W: Write>(
    alloc: A,
    program: &ProgramOver,
    asked: &Capture,
    sink: &mut W,
) -> Result<(), WriteFault>
    requires period { 1 ≤ asked.now.period }
    requires start { MayStart asked.now.version (header_of asked.now) }
    ensures capture { OnOk result (AppendsMixed program.now asked.now (W.contents sink.old) (W.contents sink.new)) }
    ensures begun { AppendsBeginning (mixed_capture program.now asked.now) (W.contents sink.old) (W.contents sink.new) }
    ensures untouched { result ≡ Err WriteFault.Memory → sink.new ≡ sink.old }
{
    let mut senders = senders_of(alloc, program, asked)?;
    let mut order = Order::new(alloc, asked.seed, asked.harts, bursts_of(asked))?;
    match write_messages(program, asked, &mut senders, &mut order, sink) {
        Ok(()) => Ok(()),
        Err(_) => Err(WriteFault::Write),
    }
}

/// How the turns of a capture are drawn. An end comes after about as many messages as a hart sends on average, and half
/// of the harts may end their traces before the last turn.
fn bursts_of(asked: &Capture) -> Bursts
    ensures longest { result.longest ≡ asked.now.burst }
    ensures ending { result.ending ≡ ending_of asked.now }
    ensures ends { result.ends ≡ asked.now.harts / 2 }
{
    let turns = u64::from(asked.harts) * (u64::from(asked.burst) + 1) / 2;
    let ending = (asked.messages / turns.max(1))
        .min(u64::from(u32::MAX))
        .max(1);
    Bursts {
        longest: asked.burst,
        ending: ending as u32,
        ends: asked.harts / 2,
    }
}

/// The harts, none of which sent a message.
fn senders_of<A: Allocator>(
    alloc: A,
    program: &ProgramOver,
    asked: &Capture,
) -> Result<Vec<Sender, A>, AllocError>
    requires { 1 ≤ asked.now.period }
    ensures senders { (words : Words) → IfOk result (λ senders.
        AreSent words (plan_of program.now asked.now) (none_sent asked.now.harts) senders.items) }
    ensures image { IsImage program.now }
{
    let extent = Extent::of(program);
    let mut senders = Vec::new(alloc);
    for hart in 0..asked.harts {
        senders.push(Sender::new(extent, asked, hart))?;
    }
    Ok(senders)
}

/// Writes the header and the messages of harts that sent none.
fn write_messages<A: Allocator, W: Write>(
    program: &ProgramOver,
    asked: &Capture,
    senders: &mut Vec<Sender, A>,
    order: &mut Order<A>,
    sink: &mut W,
) -> Result<(), MessageFault>
    requires start { MayStart asked.now.version (header_of asked.now) }
    requires image { IsImage program.now }
    requires none { AreSent (words_of program.now) (plan_of program.now asked.now) (none_sent asked.now.harts)
        senders.old.items }
    requires first { drawn_of order.old ≡ first_order asked.now }
    ensures capture { OnOk result (AppendsMixed program.now asked.now (W.contents sink.old) (W.contents sink.new)) }
    ensures begun { AppendsBeginning (mixed_capture program.now asked.now) (W.contents sink.old) (W.contents sink.new) }
{
    write_start(
        sink,
        asked.version,
        asked.period,
        asked.mode,
        usize::from(asked.harts),
    )?;
    send_mixed(program, asked.messages, senders, order, sink)?;
    finish_all(program, senders, sink)
}

/// Sends messages of harts as they are drawn, so many.
fn send_mixed<A: Allocator, W: Write>(
    program: &ProgramOver,
    count: u64,
    senders: &mut Vec<Sender, A>,
    order: &mut Order<A>,
    sink: &mut W,
) -> Result<(), MessageFault>
    ensures sent { (plan : Plan) (sent : Sent) → AreSent (words_of program.now) plan sent senders.old.items
        → OnOk result (AllSend (words_of program.now) plan sent
        (after_turns (words_of program.now) plan (sent, drawn_of order.old) count).0 senders.new.items
        (W.contents sink.old) (W.contents sink.new)) }
    ensures begun { (plan : Plan) (sent : Sent) → AreSent (words_of program.now) plan sent senders.old.items
        → AllBegun sent (after_turns (words_of program.now) plan (sent, drawn_of order.old) count).0
        (W.contents sink.old) (W.contents sink.new) }
{
    for _ in 0..count {
        let turn = order.next();
        finish_one(program, senders, turn.closing, sink)?;
        send_one(program, senders, turn.hart, sink)?;
    }
    Ok(())
}

/// Sends a message of the hart of this number, if there is one.
fn send_one<A: Allocator, W: Write>(
    program: &ProgramOver,
    senders: &mut Vec<Sender, A>,
    hart: u16,
    sink: &mut W,
) -> Result<(), MessageFault>
    ensures sent { (plan : Plan) (sent : Sent) → AreSent (words_of program.now) plan sent senders.old.items
        → OnOk result (AllSend (words_of program.now) plan sent
        (goes (words_of program.now) plan has_turn hart sent) senders.new.items
        (W.contents sink.old) (W.contents sink.new)) }
    ensures begun { (plan : Plan) (sent : Sent) → AreSent (words_of program.now) plan sent senders.old.items
        → AllBegun sent (goes (words_of program.now) plan has_turn hart sent)
        (W.contents sink.old) (W.contents sink.new) }
{
    let place = usize::from(hart);
    if place >= senders.len() {
        return Ok(());
    }
    senders[place].send(program, sink)
}

/// Closes the trace of a hart, if one is given and there is such a hart.
fn finish_one<A: Allocator, W: Write>(
    program: &ProgramOver,
    senders: &mut Vec<Sender, A>,
    hart: Option<u16>,
    sink: &mut W,
) -> Result<(), MessageFault>
    ensures sent { (plan : Plan) (sent : Sent) → AreSent (words_of program.now) plan sent senders.old.items
        → OnOk result (AllSend (words_of program.now) plan sent
        (closes_one (words_of program.now) plan hart sent) senders.new.items
        (W.contents sink.old) (W.contents sink.new)) }
    ensures begun { (plan : Plan) (sent : Sent) → AreSent (words_of program.now) plan sent senders.old.items
        → AllBegun sent (closes_one (words_of program.now) plan hart sent)
        (W.contents sink.old) (W.contents sink.new) }
{
    let Some(hart) = hart else {
        return Ok(());
    };
    let place = usize::from(hart);
    if place >= senders.len() {
        return Ok(());
    }
    finish_at(program, senders, place, sink)
}

/// Closes the trace of the hart of this number.
fn finish_at<A: Allocator, W: Write>(
    program: &ProgramOver,
    senders: &mut Vec<Sender, A>,
    place: usize,
    sink: &mut W,
) -> Result<(), MessageFault>
    requires { place < length senders.old.items }
    ensures sent { (plan : Plan) (sent : Sent) → AreSent (words_of program.now) plan sent senders.old.items
        → OnOk result (AllSend (words_of program.now) plan sent
        (goes (words_of program.now) plan closes place sent) senders.new.items
        (W.contents sink.old) (W.contents sink.new)) }
    ensures begun { (plan : Plan) (sent : Sent) → AreSent (words_of program.now) plan sent senders.old.items
        → AllBegun sent (goes (words_of program.now) plan closes place sent)
        (W.contents sink.old) (W.contents sink.new) }
    ensures closed { OnOk result (IsClosed place senders.new.items) }
    ensures others { (other : ℕ) → IsClosed other senders.old.items → OnOk result (IsClosed other senders.new.items) }
    ensures count { length senders.new.items ≡ length senders.old.items }
{
    senders[place].finish(program, sink)
}

/// Closes the traces of all harts.
fn finish_all<A: Allocator, W: Write>(
    program: &ProgramOver,
    senders: &mut Vec<Sender, A>,
    sink: &mut W,
) -> Result<(), MessageFault>
    ensures sent { (plan : Plan) (sent : Sent) → AreSent (words_of program.now) plan sent senders.old.items
        → OnOk result (AllSend (words_of program.now) plan sent
        (after_closing (words_of program.now) plan sent (length senders.old.items)) senders.new.items
        (W.contents sink.old) (W.contents sink.new)) }
    ensures begun { (plan : Plan) (sent : Sent) → AreSent (words_of program.now) plan sent senders.old.items
        → AllBegun sent (after_closing (words_of program.now) plan sent (length senders.old.items))
        (W.contents sink.old) (W.contents sink.new) }
    ensures closed { (hart : ℕ) → hart < length senders.new.items
        → OnOk result (IsClosed hart senders.new.items) }
{
    for place in 0..senders.len() {
        finish_at(program, senders, place, sink)?;
    }
    Ok(())
}
