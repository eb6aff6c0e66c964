//! The events that each packet adds, after the event before and the last reported address.

ghost use Rattle.std.specs.Prelude.{◌≡◌, ◌+◌, ◌*◌, ◌/◌, ◌≤◌, None, Some, IfErr, OnOk};
ghost use Rattle.rvclass.specs.Memory.{byte_count};
ghost use Rattle.rvclass.specs.Fetch.{words_of};
ghost use Rattle.decoder.specs.Fits.{Fits, FitsAddress, FitsSync};
ghost use Rattle.decoder.specs.steps.Stretches.{AddsSoFar, IsGrown, Suits, SuitsNone, stretch_count, stretch_progress};
ghost use Rattle.decoder.specs.Settling.{makes_explicit, settled, settled_by};
ghost use Rattle.decoder.specs.Walk.{IsWalkFrom};
ghost use Rattle.decoder.specs.steps.Walks.{goal_end};

use crate::added_events::AddedEvents;
use crate::fault::DecodeFault;
use crate::paths::Paths;
use crate::reporting::{Cause, Reported, reported_retirement, start, trap};
use crate::stepping::Goal;
use crate::walking::{Progress, measure, write_found};
use payload::{Mode, Outcomes, Packet, Report, Support};
use retire::Event;
use rvclass::ProgramOver;
use std::alloc::Allocator;

/// An address packet with plain bits, which waits for the packet that follows it.
#[derive(Clone, Copy, PartialEq, Eq)]
pub struct Waiting {
    /// The outcomes of its branches.
    pub outcomes: Outcomes,
    /// What its address field holds, by the mode of the trace: a difference modulo 2^64, or an address.
    pub delta: u64,
}

/// The walk of these outcomes to this goal, after the event before.
#[inline(never)]
fn walk<A: Allocator>(
    paths: Paths,
    before: &Option<Event>,
    outcomes: &Outcomes,
    goal: Goal,
    ahead: Progress,
    stretch: &mut AddedEvents,
    log: &mut Vec<Event, A>,
) -> Result<(), DecodeFault>
    ensures found { OnOk result (Suits (words_of paths.entry.program.now) before.now
        (IsWalkFrom (words_of paths.entry.program.now) before.now outcomes.now (goal_end goal)) stretch.new) }
    ensures none { IfErr result (λ fault. SuitsNone (words_of paths.entry.program.now) before.now
        (IsWalkFrom (words_of paths.entry.program.now) before.now outcomes.now (goal_end goal)) fault) }
    ensures short { OnOk result (stretch_count stretch.new ≤ 32 * (byte_count paths.entry.program.now / 2)) }
    ensures written { OnOk result (AddsSoFar (words_of paths.entry.program.now) ahead stretch.new log.old.items
        log.new.items) }
    ensures grown { IsGrown log.old log.new }
{
    let from = start(paths.program, before)?;
    match ahead {
        Progress::Written => {
            if let Some(walked) = write_found(paths, from, outcomes, goal, log)? {
                *stretch = AddedEvents::walk(from, outcomes, goal, walked);
                return Ok(());
            }
        }
        Progress::Pending => {}
    }
    let walked = measure(paths, from, outcomes, goal)?;
    *stretch = AddedEvents::walk(from, outcomes, goal, walked);
    Ok(())
}

/// Whether an address packet with plain bits is explicit where this packet follows it.
fn makes_explicit(packet: &Packet) -> bool
    ensures { result ≡ makes_explicit packet.now }
{
    matches!(
        packet,
        Packet::Sync { .. } | Packet::Trap { .. } | Packet::Support(Support::EndedRep)
    )
}

/// The events of a packet that waits, with these outcomes and this address. The packet that follows settles it.
#[inline(always)]
pub fn settle<A: Allocator>(
    paths: Paths,
    before: &Option<Event>,
    outcomes: &Outcomes,
    addr: u64,
    packet: &Packet,
    stretch: &mut AddedEvents,
    log: &mut Vec<Event, A>,
) -> Result<(), DecodeFault>
    ensures found { OnOk result (Suits (words_of paths.entry.program.now) before.now
        (FitsAddress (words_of paths.entry.program.now) before.now outcomes.now addr (settled_by (Some packet.now)))
        stretch.new) }
    ensures none { IfErr result (λ fault. SuitsNone (words_of paths.entry.program.now) before.now
        (FitsAddress (words_of paths.entry.program.now) before.now outcomes.now addr (settled_by (Some packet.now)))
        fault) }
    ensures short { OnOk result (stretch_count stretch.new ≤ 32 * (byte_count paths.entry.program.now / 2)) }
    ensures written { OnOk result (AddsSoFar (words_of paths.entry.program.now) Progress.Written stretch.new
        log.old.items log.new.items) }
    ensures grown { IsGrown log.old log.new }
{
    let goal = if makes_explicit(packet) {
        Goal::Address(addr)
    } else {
        Goal::Target(addr)
    };
    walk(
        paths,
        before,
        outcomes,
        goal,
        Progress::Written,
        stretch,
        log,
    )
}

/// The events of an address packet at its address, as long as no packet follows.
#[inline]
fn address<A: Allocator>(
    paths: Paths,
    before: &Option<Event>,
    outcomes: &Outcomes,
    addr: u64,
    report: Report,
    ahead: Progress,
    stretch: &mut AddedEvents,
    log: &mut Vec<Event, A>,
) -> Result<(), DecodeFault>
    ensures found { OnOk result (Suits (words_of paths.entry.program.now) before.now
        (FitsAddress (words_of paths.entry.program.now) before.now outcomes.now addr (settled report None))
        stretch.new) }
    ensures none { IfErr result (λ fault. SuitsNone (words_of paths.entry.program.now) before.now
        (FitsAddress (words_of paths.entry.program.now) before.now outcomes.now addr (settled report None)) fault) }
    ensures short { OnOk result (stretch_count stretch.new ≤ 32 * (byte_count paths.entry.program.now / 2)) }
    ensures written { OnOk result (AddsSoFar (words_of paths.entry.program.now) ahead stretch.new log.old.items
        log.new.items) }
    ensures grown { IsGrown log.old log.new }
{
    match report {
        Report::Plain => match before {
            Some(Event::Retire { .. }) => {
                *stretch = AddedEvents::Nothing;
                Ok(())
            }
            _ => Err(DecodeFault::WrongPlace),
        },
        Report::Updiscon => walk(
            paths,
            before,
            outcomes,
            Goal::Target(addr),
            ahead,
            stretch,
            log,
        ),
        Report::Notify => walk(
            paths,
            before,
            outcomes,
            Goal::Address(addr),
            ahead,
            stretch,
            log,
        ),
    }
}

/// The events of a synchronisation.
fn sync(
    program: &ProgramOver,
    before: &Option<Event>,
    reported: Reported,
    stretch: &mut AddedEvents,
) -> Result<(), DecodeFault>
    ensures found { OnOk result (Suits (words_of program.now) before.now
        (FitsSync reported.taken reported.privilege reported.addr) stretch.new) }
    ensures none { IfErr result (λ fault. SuitsNone (words_of program.now) before.now
        (FitsSync reported.taken reported.privilege reported.addr) fault) }
    ensures short { OnOk result (stretch_count stretch.new ≤ 2) }
    ensures pending { OnOk result (stretch_progress stretch.new ≡ Progress.Pending) }
{
    *stretch = AddedEvents::One(reported_retirement(program, *before, reported)?);
    Ok(())
}

/// The events of a packet itself in a trace of this mode, as long as no packet follows.
#[inline(always)]
pub fn events_of_packet<A: Allocator>(
    paths: Paths,
    mode: Mode,
    before: &Option<Event>,
    last_reported: u64,
    packet: &Packet,
    ahead: Progress,
    stretch: &mut AddedEvents,
    log: &mut Vec<Event, A>,
) -> Result<(), DecodeFault>
    ensures found { OnOk result (Suits (words_of paths.entry.program.now) before.now
        (Fits (words_of paths.entry.program.now) mode before.now last_reported packet.now None) stretch.new) }
    ensures none { IfErr result (λ fault. SuitsNone (words_of paths.entry.program.now) before.now
        (Fits (words_of paths.entry.program.now) mode before.now last_reported packet.now None) fault) }
    ensures short { OnOk result (stretch_count stretch.new ≤ 32 * (byte_count paths.entry.program.now / 2) + 2) }
    ensures written { OnOk result (AddsSoFar (words_of paths.entry.program.now) ahead stretch.new log.old.items
        log.new.items) }
    ensures grown { IsGrown log.old log.new }
{
    match packet {
        Packet::Sync {
            taken,
            privilege,
            address,
        } => sync(
            paths.program,
            before,
            Reported::new(*taken, *privilege, *address),
            stretch,
        ),
        Packet::Trap {
            taken,
            privilege,
            cause,
            interrupt,
            handler,
            address,
            tval,
        } => {
            let reported = Reported::new(*taken, *privilege, *address);
            let cause = Cause::new(*interrupt, *cause, *tval);
            trap(paths.program, before, reported, cause, *handler, stretch)
        }
        Packet::Support(_) => {
            *stretch = AddedEvents::Nothing;
            Ok(())
        }
        Packet::Address {
            outcomes,
            delta,
            report,
        } => {
            let addr = mode.aim(last_reported, *delta);
            address(paths, before, outcomes, addr, *report, ahead, stretch, log)
        }
        Packet::Map(outcomes) => walk(paths, before, outcomes, Goal::Branch, ahead, stretch, log),
    }
}
