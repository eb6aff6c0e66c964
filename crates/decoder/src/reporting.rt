//! The events that a packet reports by itself: the retirement of a synchronisation, and a trap.

ghost use Rattle.std.specs.Prelude.{◌≡◌, ◌↔◌, ◌≤◌, true, false, [], ◌∷◌, Some, IsTrue, IfOk, IfErr, OnOk};
ghost use Rattle.retire.specs.declared.event.Event.TheVariants.{Trap};
ghost use Rattle.rvclass.specs.Fetch.{words_of};
ghost use Rattle.legalpath.specs.Legal.{FollowOn};
ghost use Rattle.legalpath.specs.Step.{MayStandAfter};
ghost use Rattle.decoder.specs.steps.Faults.{IsOnTheWay};
ghost use Rattle.decoder.specs.Fits.{AfterRetirement, FitsSync};
ghost use Rattle.decoder.specs.steps.Stretches.{RightBefore, Suits, SuitsOne, SuitsNone};
ghost use Rattle.decoder.specs.steps.Stretches.{stretch_count, stretch_progress};
ghost use Rattle.decoder.specs.steps.Reporting as reporting;
ghost use Rattle.decoder.specs.steps.Walks.{event_of, IsHere};

use crate::added_events::AddedEvents;
use crate::fault::DecodeFault;
use crate::stepping::{Course, Goal, Here, may_stay, type_of};
use crate::walking::Progress;
use isa::is_privilege;
use legalpath::{Next, Why, check, leads, may_stand_at, successor};
use payload::Outcomes;
use retire::Event;
use rvclass::ProgramOver;

/// The fault of decoding where an event is illegal for this reason.
fn fault_of(why: Why) -> DecodeFault
    ensures { result ≡ reporting.fault_of why }
{
    match why {
        Why::OffProgram | Why::NotRetirable => DecodeFault::OffProgram,
        Why::WrongType => DecodeFault::Branches,
        Why::WrongNext | Why::WrongEpc => DecodeFault::WrongPlace,
        Why::WrongPrivilege => DecodeFault::WrongPrivilege,
    }
}

/// Tests that an event is right by itself and may follow the one before.
fn follows(program: &ProgramOver, before: Option<Event>, event: Event) -> Result<(), DecodeFault>
    ensures ok { OnOk result (FollowOn (words_of program.now) before (event ∷ [])) }
    ensures err { IfErr result (λ fault. IsOnTheWay fault
        × (RightBefore (words_of program.now) before → FollowOn (words_of program.now) before (event ∷ []) → ⊥)) }
{
    let checked = match before {
        None => check(program, &[event]),
        Some(before) => check(program, &[before, event]),
    };
    match checked {
        Ok(()) => Ok(()),
        Err(fault) => Err(fault_of(fault.why)),
    }
}

/// The retirement that a walk starts from: the event before it.
#[inline]
pub fn start(program: &ProgramOver, before: &Option<Event>) -> Result<Here, DecodeFault>
    ensures here { IfOk result (λ here. IsHere (words_of program.now) here × (before.now ≡ Some (event_of here))) }
    ensures none { IfErr result (λ fault. IsOnTheWay fault
        × (RightBefore (words_of program.now) before.now → AfterRetirement before.now → ⊥)) }
{
    let Some(event) = before else {
        return Err(DecodeFault::WrongPlace);
    };
    let Event::Retire {
        addr,
        itype,
        privilege,
    } = *event
    else {
        return Err(DecodeFault::WrongPlace);
    };
    if !is_privilege(u64::from(privilege)) {
        return Err(DecodeFault::WrongPrivilege);
    }
    let Some((class, length)) = program.at(addr) else {
        return Err(DecodeFault::OffProgram);
    };
    Ok(Here {
        addr,
        itype,
        privilege,
        next: leads(addr, itype, class, length),
        stays: may_stay(class, privilege),
    })
}

/// What a packet reports of the event at its address.
#[derive(Clone, Copy)]
pub struct Reported {
    /// Whether it is a taken branch.
    pub taken: bool,
    /// Its privilege.
    pub privilege: u8,
    /// Its address.
    pub addr: u64,
}

impl Reported {
    /// What a packet with these fields reports.
    pub fn new(taken: bool, privilege: u8, addr: u64) -> Reported
        ensures { result ≡ record { taken = taken; privilege = privilege; addr = addr } }
    {
        Reported {
            taken,
            privilege,
            addr,
        }
    }
}

/// What a packet reports of why a trap was taken.
#[derive(Clone, Copy)]
pub struct Cause {
    /// Whether it was an interrupt.
    pub interrupt: bool,
    /// The cause's code.
    pub cause: u8,
    /// The trap value.
    pub tval: u64,
}

impl Cause {
    /// The cause that a packet with these fields reports.
    pub fn new(interrupt: bool, cause: u8, tval: u64) -> Cause
        ensures { result ≡ record { interrupt = interrupt; cause = cause; tval = tval } }
    {
        Cause {
            interrupt,
            cause,
            tval,
        }
    }

    /// The trap that was taken for this cause at an exception program counter, from a privilege.
    fn trap(self, epc: u64, privilege: u8) -> Event
        ensures { result ≡ Trap privilege self.interrupt self.cause epc self.tval }
    {
        Event::Trap {
            epc,
            privilege,
            interrupt: self.interrupt,
            cause: self.cause,
            tval: self.tval,
        }
    }
}

/// The retirement that a packet reports, by the instruction at its address. The packet reports one outcome, which a
/// branch uses. If the outcome is taken, the instruction has to be a branch.
fn retirement(program: &ProgramOver, reported: Reported) -> Result<Event, DecodeFault>
    ensures { result ≡ reporting.retirement_with_type reported.addr reported.privilege
        (reporting.type_at (words_of program.now reported.addr) reported.taken) }
{
    let Some((class, _)) = program.at(reported.addr) else {
        return Err(DecodeFault::OffProgram);
    };
    let mut outcomes = Outcomes::new();
    outcomes.push(reported.taken);
    let mut used = 0;
    let course = Course::new(&outcomes, Goal::Address(reported.addr));
    let Ok(itype) = type_of(class, &mut used, &course) else {
        return Err(DecodeFault::OffProgram);
    };
    if reported.taken && used == 0 {
        return Err(DecodeFault::Branches);
    }
    Ok(Event::Retire {
        addr: reported.addr,
        itype,
        privilege: reported.privilege,
    })
}

/// The retirement that a packet reports, after the event before.
pub fn reported_retirement(
    program: &ProgramOver,
    before: Option<Event>,
    reported: Reported,
) -> Result<Event, DecodeFault>
    ensures found { IfOk result (λ event. SuitsOne (words_of program.now) before
        (FitsSync reported.taken reported.privilege reported.addr) (event ∷ [])) }
    ensures none { IfErr result (λ fault. SuitsNone (words_of program.now) before
        (FitsSync reported.taken reported.privilege reported.addr) fault) }
{
    let event = retirement(program, reported)?;
    follows(program, before, event)?;
    Ok(event)
}

/// Whether an event may be at a place, after the event before.
fn may_stand(program: &ProgramOver, before: Option<Event>, at: u64) -> bool
    ensures { IsTrue result ↔ MayStandAfter (words_of program.now) before at }
{
    match before {
        None => true,
        Some(event) => may_stand_at(successor(program, &event), at),
    }
}

/// The trap that a packet reports without its handler, after the event before.
fn trap_alone(
    program: &ProgramOver,
    before: Option<Event>,
    reported: Reported,
    cause: Cause,
) -> Result<AddedEvents, DecodeFault>
    ensures found { IfOk result (λ stretch. Suits (words_of program.now) before
        (reporting.FitsReported (words_of program.now) before reported cause false) stretch) }
    ensures none { IfErr result (λ fault. SuitsNone (words_of program.now) before
        (reporting.FitsReported (words_of program.now) before reported cause false) fault) }
    ensures short { IfOk result (λ stretch. stretch_count stretch ≤ 2) }
    ensures pending { IfOk result (λ stretch. stretch_progress stretch ≡ Progress.Pending) }
{
    if reported.taken {
        return Err(DecodeFault::Branches);
    }
    if !may_stand(program, before, reported.addr) {
        return Err(DecodeFault::WrongPlace);
    }
    let trap = cause.trap(reported.addr, reported.privilege);
    follows(program, before, trap)?;
    Ok(AddedEvents::One(trap))
}

/// The trap of a packet that reports its handler, after the event before: it was taken where that event leads.
fn trap_handled(
    program: &ProgramOver,
    before: Option<Event>,
    cause: Cause,
) -> Result<Event, DecodeFault>
    ensures found { IfOk result (λ trap. SuitsOne (words_of program.now) before
        (reporting.IsHandled (words_of program.now) before cause) (trap ∷ [])) }
    ensures none { IfErr result (λ fault. SuitsNone (words_of program.now) before
        (reporting.IsHandled (words_of program.now) before cause) fault) }
{
    let Some(event) = before else {
        return Err(DecodeFault::WrongPlace);
    };
    let Event::Retire { privilege, .. } = event else {
        return Err(DecodeFault::WrongPlace);
    };
    let Next::One(epc) = successor(program, &event) else {
        return Err(DecodeFault::WrongPlace);
    };
    let trap = cause.trap(epc, privilege);
    follows(program, before, trap)?;
    Ok(trap)
}

/// The trap and the first retirement of its handler that a packet reports, after the event before.
fn trap_and_handler(
    program: &ProgramOver,
    before: Option<Event>,
    reported: Reported,
    cause: Cause,
) -> Result<AddedEvents, DecodeFault>
    ensures found { IfOk result (λ stretch. Suits (words_of program.now) before
        (reporting.FitsReported (words_of program.now) before reported cause true) stretch) }
    ensures none { IfErr result (λ fault. SuitsNone (words_of program.now) before
        (reporting.FitsReported (words_of program.now) before reported cause true) fault) }
    ensures short { IfOk result (λ stretch. stretch_count stretch ≤ 2) }
    ensures pending { IfOk result (λ stretch. stretch_progress stretch ≡ Progress.Pending) }
{
    let trap = trap_handled(program, before, cause)?;
    let event = reported_retirement(program, Some(trap), reported)?;
    Ok(AddedEvents::Two(trap, event))
}

/// The events of a trap that a packet reports with its handler's address, or without, after the event before.
pub fn trap(
    program: &ProgramOver,
    before: &Option<Event>,
    reported: Reported,
    cause: Cause,
    handler: bool,
    stretch: &mut AddedEvents,
) -> Result<(), DecodeFault>
    ensures found { OnOk result (Suits (words_of program.now) before.now
        (reporting.FitsReported (words_of program.now) before.now reported cause handler) stretch.new) }
    ensures none { IfErr result (λ fault. SuitsNone (words_of program.now) before.now
        (reporting.FitsReported (words_of program.now) before.now reported cause handler) fault) }
    ensures short { OnOk result (stretch_count stretch.new ≤ 2) }
    ensures pending { OnOk result (stretch_progress stretch.new ≡ Progress.Pending) }
{
    let found = if handler {
        trap_and_handler(program, *before, reported, cause)
    } else {
        trap_alone(program, *before, reported, cause)
    };
    *stretch = found?;
    Ok(())
}
