//! Checking one event, by what the event before allows.

ghost use Rattle.std.specs.Prelude.{◌≡◌, ◌↔◌, ◌+◌, ◌^◌, ◌<◌, ◌≤◌, IfOk, IsTrue};
ghost use Rattle.retire.specs.Is64Bit.{Is64Bit};
ghost use Rattle.rvclass.specs.Fetch.{words_of};
ghost use Rattle.legalpath.specs.Allowed.{greatest_after, may_retire_at, may_stand_at};
ghost use Rattle.legalpath.specs.Right.{MayRetireAt};
ghost use Rattle.legalpath.specs.Step.{MayStandAt};
ghost use Rattle.legalpath.specs.steps.Judging as judging;

use crate::fault::Why;
use crate::next::{Next, leads};
use retire::{
    Event, ITYPE_NOT_TAKEN, ITYPE_OTHER, ITYPE_TAKEN, ITYPE_TRAP_RETURN, ITYPE_UNINFERABLE,
};
use rvclass::{Class, ProgramOver, Return};

/// What an event allows to follow it.
#[derive(Clone, Copy)]
pub struct Left {
    /// Where that may be.
    pub next: Next,
    /// The least privilege that it may have.
    pub least: u8,
    /// The greatest privilege that it may have, at most 3.
    pub greatest: u8,
}

/// What is allowed to be the first event of a log.
#[inline]
pub fn left_at_start() -> Left
    ensures { result ≡ judging.left_at_start }
{
    Left {
        next: Next::Any,
        least: 0,
        greatest: 3,
    }
}

/// Checks an event by `left`: what the event before allows to follow it. Returns what this event allows to follow it,
/// or the first reason why it is illegal.
#[inline]
pub fn judge(program: &ProgramOver, left: Left, event: &Event) -> Result<Left, Why>
    requires { left.greatest ≤ 3 }
    ensures value { result ≡ judging.judge (words_of program.now) left event.now }
    ensures below { IfOk result (λ next. next.greatest ≤ 3) }
    ensures numbers { Is64Bit event.now }
{
    match *event {
        Event::Retire {
            addr,
            itype,
            privilege,
        } => judge_retirement(program, left, addr, itype, privilege),
        Event::Trap {
            epc,
            privilege,
            interrupt,
            cause,
            tval,
        } => judge_trap(left, epc, privilege, interrupt, cause, tval),
    }
}

/// Checks a retirement.
#[inline]
fn judge_retirement(
    program: &ProgramOver,
    left: Left,
    addr: u64,
    itype: u8,
    privilege: u8,
) -> Result<Left, Why>
    requires { left.greatest ≤ 3 }
    ensures value { result
        ≡ judging.judge_retirement left addr itype privilege (words_of program.now addr) }
    ensures below { IfOk result (λ next. next.greatest ≤ 3) }
{
    let Some((class, length)) = program.at(addr) else {
        return Err(Why::OffProgram);
    };
    // This comes before the tests, so that the class is looked at only once.
    let leaves = Left {
        next: leads(addr, itype, class, length),
        least: least_after(class, privilege),
        greatest: greatest_after(class, privilege),
    };
    if matches!(class, Class::NotRetirable) {
        return Err(Why::NotRetirable);
    }
    if !is_type_of(class, itype) {
        return Err(Why::WrongType);
    }
    if !may_stand_at(left.next, addr) {
        return Err(Why::WrongNext);
    }
    if !may_retire_at(class, privilege) || !was_left(left, privilege) {
        return Err(Why::WrongPrivilege);
    }
    Ok(leaves)
}

/// Checks a trap.
#[inline]
fn judge_trap(
    left: Left,
    epc: u64,
    privilege: u8,
    interrupt: bool,
    cause: u8,
    tval: u64,
) -> Result<Left, Why>
    requires { left.greatest ≤ 3 }
    ensures value { result ≡ judging.judge_trap left epc privilege interrupt cause tval }
    ensures below { IfOk result (λ next. next.greatest ≤ 3) }
{
    if cause > 63 || interrupt && tval != 0 {
        return Err(Why::WrongType);
    }
    if !was_left(left, privilege) {
        return Err(Why::WrongPrivilege);
    }
    if !epc.is_multiple_of(2) || !may_stand_at(left.next, epc) {
        return Err(Why::WrongEpc);
    }
    Ok(Left {
        next: Next::Any,
        least: privilege.max(1),
        greatest: 3,
    })
}

/// Whether a retirement of this class has this type.
#[inline]
fn is_type_of(class: Class, itype: u8) -> bool
    ensures { result ≡ judging.is_type_of class itype }
{
    match class {
        Class::Plain | Class::Jump(_) => itype == ITYPE_OTHER,
        Class::Branch(_) => itype == ITYPE_NOT_TAKEN || itype == ITYPE_TAKEN,
        Class::Uninferable => itype == ITYPE_UNINFERABLE,
        Class::TrapReturn(_) => itype == ITYPE_TRAP_RETURN,
        Class::NotRetirable => false,
    }
}

/// Whether an event may be at this place, by where the event before leads. The place of a trap is its exception program
/// counter.
#[inline]
pub fn may_stand_at(next: Next, at: u64) -> bool
    ensures value { result ≡ may_stand_at next at }
    ensures stands { IsTrue result ↔ MayStandAt next at }
{
    match next {
        Next::One(to) => at == to,
        Next::Any => true,
        Next::NoneInside => false,
    }
}

/// Whether an instruction of this class may retire at this privilege: MRET at machine level alone, SRET not at user
/// level, and any other at each.
#[inline]
pub fn may_retire_at(class: Class, privilege: u8) -> bool
    ensures value { result ≡ may_retire_at class privilege }
    ensures retires { IsTrue result ↔ MayRetireAt class privilege }
{
    match class {
        Class::TrapReturn(Return::Mret) => privilege == 3,
        Class::TrapReturn(Return::Sret) => privilege >= 1,
        _ => true,
    }
}

/// Whether a number is a privilege level, 0, 1 or 3, within the bounds that were left.
#[inline]
fn was_left(left: Left, privilege: u8) -> bool
    requires { left.greatest ≤ 3 }
    ensures { result ≡ judging.was_left left privilege }
{
    left.least <= privilege && privilege <= left.greatest && privilege != 2
}

/// The least privilege that may follow a retirement of an instruction of this class at this privilege.
#[inline]
fn least_after(class: Class, privilege: u8) -> u8
    ensures { result ≡ judging.least_after class privilege }
{
    match class {
        Class::TrapReturn(_) => 0,
        _ => privilege,
    }
}

/// The greatest privilege that may follow a retirement of an instruction of this class at this privilege: machine level
/// after MRET, supervisor level after SRET, and the same privilege after any other instruction.
#[inline]
pub fn greatest_after(class: Class, privilege: u8) -> u8
    ensures { result ≡ greatest_after class privilege }
{
    match class {
        Class::TrapReturn(Return::Mret) => 3,
        Class::TrapReturn(Return::Sret) => 1,
        _ => privilege,
    }
}
