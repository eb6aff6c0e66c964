//! One step of a walk: the retirement after another, and where it ends.

ghost use Rattle.std.specs.Prelude.{ℕ, ◌≡◌, ◌+◌, ◌^◌, ◌<◌, ◌≤◌, drop, length, Option, Some, IfErr};
ghost use Rattle.retire.specs.declared.event.Event.TheVariants.{Retire};
ghost use Rattle.legalpath.specs.Backward.{jumps_back};
ghost use Rattle.rvclass.specs.Fetch.{words_of};
ghost use Rattle.rvclass.specs.Words.{IsProgram, Word, Words};
ghost use Rattle.rvclass.specs.declared.class.Class.TheVariants.{Plain};
ghost use Rattle.decoder.specs.steps.Faults.{IsOnTheWay};
ghost use Rattle.decoder.specs.steps.Leads.{may_stay, may_stay_on};
ghost use Rattle.decoder.specs.steps.WalkSteps as steps;
ghost use Rattle.decoder.specs.steps.Walks.{event_of, goal_end, Carries};

use crate::fault::DecodeFault;
use legalpath::{Next, greatest_after, leads, may_retire_at};
use payload::Outcomes;
use retire::{ITYPE_NOT_TAKEN, ITYPE_OTHER, ITYPE_TAKEN, ITYPE_TRAP_RETURN, ITYPE_UNINFERABLE};
use rvclass::{Class, ProgramOver};

/// A retirement, and where it leads.
#[derive(Clone, Copy)]
pub struct Here {
    /// The instruction's address.
    pub addr: u64,
    /// Its type.
    pub itype: u8,
    /// The privilege that it retired at.
    pub privilege: u8,
    /// Where it leads.
    pub next: Next,
    /// Whether the privilege may stay after it.
    pub stays: bool,
}

/// Where a walk ends.
#[derive(Clone, Copy)]
pub enum Goal {
    /// At a branch.
    Branch,
    /// At this address.
    Address(u64),
    /// At this address, the target of the first uninferable discontinuity on the way.
    Target(u64),
}

/// What a packet reports of its walk: the outcomes of the branches, how many they are, and where it ends.
#[derive(Clone, Copy)]
pub struct Course {
    /// The outcomes, the oldest first.
    pub outcomes: Outcomes,
    /// How many they are.
    pub count: usize,
    /// Where the walk ends.
    pub goal: Goal,
}

impl Course {
    /// The course of a walk with these outcomes to this goal.
    pub fn new(outcomes: &Outcomes, goal: Goal) -> Course
        ensures course { steps.IsCourse result }
        ensures outcomes { result.outcomes ≡ outcomes.now }
        ensures goal { result.goal ≡ goal }
    {
        Course {
            outcomes: *outcomes,
            count: outcomes.len(),
            goal,
        }
    }
}

/// The result of a step of a walk.
#[derive(Clone, Copy)]
pub enum Step {
    /// It goes on from the retirement that was reached.
    Goes,
    /// It ends there.
    Ends,
    /// There is no such walk.
    Fails(DecodeFault),
}

/// Takes a step of a walk: from the retirement in `here` to the next one, which is then in `here`. `used` counts the
/// outcomes that the walk used so far. Returns whether the walk goes on or ends there, or why there is no such walk. `near`
/// is what `ProgramOver::at_near` remembers of the last lookup.
#[inline(always)]
#[tactic(auto, unfolding(crate::specs::steps::WalkSteps::advance))]
pub fn step_from(
    program: &ProgramOver,
    near: &mut usize,
    here: &mut Here,
    used: &mut usize,
    course: &Course,
) -> Step
    requires program { IsProgram (words_of program.now) }
    requires here { Carries (words_of program.now) here.old }
    requires course { steps.IsCourse course.now }
    ensures step { steps.move_of course.now.outcomes here.new used.new result
        ≡ steps.advance (words_of program.now) (event_of here.old) (drop used.old course.now.outcomes)
        (goal_end course.now.goal) }
    ensures carries { steps.StepCarries (words_of program.now) here.new result }
{
    match here.next {
        Next::One(addr) => step_on(program, near, addr, here, used, course),
        Next::Any => step_last(program, near, here, used, course),
        Next::NoneInside => Step::Fails(DecodeFault::OffProgram),
    }
}

/// The step to an address.
#[inline(always)]
fn step_on(
    program: &ProgramOver,
    near: &mut usize,
    addr: u64,
    here: &mut Here,
    used: &mut usize,
    course: &Course,
) -> Step
    requires { steps.IsCourse course.now }
    ensures step { steps.move_of course.now.outcomes here.new used.new result
        ≡ steps.next_move (words_of program.now) (goal_end course.now.goal)
        (steps.retire_on addr here.old.privilege (words_of program.now addr) (drop used.old course.now.outcomes)) }
    ensures carries { steps.StepCarries (words_of program.now) here.new result }
{
    let (class, length) = match program.at_near(near, addr) {
        None => return Step::Fails(DecodeFault::OffProgram),
        Some((Class::Plain, length)) => return step_plain(addr, length, here, *used, course),
        Some(word) => word,
    };
    let itype = match type_of(class, used, course) {
        Ok(itype) => itype,
        Err(fault) => return Step::Fails(fault),
    };
    if !may_retire_at(class, here.privilege) {
        return Step::Fails(DecodeFault::WrongPrivilege);
    }
    here.addr = addr;
    here.itype = itype;
    here.next = leads(addr, itype, class, length);
    here.stays = may_stay(class, here.privilege);
    if ends(addr, itype, *used, course) {
        Step::Ends
    } else if jumps_back(addr, class) {
        Step::Fails(DecodeFault::MissedNotify)
    } else {
        Step::Goes
    }
}

/// The step to a plain instruction. Most instructions are plain.
#[inline(always)]
fn step_plain(addr: u64, length: u8, here: &mut Here, used: usize, course: &Course) -> Step
    requires course { steps.IsCourse course.now }
    requires below { addr + length < 2 ^ 64 }
    ensures step { (words : Words) → words addr ≡ Some (Plain, length)
        → steps.move_of course.now.outcomes here.new used result
        ≡ steps.next_move words (goal_end course.now.goal)
        (steps.retire_on addr here.old.privilege (words addr) (drop used course.now.outcomes)) }
    ensures carries { (words : Words) → words addr ≡ Some (Plain, length) → steps.StepCarries words here.new result }
{
    here.addr = addr;
    here.itype = ITYPE_OTHER;
    here.next = Next::One(addr + u64::from(length));
    here.stays = true;
    if ends(addr, ITYPE_OTHER, used, course) {
        Step::Ends
    } else {
        Step::Goes
    }
}

/// The step from a discontinuity.
#[inline(always)]
fn step_last(
    program: &ProgramOver,
    near: &mut usize,
    here: &mut Here,
    used: &mut usize,
    course: &Course,
) -> Step
    requires { steps.IsCourse course.now }
    ensures step { (word : Option Word) → may_stay_on word here.old.privilege ≡ here.old.stays
        → steps.move_of course.now.outcomes here.new used.new result
        ≡ steps.target_move (words_of program.now) word here.old.privilege
        (drop used.old course.now.outcomes) (goal_end course.now.goal) }
    ensures carries { steps.StepCarries (words_of program.now) here.new result }
{
    let Goal::Target(addr) = course.goal else {
        return Step::Fails(DecodeFault::WrongPlace);
    };
    let Some((class, _)) = program.at_near(near, addr) else {
        return Step::Fails(DecodeFault::OffProgram);
    };
    let itype = match type_of(class, used, course) {
        Ok(itype) => itype,
        Err(fault) => return Step::Fails(fault),
    };
    if !are_used(*used, course) {
        return Step::Fails(DecodeFault::Branches);
    }
    if !may_retire_at(class, here.privilege) || !here.stays {
        return Step::Fails(DecodeFault::WrongPrivilege);
    }
    here.addr = addr;
    here.itype = itype;
    Step::Ends
}

/// The type of a retirement of a class, where a branch uses one outcome more.
#[inline]
pub fn type_of(class: Class, used: &mut usize, course: &Course) -> Result<u8, DecodeFault>
    requires { steps.IsCourse course.now }
    ensures returned { steps.type_returned course.now.outcomes used.new result ≡ steps.type_on class
        (drop used.old course.now.outcomes) }
    ensures named { IfErr result IsOnTheWay }
{
    match class {
        Class::Plain | Class::Jump(_) => Ok(ITYPE_OTHER),
        Class::Branch(_) => match course.outcomes.get(*used) {
            Some(true) => {
                *used += 1;
                Ok(ITYPE_TAKEN)
            }
            Some(false) => {
                *used += 1;
                Ok(ITYPE_NOT_TAKEN)
            }
            None => Err(DecodeFault::Branches),
        },
        Class::Uninferable => Ok(ITYPE_UNINFERABLE),
        Class::TrapReturn(_) => Ok(ITYPE_TRAP_RETURN),
        Class::NotRetirable => Err(DecodeFault::OffProgram),
    }
}

/// Whether the privilege may stay after a retirement of a class.
#[inline]
pub fn may_stay(class: Class, privilege: u8) -> bool
    ensures { result ≡ may_stay class privilege }
{
    privilege <= greatest_after(class, privilege)
}

/// Whether all outcomes are used.
#[inline]
pub fn are_used(used: usize, course: &Course) -> bool
    requires { steps.IsCourse course.now }
    ensures { result ≡ steps.is_empty (drop used course.now.outcomes) }
{
    used >= course.count
}

/// Whether a walk ends at a retirement at this address and of this type, where `used` outcomes are used.
#[inline]
fn ends(addr: u64, itype: u8, used: usize, course: &Course) -> bool
    requires { steps.IsCourse course.now }
    ensures { (priv : ℕ) → result ≡ steps.stops (goal_end course.now.goal) (Retire addr itype priv)
        (drop used course.now.outcomes) }
{
    match course.goal {
        Goal::Branch => (itype == ITYPE_NOT_TAKEN || itype == ITYPE_TAKEN)
            && are_used(used, course),
        Goal::Address(to) => addr == to && are_used(used, course),
        Goal::Target(_) => false,
    }
}

/// Whether an instruction of a class at this address is a backward jump.
#[inline]
fn jumps_back(addr: u64, class: Class) -> bool
    ensures { (length : ℕ) → result ≡ jumps_back addr (Some (class, length)) }
{
    match class {
        Class::Jump(to) => to <= addr,
        _ => false,
    }
}
