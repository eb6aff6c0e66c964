//! One step of a walk that was measured, which does not fail.

ghost use Rattle.std.specs.Prelude.{drop};
ghost use Rattle.rvclass.specs.Fetch.{words_of};
ghost use Rattle.decoder.specs.steps.WalkSteps as steps;
ghost use Rattle.decoder.specs.steps.Retracing.{Reaches, Retraces};
ghost use Rattle.decoder.specs.steps.Walks.{event_of, goal_end, Carries};

use crate::stepping::{Course, Goal, Here, may_stay, type_of};
use legalpath::{Next, leads};
use rvclass::ProgramOver;

/// Takes a step of a walk that was measured, from a retirement to the next one, where `used` outcomes are used before
/// it. `false` means that the step leads to no retirement.
#[inline(always)]
pub fn retrace(
    program: &ProgramOver,
    near: &mut usize,
    here: &mut Here,
    used: &mut usize,
    course: &Course,
) -> bool
    requires here { Carries (words_of program.now) here.old }
    requires course { steps.IsCourse course.now }
    ensures { Retraces (words_of program.now) course.now.outcomes here.new used.new result
        (steps.advance (words_of program.now) (event_of here.old) (drop used.old course.now.outcomes)
        (goal_end course.now.goal)) }
{
    match here.next {
        Next::One(addr) => reach(program, near, addr, here, used, course),
        Next::Any => match course.goal {
            Goal::Target(addr) => reach(program, near, addr, here, used, course),
            _ => false,
        },
        Next::NoneInside => false,
    }
}

/// Goes to the retirement at an address, if there is one.
#[inline(always)]
fn reach(
    program: &ProgramOver,
    near: &mut usize,
    addr: u64,
    here: &mut Here,
    used: &mut usize,
    course: &Course,
) -> bool
    requires { steps.IsCourse course.now }
    ensures { Reaches (words_of program.now) course.now.outcomes here.new used.new result
        (steps.retire_on addr here.old.privilege (words_of program.now addr) (drop used.old course.now.outcomes)) }
{
    let Some((class, length)) = program.at_near(near, addr) else {
        return false;
    };
    let Ok(itype) = type_of(class, used, course) else {
        return false;
    };
    here.addr = addr;
    here.itype = itype;
    here.next = leads(addr, itype, class, length);
    here.stays = may_stay(class, here.privilege);
    true
}
