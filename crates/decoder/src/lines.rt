//! The straight line ahead of a walk.

ghost use Rattle.std.specs.Prelude.{◌≡◌, ◌-◌, IfSome, drop};
ghost use Rattle.rvclass.specs.Fetch.{words_of};
ghost use Rattle.decoder.specs.steps.StraightLines.{GoesOn, passes};
ghost use Rattle.decoder.specs.steps.WalkSteps as steps;
ghost use Rattle.decoder.specs.steps.Walks.{goal_end};

use crate::paths::Paths;
use crate::segments::{addr_at, place_at};
use crate::skips::{StraightRun, straight_on};
use crate::stepping::{Course, Goal, Here, are_used};
use retire::ITYPE_OTHER;

/// How many steps a walk has made before it looks for skips. So short walks take no longer than without them.
const SHORT: usize = 64;

/// Whether a walk does not end on the way from one address to a greater one, where `used` outcomes are used.
fn passes(from: u64, to: u64, used: usize, course: &Course) -> bool
    requires { steps.IsCourse course.now }
    ensures { result ≡ passes (goal_end course.now.goal) (drop used course.now.outcomes) from to }
{
    match course.goal {
        Goal::Branch | Goal::Target(_) => true,
        Goal::Address(addr) => !are_used(used, course) || addr <= from || addr > to,
    }
}

/// A straight line from a retirement that a walk goes along, where one is known. `done` steps were made before, and
/// `used` outcomes are used.
#[inline]
pub fn line_ahead(
    paths: Paths,
    here: &Here,
    used: usize,
    course: &Course,
    done: usize,
) -> Option<StraightRun>
    requires { steps.IsCourse course.now }
    ensures { IfSome result (GoesOn (words_of paths.entry.program.now) here.now (drop used course.now.outcomes)
        (goal_end course.now.goal) (paths.entry.longest - done)) }
{
    if done < SHORT || here.itype != ITYPE_OTHER {
        return None;
    }
    let place = place_at(paths.segments, 0, here.addr)?;
    let skip = paths.skips.get(place as usize)?;
    let steps = skip.steps as usize;
    if steps == 0 || steps > paths.longest.saturating_sub(done) {
        return None;
    }
    let to = addr_at(paths.segments, 0, skip.to)?;
    if !passes(here.addr, to, used, course) {
        return None;
    }
    let next = straight_on(paths.program, to)?;
    Some(StraightRun { steps, to, next })
}
