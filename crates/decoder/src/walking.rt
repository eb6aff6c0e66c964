//! Walks. A walk is written as it is found, where the list's capacity is enough, and else in two passes: the first
//! measures, the second writes.

ghost use Rattle.std.specs.Prelude.{◌≡◌, ◌+◌, ◌*◌, ◌/◌, ◌≤◌, vec_len, vec_capacity};
ghost use Rattle.std.specs.Prelude.{IfOk, IfErr};
ghost use Rattle.rvclass.specs.Memory.{byte_count};
ghost use Rattle.rvclass.specs.Fetch.{words_of};
ghost use Rattle.rvclass.specs.Words.{IsProgram};
ghost use Rattle.decoder.specs.steps.Faults.{IsOnTheWay};
ghost use Rattle.decoder.specs.steps.Retracing.{HasRoomWithin, AddsWithin};
ghost use Rattle.decoder.specs.steps.Stretches.{IsGrown};
ghost use Rattle.decoder.specs.steps.WalkSteps as steps;
ghost use Rattle.decoder.specs.steps.WritingAsFound.{AddsReturned, FindsReturned, KeptWithoutRoom, NoneAtFault};
ghost use Rattle.decoder.specs.steps.WritingAsFound.{ReturnsSummary, ShortReturned};
ghost use Rattle.decoder.specs.steps.Walks.{event_of, goal_end, Carries, IsHere, Finds, FindsNone, HasRoom, Adds};

use crate::fault::DecodeFault;
use crate::lines::line_ahead;
use crate::paths::Paths;
use crate::retracing::retrace;
use crate::stepping::{Course, Goal, Here, Step, step_from};
use legalpath::Next;
use payload::Outcomes;
use retire::Event;
use rvclass::ProgramOver;
use std::alloc::Allocator;

/// Whether events are in the list already.
#[derive(Clone, Copy)]
pub enum Progress {
    /// They are.
    Written,
    /// They are to be written.
    Pending,
}

/// How many retirements a walk has, the last of them, and whether they are written.
#[derive(Clone, Copy)]
pub struct Walked {
    /// How many retirements it has.
    pub count: usize,
    /// The last of them.
    pub last: Event,
    /// Whether they are written.
    pub progress: Progress,
}

/// Writes the walk from a retirement as it is found. Where there is no such walk, the fault is the first on the way,
/// and the events that were written before it remain. Where the capacity is too small, or skips were found along which
/// to measure the walk first, the call returns no walk, and the list is as it was.
#[inline(always)]
pub fn write_found<A: Allocator>(
    paths: Paths,
    from: Here,
    outcomes: &Outcomes,
    goal: Goal,
    log: &mut Vec<Event, A>,
) -> Result<Option<Walked>, DecodeFault>
    requires { IsHere (words_of paths.program.now) from }
    ensures found { FindsReturned (words_of paths.entry.program.now) from outcomes.now (goal_end goal) result }
    ensures adds { AddsReturned
        (Adds (words_of paths.entry.program.now) from outcomes.now (goal_end goal) log.old.items log.new.items) result }
    ensures kept { KeptWithoutRoom log.old.items log.new.items result }
    ensures short { ShortReturned (32 * (byte_count paths.entry.program.now / 2)) result }
    ensures none { NoneAtFault (words_of paths.entry.program.now) from outcomes.now (goal_end goal) result }
    ensures named { IfErr result IsOnTheWay }
    ensures grown { IsGrown log.old log.new }
{
    if !paths.skips.is_empty() {
        return Ok(None);
    }
    let course = Course::new(outcomes, goal);
    write_found_within(paths.program, paths.longest, from, &course, log)
}

/// Measures the walk from a retirement: how many retirements it has, and the last of them. Where there is no such walk,
/// the fault is the first on the way.
#[inline(never)]
pub fn measure(
    paths: Paths,
    from: Here,
    outcomes: &Outcomes,
    goal: Goal,
) -> Result<Walked, DecodeFault>
    requires { IsHere (words_of paths.program.now) from }
    ensures found { IfOk result
        (λ walked. Finds (words_of paths.entry.program.now) from outcomes.now (goal_end goal) walked) }
    ensures short { IfOk result (λ walked. walked.count ≤ 32 * (byte_count paths.entry.program.now / 2)) }
    ensures pending { IfOk result (λ walked. walked.progress ≡ Progress.Pending) }
    ensures none { IfErr result
        (λ fault. FindsNone (words_of paths.entry.program.now) from outcomes.now (goal_end goal)) }
    ensures named { IfErr result IsOnTheWay }
{
    measure_within(paths, from, &Course::new(outcomes, goal))
}

/// Writes a walk of `count` retirements, which was measured, into capacity that was reserved.
#[inline(never)]
pub fn write<A: Allocator>(
    program: &ProgramOver,
    from: Here,
    outcomes: &Outcomes,
    goal: Goal,
    count: usize,
    log: &mut Vec<Event, A>,
)
    requires program { IsProgram (words_of program.now) }
    requires from { IsHere (words_of program.now) from }
    requires room { HasRoom (words_of program.now) from outcomes.now (goal_end goal) count
        (vec_len log.old) (vec_capacity log.old) }
    ensures walk { Adds (words_of program.now) from outcomes.now (goal_end goal) log.old.items log.new.items }
    ensures room { vec_capacity log.new ≡ vec_capacity log.old }
{
    // This is called for its contract: the bytes of a program are an image.
    let _ = program.byte_count();
    write_within(program, count, from, &Course::new(outcomes, goal), log);
}

/// Measures a walk. Once it is long, it goes along straight lines by skips, where these were found.
#[inline]
fn measure_within(paths: Paths, from: Here, course: &Course) -> Result<Walked, DecodeFault>
    requires from { Carries (words_of paths.program.now) from }
    requires course { steps.IsCourse course.now }
    ensures summary { steps.summary_of result ≡ steps.summary (event_of from)
        (steps.walk_within (words_of paths.entry.program.now) paths.entry.longest (event_of from) course.now.outcomes
        (goal_end course.now.goal)) }
    ensures pending { IfOk result (λ walked. walked.progress ≡ Progress.Pending) }
    ensures named { IfErr result IsOnTheWay }
{
    let mut near = 0;
    let mut here = from;
    let mut used = 0;
    let mut done = 0;
    for _ in 0..paths.longest {
        if done >= paths.longest {
            return Err(DecodeFault::WrongPlace);
        }
        if let Some(line) = line_ahead(paths, &here, used, course, done) {
            here = Here {
                addr: line.to,
                itype: here.itype,
                privilege: here.privilege,
                next: Next::One(line.next),
                stays: true,
            };
            done += line.steps;
            continue;
        }
        match step_from(paths.program, &mut near, &mut here, &mut used, course) {
            Step::Goes => done += 1,
            Step::Ends => {
                return Ok(Walked {
                    count: done + 1,
                    last: event(here),
                    progress: Progress::Pending,
                });
            }
            Step::Fails(fault) => return Err(fault),
        }
    }
    Err(DecodeFault::WrongPlace)
}

/// Writes a walk of at most `limit` steps as it is found, as far as the capacity goes.
#[inline(always)]
fn write_found_within<A: Allocator>(
    program: &ProgramOver,
    limit: usize,
    from: Here,
    course: &Course,
    log: &mut Vec<Event, A>,
) -> Result<Option<Walked>, DecodeFault>
    requires program { IsProgram (words_of program.now) }
    requires from { Carries (words_of program.now) from }
    requires course { steps.IsCourse course.now }
    ensures summary { ReturnsSummary (steps.summary (event_of from)
        (steps.walk_within (words_of program.now) limit (event_of from) course.now.outcomes
        (goal_end course.now.goal))) result }
    ensures adds { AddsReturned (AddsWithin (words_of program.now) limit (event_of from) course.now.outcomes
        (goal_end course.now.goal) log.old.items log.new.items) result }
    ensures kept { KeptWithoutRoom log.old.items log.new.items result }
    ensures named { IfErr result IsOnTheWay }
    ensures grown { IsGrown log.old log.new }
{
    let count = log.len();
    let room = log.capacity() - count;
    let mut near = 0;
    let mut here = from;
    let mut used = 0;
    for done in 0..limit.min(room) {
        match step_from(program, &mut near, &mut here, &mut used, course) {
            Step::Goes => log.push_reserved(event(here)),
            Step::Ends => {
                let last = event(here);
                log.push_reserved(last);
                return Ok(Some(Walked {
                    count: done + 1,
                    last,
                    progress: Progress::Written,
                }));
            }
            Step::Fails(fault) => return Err(fault),
        }
    }
    log.truncate(count);
    Ok(None)
}

/// Writes the `count` retirements of a walk that has no more.
#[inline]
fn write_within<A: Allocator>(
    program: &ProgramOver,
    count: usize,
    from: Here,
    course: &Course,
    log: &mut Vec<Event, A>,
)
    requires from { Carries (words_of program.now) from }
    requires course { steps.IsCourse course.now }
    requires room { HasRoomWithin (words_of program.now) (32 * (byte_count program.now / 2)) (event_of from)
        course.now.outcomes
        (goal_end course.now.goal) count (vec_len log.old) (vec_capacity log.old) }
    ensures walk { AddsWithin (words_of program.now) (32 * (byte_count program.now / 2)) (event_of from)
        course.now.outcomes
        (goal_end course.now.goal) log.old.items log.new.items }
    ensures room { vec_capacity log.new ≡ vec_capacity log.old }
{
    let mut near = 0;
    let mut here = from;
    let mut used = 0;
    for _ in 0..count {
        if !retrace(program, &mut near, &mut here, &mut used, course) {
            return;
        }
        log.push_reserved(event(here));
    }
}

/// The retirement as an event.
#[inline]
pub fn event(here: Here) -> Event
    ensures { result ≡ event_of here }
{
    Event::Retire {
        addr: here.addr,
        itype: here.itype,
        privilege: here.privilege,
    }
}
