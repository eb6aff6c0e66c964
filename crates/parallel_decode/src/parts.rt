//! Harts whose messages are received side by side.

ghost use Rattle.std.specs.Prelude.{All, IfOk, OnOk};
ghost use Rattle.rvclass.specs.Fetch.{words_of};
ghost use Rattle.parallel_decode.specs.steps.Ends.{AreEnds, IsEntry};
ghost use Rattle.parallel_decode.specs.steps.Sections.{IsOfHarts};

use crate::hart::{Entry, HartEnd, Work, receive_hart};
use crate::section_ends::SectionEnd;
use crate::section_groups::receive_sections;
use side_by_side::{Task, processors, results};
use std::alloc::{AllocError, Global};
use std::thread::Threads;

/// Some of all harts, or of all sections: from one to before another.
#[derive(Clone, Copy)]
pub(crate) struct Group {
    pub(crate) first: usize,
    pub(crate) end: usize,
}

/// All harts, whose messages begin at these places, and sections of them that were received.
#[derive(Drop)]
pub(crate) struct Harts<'w, 'p, 's> {
    pub(crate) work: &'w Work<'w>,
    pub(crate) places: &'p [Vec<usize>],
    pub(crate) sections: &'s [SectionEnd],
}

impl<'w, 'p, 's> Task<Group, Result<Vec<Entry>, AllocError>> for Harts<'w, 'p, 's> {
    ghost Gives = { λ harts place group found. All (IsOfHarts (words_of harts.work.now.program.now)
        harts.work.now.announced harts.work.now.bytes.now harts.places.now) harts.sections.now
        → IfOk found (λ entries. All (IsEntry (words_of harts.work.now.program.now) harts.work.now.announced
        harts.work.now.bytes.now harts.places.now) entries.items) };

    fn call(&self, _: usize, group: &Group) -> Result<Vec<Entry>, AllocError> {
        receive_group(self.work, self.places, self.sections, *group)
    }
}

/// Receives the messages of harts, which begin at these places: one hart after the other.
fn receive_group(
    work: &Work<'_>,
    places: &[Vec<usize>],
    sections: &[SectionEnd],
    group: Group,
) -> Result<Vec<Entry>, AllocError>
    ensures { All (IsOfHarts (words_of work.now.program.now) work.now.announced work.now.bytes.now places.now)
        sections.now → IfOk result (λ entries. All (IsEntry (words_of work.now.program.now) work.now.announced
        work.now.bytes.now places.now) entries.items) }
{
    let mut entries = Vec::new(work.alloc);
    for hart in group.first..group.end {
        let Some(own) = places.get(hart) else {
            return Ok(entries);
        };
        let end = receive_hart(work, hart, own.as_slice(), sections)?;
        entries.push(Entry { hart, end })?;
    }
    Ok(entries)
}

/// Receives the messages of harts, which begin at these places: several harts side by side, and first the sections of
/// long ones. Of each hart its own messages say what is found.
pub(crate) fn receive_harts<R: Threads + Sync>(
    rt: &R,
    work: &Work<'_>,
    places: &[Vec<usize>],
) -> Result<Vec<HartEnd>, AllocError>
    ensures { IfOk result (λ ends. AreEnds (words_of work.now.program.now) work.now.announced work.now.bytes.now
        places.now ends.items) }
{
    let sections = receive_sections(rt, work, places)?;
    let groups = groups_of(work.alloc, places, processors(rt))?;
    let harts = Harts {
        work,
        places,
        sections: sections.as_slice(),
    };
    let parts = results(work.alloc, rt, &harts, groups.as_slice())?;
    joined(work, places, parts)
}

/// The ends of the harts in these parts, in the order of the harts.
fn joined(
    work: &Work<'_>,
    places: &[Vec<usize>],
    parts: Vec<Result<Vec<Entry>, AllocError>>,
) -> Result<Vec<HartEnd>, AllocError>
    requires { All (λ part. IfOk part (λ entries. All (IsEntry (words_of work.now.program.now) work.now.announced
        work.now.bytes.now places.now) entries.items)) parts.items }
    ensures { IfOk result (λ ends. AreEnds (words_of work.now.program.now) work.now.announced work.now.bytes.now
        places.now ends.items) }
{
    let mut ends = Vec::new(work.alloc);
    for part in parts {
        match part {
            Ok(entries) => add_part(work, places, &mut ends, entries)?,
            Err(why) => return Err(why),
        }
    }
    Ok(ends)
}

/// Adds the ends of the harts in a part, as far as they are the next ones.
fn add_part(
    work: &Work<'_>,
    places: &[Vec<usize>],
    ends: &mut Vec<HartEnd>,
    entries: Vec<Entry>,
) -> Result<(), AllocError>
    requires entries { All (IsEntry (words_of work.now.program.now) work.now.announced work.now.bytes.now places.now)
        entries.items }
    requires ends { AreEnds (words_of work.now.program.now) work.now.announced work.now.bytes.now places.now
        ends.old.items }
    ensures { OnOk result (AreEnds (words_of work.now.program.now) work.now.announced work.now.bytes.now places.now
        ends.new.items) }
{
    for entry in entries {
        let Entry { hart, end } = entry;
        if hart == ends.len() {
            ends.push(end)?;
        }
    }
    Ok(())
}

/// The harts in at most so many groups, of about as many messages each.
fn groups_of(alloc: Global, places: &[Vec<usize>], most: usize) -> Result<Vec<Group>, AllocError> {
    let all = count_of(places).max(1);
    let last = (most as u64).saturating_sub(1);
    let mut groups = Vec::new(alloc);
    let mut before = 0u64;
    let mut first = 0;
    let mut group = 0;
    for (hart, own) in places.iter().enumerate() {
        // The group of the hart's middle message.
        let middle = before.saturating_add(own.len() as u64 / 2);
        let of_hart = (middle.saturating_mul(most as u64) / all).min(last);
        if of_hart != group {
            groups.push(Group { first, end: hart })?;
            first = hart;
            group = of_hart;
        }
        before = before.saturating_add(own.len() as u64);
    }
    groups.push(Group {
        first,
        end: places.len(),
    })?;
    Ok(groups)
}

/// How many places there are, or 2^64 - 1 if there are more.
pub(crate) fn count_of(places: &[Vec<usize>]) -> u64 {
    let mut count = 0u64;
    for own in places {
        count = count.saturating_add(own.len() as u64);
    }
    count
}
