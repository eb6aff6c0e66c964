//! Sections of long harts that are received side by side.

ghost use Rattle.std.specs.Prelude.{All, IfOk, OnOk};
ghost use Rattle.rvclass.specs.Fetch.{words_of};
ghost use Rattle.parallel_decode.specs.steps.Sections.{IsOfHarts};

use crate::hart::Work;
use crate::parts::{Group, count_of};
use crate::section_ends::{SectionEnd, receive_section};
use crate::sections::{Section, sections_of};
use side_by_side::{Task, part_count, results};
use std::alloc::{AllocError, Global};
use std::thread::Threads;

/// Sections of harts whose messages begin at these places.
#[derive(Drop)]
pub(crate) struct Sections<'w, 'p, 's> {
    pub(crate) work: &'w Work<'w>,
    pub(crate) places: &'p [Vec<usize>],
    pub(crate) sections: &'s [Section],
}

impl<'w, 'p, 's> Task<Group, Result<Vec<SectionEnd>, AllocError>> for Sections<'w, 'p, 's> {
    ghost Gives = { λ sections place group found. IfOk found (λ ends. All (IsOfHarts
        (words_of sections.work.now.program.now) sections.work.now.announced sections.work.now.bytes.now
        sections.places.now) ends.items) };

    fn call(&self, _: usize, group: &Group) -> Result<Vec<SectionEnd>, AllocError> {
        receive_group(self.work, self.places, self.sections, *group)
    }
}

/// Receives sections, one after the other. Those of which nothing comes are left out.
fn receive_group(
    work: &Work<'_>,
    places: &[Vec<usize>],
    sections: &[Section],
    group: Group,
) -> Result<Vec<SectionEnd>, AllocError>
    ensures { IfOk result (λ ends. All (IsOfHarts (words_of work.now.program.now) work.now.announced work.now.bytes.now
        places.now) ends.items) }
{
    let mut ends = Vec::new(work.alloc);
    for number in group.first..group.end {
        let Some(section) = sections.get(number) else {
            return Ok(ends);
        };
        add_end(work, places, *section, &mut ends)?;
    }
    Ok(ends)
}

/// Receives a section, and adds its end, if there is such a hart and something comes of it.
fn add_end(
    work: &Work<'_>,
    places: &[Vec<usize>],
    section: Section,
    ends: &mut Vec<SectionEnd>,
) -> Result<(), AllocError>
    ensures { All (IsOfHarts (words_of work.now.program.now) work.now.announced work.now.bytes.now places.now)
        ends.old.items → OnOk result (All (IsOfHarts (words_of work.now.program.now) work.now.announced
        work.now.bytes.now places.now) ends.new.items) }
{
    let Some(own) = places.get(section.hart) else {
        return Ok(());
    };
    receive_section(work, own.as_slice(), section, ends)?;
    Ok(())
}

/// Receives the sections of long harts, whose messages begin at these places, several side by side. They come in the
/// order of their harts, those of a hart in the order of its messages.
pub(crate) fn receive_sections<R: Threads + Sync>(
    rt: &R,
    work: &Work<'_>,
    places: &[Vec<usize>],
) -> Result<Vec<SectionEnd>, AllocError>
    ensures { IfOk result (λ ends. All (IsOfHarts (words_of work.now.program.now) work.now.announced work.now.bytes.now
        places.now) ends.items) }
{
    let sections = sections_of(work, places, count_of(places))?;
    let groups = groups_of(work.alloc, sections.len(), part_count(rt))?;
    let all = Sections {
        work,
        places,
        sections: sections.as_slice(),
    };
    let parts = results(work.alloc, rt, &all, groups.as_slice())?;
    joined(work, places, parts)
}

/// The sections in these parts, one part behind the other.
fn joined(
    work: &Work<'_>,
    places: &[Vec<usize>],
    parts: Vec<Result<Vec<SectionEnd>, AllocError>>,
) -> Result<Vec<SectionEnd>, AllocError>
    requires { All (λ part. IfOk part (λ ends. All (IsOfHarts (words_of work.now.program.now) work.now.announced
        work.now.bytes.now places.now) ends.items)) parts.items }
    ensures { IfOk result (λ ends. All (IsOfHarts (words_of work.now.program.now) work.now.announced work.now.bytes.now
        places.now) ends.items) }
{
    let mut ends = Vec::new(work.alloc);
    for part in parts {
        match part {
            Ok(more) => ends.extend_from_slice(more.as_slice())?,
            Err(why) => return Err(why),
        }
    }
    Ok(ends)
}

/// So many sections in at most so many groups.
fn groups_of(alloc: Global, count: usize, most: usize) -> Result<Vec<Group>, AllocError> {
    let mut groups = Vec::new(alloc);
    for number in 0..most {
        let first = count.saturating_mul(number) / most;
        let end = count.saturating_mul(number + 1) / most;
        if first < end {
            groups.push(Group { first, end })?;
        }
    }
    Ok(groups)
}
