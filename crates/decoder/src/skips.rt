//! Skips along straight lines of instructions: plain ones, and jumps forward.
//!
//! Where a walk goes along such a line, no step but one to its address can end it. So a table that tells of each place
//! how far a line goes from there saves the steps between.

ghost use Rattle.std.specs.Prelude.{◌≡◌, IfOk};
ghost use Rattle.rvclass.specs.Fetch.{words_of};
ghost use Rattle.decoder.specs.steps.Segments.{AreSegments, addr_of};
ghost use Rattle.decoder.specs.steps.StraightLines.{AreSkips, IsLine, straight_on};

use crate::segments::{CodeSegment, addr_at, place_at, places_of, segment_near};
use rvclass::{Class, ProgramOver};
use std::alloc::{AllocError, Allocator};

/// A straight line from a place of the image.
#[derive(Clone, Copy)]
pub struct Skip {
    /// The place where it leads.
    pub to: u32,
    /// How many steps it has; none where no table entry tells of one.
    pub steps: u32,
}

/// A straight line that a walk goes along.
#[derive(Clone, Copy)]
pub struct StraightRun {
    /// How many steps it has.
    pub steps: usize,
    /// The address where it leads.
    pub to: u64,
    /// Where the instruction there leads.
    pub next: u64,
}

/// Where the instruction at an address leads, if it is plain or jumps forward.
#[inline]
pub fn straight_on(program: &ProgramOver, addr: u64) -> Option<u64>
    ensures { result ≡ straight_on addr (words_of program.now addr) }
{
    match program.at(addr) {
        None => None,
        Some((class, length)) => match class {
            Class::Plain => Some(addr + u64::from(length)),
            Class::Jump(to) => { if to <= addr { None } else { Some(to) } }
            _ => None,
        },
    }
}

/// The skip from a place, by those from the places before it. It has as many steps as two others together and one more
/// where these are equal, so that the skips from a place on double. `near` is the number of the place's segment.
fn skip_from(
    program: &ProgramOver,
    segments: &[CodeSegment],
    near: usize,
    place: u32,
    skips: &[Skip],
) -> Skip
    requires segments { AreSegments 0 segments.now }
    requires skips { AreSkips (words_of program.now) segments.now skips.now }
    ensures { IsLine (words_of program.now) result.steps (addr_of segments.now place) (addr_of segments.now result.to) }
{
    let none = Skip {
        to: place,
        steps: 0,
    };
    let Some(addr) = addr_at(segments, near, place) else {
        return none;
    };
    let Some(next) = straight_on(program, addr) else {
        return none;
    };
    let Some(at) = place_at(segments, near, next) else {
        return none;
    };
    let Some(one) = skips.get(at as usize) else {
        return none;
    };
    let step = Skip { to: at, steps: 1 };
    let Some(two) = skips.get(one.to as usize) else {
        return step;
    };
    if one.steps == two.steps && one.steps < 1 << 30 {
        Skip {
            to: two.to,
            steps: 1 + one.steps + two.steps,
        }
    } else {
        step
    }
}

/// The skips from all places of the program, in order of places.
pub fn find_skips<A: Allocator>(
    alloc: A,
    program: &ProgramOver,
    segments: &[CodeSegment],
) -> Result<Vec<Skip, A>, AllocError>
    requires { AreSegments 0 segments.now }
    ensures { IfOk result (λ skips. AreSkips (words_of program.now) segments.now skips.items) }
{
    let places = places_of(segments);
    let mut skips = Vec::with_capacity(alloc, places as usize)?;
    let mut near = 0;
    for place in 0..places {
        near = segment_near(segments, near, place);
        let skip = skip_from(program, segments, near, place, skips.as_slice());
        skips.push_reserved(skip);
    }
    Ok(skips)
}
