//! The walks that a program has.

ghost use Rattle.std.specs.Prelude.{◌≡◌};
ghost use Rattle.rvclass.specs.Fetch.{words_of};
ghost use Rattle.decoder.specs.steps.Segments.{AreSegments};
ghost use Rattle.decoder.specs.steps.Longest.{IsLongest};
ghost use Rattle.decoder.specs.steps.StraightLines.{AreSkips};

use crate::segments::CodeSegment;
use crate::skips::Skip;
use rvclass::ProgramOver;

/// A program, how many retirements a walk in it has at most, and the skips along its straight lines, where these were
/// found.
#[derive(Clone, Copy)]
pub struct Paths<'p> {
    /// The program.
    pub(crate) program: &'p ProgramOver<'p>,
    /// How many retirements a walk has at most.
    pub(crate) longest: usize,
    /// The segments of the places that skips are from; none where these were not found.
    pub(crate) segments: &'p [CodeSegment],
    /// The skips from all places; none where they were not found.
    pub(crate) skips: &'p [Skip],
    ghost bound: { IsLongest program.now longest },
    ghost numbered: { AreSegments 0 segments.now },
    ghost lead: { AreSkips (words_of program.now) segments.now skips.now },
}

/// How many retirements a walk in this program has at most.
#[inline]
pub fn longest(program: &ProgramOver) -> usize
    ensures { IsLongest program.now result }
{
    32 * (program.byte_count() / 2)
}

impl<'p> Paths<'p> {
    /// The walks of this program, with no skips. Takes no memory.
    #[inline]
    pub fn of(program: &'p ProgramOver<'p>) -> Paths<'p>
        ensures { result.program.now ≡ program.now }
    {
        Paths {
            program,
            longest: longest(program),
            segments: &[],
            skips: &[],
        }
    }
}
