//! A program whose skips are found when they are needed.

ghost use Rattle.std.specs.Prelude.{◌≡◌};
ghost use Rattle.rvclass.specs.Fetch.{words_of};
ghost use Rattle.decoder.specs.steps.Segments.{AreSegments, segments_in};
ghost use Rattle.decoder.specs.steps.StraightLines.{AreSkips};

use crate::paths::{Paths, longest};
use crate::segments::{CodeSegment, find_segments, segments_in};
use crate::skips::{Skip, find_skips};
use rvclass::ProgramOver;
use std::alloc::{AllocError, Allocator};

/// A program, and the skips along its straight lines once they were found. A walk along them of which nothing comes
/// takes few steps, where it else may take as many as the program has instructions, and those of a loop up to 31 times.
#[derive(Drop)]
pub struct StraightRuns<'p, A: Allocator> {
    program: &'p ProgramOver<'p>,
    segments: Option<Vec<CodeSegment, A>>,
    skips: Vec<Skip, A>,
    ghost numbered: { AreSegments 0 (segments_in segments) },
    ghost lead: { AreSkips (words_of program.now) (segments_in segments) skips.items },
}

impl<'p, A: Allocator> StraightRuns<'p, A> {
    /// The program, with no skips. Takes no memory.
    pub fn new(alloc: A, program: &'p ProgramOver<'p>) -> StraightRuns<'p, A>
        ensures { result.program.now ≡ program.now }
    {
        StraightRuns {
            program,
            segments: None,
            skips: Vec::new(alloc),
        }
    }

    /// The walks of the program, along the skips that were found.
    pub fn paths(&self) -> Paths<'_>
        ensures { result.program.now ≡ self.now.program.now }
    {
        Paths {
            program: self.program,
            longest: longest(self.program),
            segments: segments_in(&self.segments),
            skips: self.skips.as_slice(),
        }
    }
}

impl<'p, A: Allocator + Copy> StraightRuns<'p, A> {
    /// Finds the skips, if they were not found before. It takes time for each halfword of the image, and 8 bytes; and
    /// 16 bytes for each piece.
    pub fn find(&mut self, alloc: A) -> Result<(), AllocError>
        ensures { self.new.program ≡ self.old.program }
    {
        if self.skips.is_empty() {
            let segments = find_segments(alloc, self.program)?;
            self.skips = find_skips(alloc, self.program, segments.as_slice())?;
            self.segments = Some(segments);
        }
        Ok(())
    }
}
