//! What is under way of one hart.

ghost use Rattle.std.specs.Prelude.{◌≡◌, ◌<◌, ◌++◌, [], ◌∷◌, None, OnOk};
ghost use Rattle.rvclass.specs.Fetch.{words_of};
ghost use Rattle.rvclass.specs.Words.{Words};
ghost use Rattle.decoder.specs.Resuming.{HasMode};
ghost use Rattle.decoder.specs.DecoderStands.{DecoderStands};
ghost use Rattle.losses.specs.Parts.{Missing, stretch};
ghost use Rattle.losses.specs.PartsIn.{parts_in};
ghost use Rattle.losses.specs.steps.DecoderSteps.{Resumes};
ghost use Rattle.losses.specs.steps.Taking.{TakesPacket};

use crate::part::Part;
use decoder::{DecodeFault, Decoder};
use payload::{Mode, Packet};
use retire::Event;
use rvclass::ProgramOver;
use std::alloc::{AllocError, Allocator};
use std::mem;

/// A hart's decoder, and the events so far of the stretch that is under way.
#[derive(Drop)]
pub struct HartTrace<A: Allocator> {
    pub decoder: Decoder,
    pub stretch: Vec<Event, A>,
}

impl<A: Allocator + Copy> HartTrace<A> {
    /// The trace of a hart before its first packet, with no stretch under way. Takes no memory.
    pub fn new(alloc: A) -> HartTrace<A>
        ensures stands { (words : Words) → DecoderStands words [] [] result.decoder }
        ensures no_mode { HasMode None result.decoder }
        ensures stretch { result.stretch.items ≡ [] }
    {
        HartTrace {
            decoder: Decoder::new(),
            stretch: Vec::new(alloc),
        }
    }

    /// Ends the stretch that is under way: it becomes the last part, where it has an event.
    pub fn end_stretch(&mut self, alloc: A, parts: &mut Vec<Part<A>, A>) -> Result<(), AllocError>
        ensures parts { OnOk result (parts_in parts.new.items ≡ parts_in parts.old.items ++ stretch
            self.old.stretch.items) }
        ensures empty { OnOk result (self.new.stretch.items ≡ []) }
        ensures decoder { self.new.decoder ≡ self.old.decoder }
    {
        if self.stretch.is_empty() {
            return Ok(());
        }
        parts.reserve(1)?;
        let events = mem::replace(&mut self.stretch, Vec::new(alloc));
        parts.push_reserved(Part::Stretch(events));
        Ok(())
    }

    /// Goes on after this many missing numbers: the stretch and then a gap become the last parts, and the decoder
    /// resumes.
    fn lose(
        &mut self,
        alloc: A,
        mode: Mode,
        missed: u64,
        parts: &mut Vec<Part<A>, A>,
    ) -> Result<(), AllocError>
        ensures parts { OnOk result (parts_in parts.new.items
            ≡ (parts_in parts.old.items ++ stretch self.old.stretch.items) ++ Missing missed ∷ []) }
        ensures empty { OnOk result (self.new.stretch.items ≡ []) }
        ensures resumes { OnOk result (Resumes mode self.old.decoder self.new.decoder) }
    {
        self.end_stretch(alloc, parts)?;
        parts.reserve(1)?;
        parts.push_reserved(Part::Gap(missed));
        self.decoder.resume(mode);
        Ok(())
    }

    /// Goes on to the hart's next message, before which this many numbers are missing, 0 or more.
    fn go_on(
        &mut self,
        alloc: A,
        mode: Mode,
        missed: u64,
        parts: &mut Vec<Part<A>, A>,
    ) -> Result<(), AllocError>
        ensures same { missed ≡ 0 → OnOk result ((self.new.decoder ≡ self.old.decoder)
            × (parts_in parts.new.items ≡ parts_in parts.old.items)
            × (self.new.stretch.items ≡ self.old.stretch.items)) }
        ensures lost { 0 < missed → OnOk result (parts_in parts.new.items
            ≡ (parts_in parts.old.items ++ stretch self.old.stretch.items) ++ Missing missed ∷ []) }
        ensures empty { 0 < missed → OnOk result (self.new.stretch.items ≡ []) }
        ensures resumes { 0 < missed → OnOk result (Resumes mode self.old.decoder self.new.decoder) }
    {
        if missed == 0 {
            return Ok(());
        }
        self.lose(alloc, mode, missed, parts)
    }

    /// Takes the hart's next packet, which comes with how many numbers are missing before it, 0 or more.
    pub fn take(
        &mut self,
        alloc: A,
        program: &ProgramOver,
        mode: Mode,
        taken: &(Packet, u64),
        parts: &mut Vec<Part<A>, A>,
    ) -> Result<(), DecodeFault>
        ensures { TakesPacket (words_of program.now) mode taken.now.0 taken.now.1 self.old self.new parts.old.items
            parts.new.items result }
    {
        match self.go_on(alloc, mode, taken.1, parts) {
            Ok(()) => {}
            Err(_) => return Err(DecodeFault::Memory),
        }
        self.decoder.feed(program, &taken.0, &mut self.stretch)
    }
}
