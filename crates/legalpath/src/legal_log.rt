//! A log that is known to be legal.

ghost use Rattle.std.specs.Prelude.{◌≡◌, ◌↔◌, ◌≤◌, All, length, vec_len, IsOk, IfOk, IfErr};
ghost use Rattle.retire.specs.Is64Bit.{Is64Bit};
ghost use Rattle.retire.specs.Log.{most_rows};
ghost use Rattle.rvclass.specs.Fetch.{words_of};
ghost use Rattle.rvclass.specs.Image.{IsImage};
ghost use Rattle.legalpath.specs.FirstFault.{IsFirstFault};
ghost use Rattle.legalpath.specs.Legal.{Legal};
ghost use Rattle.legalpath.specs.ProgramLog.{ProgramLog, IsLegalLog, program_log};

use crate::checking::check;
use crate::fault::PathFault;
use retire::Event;
use rvclass::Program;
use std::alloc::{Allocator, Global};
use std::marker::Model;

/// A log that is legal for the program that it ran, of at most 2^24 events. It never changes.
#[derive(Drop)]
pub struct LegalLog<'p, A: Allocator = Global> {
    program: &'p Program,
    events: Vec<Event, A>,
}

impl<'p, A: Allocator> Model for LegalLog<'p, A> {
    ghost Value = { ProgramLog };

    ghost view = { λ log. program_log log.program.now log.events.items };

    ghost invariant = { λ log. IsLegalLog (program_log log.program.now log.events.items) };
}

impl<'p, A: Allocator> LegalLog<'p, A> {
    /// The log of these events, if [`check`] finds it legal. Else the error has the first illegal row, and the list as
    /// it was given.
    pub fn new(
        program: &'p Program,
        events: Vec<Event, A>,
    ) -> Result<LegalLog<'p, A>, (PathFault, Vec<Event, A>)>
        requires { vec_len events ≤ most_rows }
        ensures legal { IsOk result ↔ Legal (words_of program.now) events.items }
        ensures program { IfOk result (λ log. log.program ≡ program.now) }
        ensures events { IfOk result (λ log. log.events ≡ events.items) }
        ensures first { IfErr result
            (λ refused. IsFirstFault (words_of program.now) events.items refused.0) }
        ensures back { IfErr result (λ refused. refused.1 ≡ events) }
    {
        // This is called for its contract: the bytes of a program are an image.
        let _ = program.byte_count();
        match check(program, &events) {
            Ok(()) => Ok(LegalLog { program, events }),
            Err(fault) => Err((fault, events)),
        }
    }

    /// The program.
    #[inline]
    pub fn program(&self) -> &'p Program
        ensures program { result.now ≡ self.now.program }
        ensures image { IsImage self.now.program }
    {
        self.program
    }

    /// The events.
    #[inline]
    pub fn events(&self) -> &[Event]
        ensures events { result.now ≡ self.now.events }
        ensures legal { Legal (words_of self.now.program) self.now.events }
        ensures short { length self.now.events ≤ most_rows }
        ensures numbers { All Is64Bit self.now.events }
        ensures image { IsImage self.now.program }
    {
        &self.events
    }
}
