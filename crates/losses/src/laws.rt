//! What the definition of parts promises.

ghost use Rattle.std.specs.Prelude.{ℕ, ◌≡◌, List, Some, slice_get};
ghost use Rattle.retire.specs.declared.event.Event.{Event};
ghost use Rattle.rvclass.specs.Fetch.{words_of};
ghost use Rattle.rvclass.specs.Image.{Image};
ghost use Rattle.rvclass.specs.Words.{Words, IsProgram};
ghost use Rattle.legalpath.specs.Legal.{Legal};
ghost use Rattle.legalpath.specs.ProgramLog.{ProgramLog};
ghost use Rattle.payload.specs.declared.mode.Mode.{Mode};
ghost use Rattle.message.specs.declared.message.Message.{Message};
ghost use Rattle.losses.specs.Apart.{AreRising, StandApart};
ghost use Rattle.losses.specs.Collected.{AreCollected};
ghost use Rattle.losses.specs.WholeStretches.{AreWholeStretches};
ghost use Rattle.losses.specs.Losses.{AreOfLogs, numbers_of};
ghost use Rattle.losses.specs.Parts.{parts};
ghost use Rattle.losses.specs.PartsIn.{parts_in};
ghost use Rattle.losses.specs.declared.part.HartPieces.{HartPieces as AnyPieces};

use std::alloc::Allocator;

/// The stretches among the parts of a legal log are disjoint stretches of it, in its order.
pub fn stretches_stand_apart()
    ensures { (words : Words) (period : ℕ) (mode : Mode) (log : List Event) (numbers : List ℕ) →
        IsProgram words → Legal words log → AreRising 0 numbers →
        StandApart (parts words period mode log numbers) log }
{}

/// What is promised of the stretches that are collected of messages of legal logs. Each begins at event 0, and the
/// message that opens the trace came; or it begins at the event that a synchronisation packet reports, and that
/// packet's message came. Each has all events from there on that the messages up to the next loss settle. No
/// synchronisation packet that came is left out. The stretches of a hart are disjoint stretches of its log, in its
/// order.
pub fn stretches_are_whole<A: Allocator>()
    ensures whole { (program : Image) (period : ℕ) (handed : Mode) (own : ℕ → Mode) (logs : List ProgramLog)
        (messages : List Message) (harts : List (AnyPieces A)) → AreOfLogs program period handed own logs messages
        → AreCollected program period own logs messages harts → (hart : ℕ) (log : ProgramLog) (pieces : AnyPieces A)
        → slice_get logs hart ≡ Some log → slice_get harts hart ≡ Some pieces
        → AreWholeStretches (words_of program) period (own hart) log.events (numbers_of hart messages) 0
        (parts_in pieces.parts.items) }
    ensures apart { (program : Image) (period : ℕ) (handed : Mode) (own : ℕ → Mode)
        (logs : List ProgramLog) (messages : List Message) (harts : List (AnyPieces A))
        → AreOfLogs program period handed own logs messages
        → AreCollected program period own logs messages harts → (hart : ℕ) (log : ProgramLog) (pieces : AnyPieces A)
        → slice_get logs hart ≡ Some log → slice_get harts hart ≡ Some pieces
        → StandApart (parts_in pieces.parts.items) log.events }
{}
