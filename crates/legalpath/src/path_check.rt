//! Checking a log whose events come piece by piece.

ghost use Rattle.std.specs.Prelude.{◌≡◌, ◌↔◌, ◌+◌, ◌-◌, ◌≤◌, ◌^◌, ◌++◌, List, [], All, length, IsOk, IfErr, OnOk, OnErr};
ghost use Rattle.retire.specs.Is64Bit.{Is64Bit};
ghost use Rattle.retire.specs.declared.event.Event.{Event as AnyEvent};
ghost use Rattle.rvclass.specs.Fetch.{words_of};
ghost use Rattle.rvclass.specs.Words.{Words};
ghost use Rattle.legalpath.specs.FirstFault.{IsFirstFault};
ghost use Rattle.legalpath.specs.Legal.{Legal};
ghost use Rattle.legalpath.specs.Passed.{HasPassed, Passed};

use crate::checking::judge_all;
use crate::fault::PathFault;
use crate::judging::{Left, left_at_start};
use retire::Event;
use rvclass::ProgramOver;
use std::marker::Model;

/// Checks a log whose events come piece by piece, and says of all of them what [`check`](crate::check) says of a list.
/// It keeps what the last event allows to follow it, and how many events there were. It keeps no event.
#[derive(Drop)]
pub struct PathCheck {
    left: Left,
    rows: u32,
}

impl Model for PathCheck {
    ghost Value = { Passed };

    ghost view = { λ checker. record { left = checker.left; rows = checker.rows } };

    ghost invariant = { λ checker. checker.left.greatest ≤ 3 };
}

impl PathCheck {
    /// A checker that has passed no event.
    pub fn new() -> PathCheck
        ensures none { (words : Words) → HasPassed words [] result }
        ensures rows { result.rows ≡ 0 }
    {
        PathCheck {
            left: left_at_start(),
            rows: 0,
        }
    }

    /// How many events it has passed.
    pub fn rows(&self) -> u32
        ensures { result ≡ self.now.rows }
    {
        self.rows
    }

    /// Checks the events that come next, with the program that the events before were checked with. The error names the
    /// first illegal row of the log, counted from the log's first event, and the first reason that applies to it; the
    /// checker is then as it was.
    pub fn pass(&mut self, program: &ProgramOver, events: &[Event]) -> Result<(), PathFault>
        requires few { self.old.rows + length events.now ≤ 2 ^ 32 - 1 }
        ensures legal { (seen : List AnyEvent) → HasPassed (words_of program.now) seen self.old
            → IsOk result ↔ Legal (words_of program.now) (seen ++ events.now) }
        ensures first { (seen : List AnyEvent) → HasPassed (words_of program.now) seen self.old
            → IfErr result (λ fault. IsFirstFault (words_of program.now) (seen ++ events.now) fault) }
        ensures passed { (seen : List AnyEvent) → HasPassed (words_of program.now) seen self.old
            → OnOk result (HasPassed (words_of program.now) (seen ++ events.now) self.new) }
        ensures rows { OnOk result (self.new.rows ≡ self.old.rows + length events.now) }
        ensures numbers { OnOk result (All Is64Bit events.now) }
        ensures refused { OnErr result (self.new ≡ self.old) }
    {
        match judge_all(program, self.left, self.rows, events) {
            Ok(left) => {
                self.left = left;
                self.rows += events.len() as u32;
                Ok(())
            }
            Err(fault) => Err(fault),
        }
    }
}
