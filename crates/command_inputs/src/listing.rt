//! The events of legal logs, which are kept as they are read.

ghost use Rattle.std.specs.Prelude.{◌≡◌};

use legalpath::{LegalLog, PathFault};
use log_streams::{IllegalRow, LogTask};
use retire::{Event, MOST_ROWS};
use rvclass::{Program, ProgramOver};
use std::alloc::{AllocError, Global};

/// Keeps the events of each log that is legal for a program. An illegal log ends at its first illegal row.
#[derive(Clone, Copy)]
pub(crate) struct Listing<'p> {
    /// The program that the logs are checked against.
    pub(crate) program: &'p Program,
    pub(crate) alloc: Global,
}

impl<'p> LogTask<LegalLog<'p>> for Listing<'p> {
    type State = Vec<Event>;

    ghost Keeps = { λ task program hart events list. list.items ≡ events };

    ghost Makes = { λ task program hart events log.
        (log.program ≡ task.program.now) × (log.events ≡ events) };

    ghost MakesOfIllegal = { λ task program events row log. ⊥ };

    fn begin(&self, _: &ProgramOver, _: usize) -> Result<Vec<Event>, AllocError> {
        Ok(Vec::new(self.alloc))
    }

    fn add(
        &self,
        _: &ProgramOver,
        list: &mut Vec<Event>,
        events: &[Event],
    ) -> Result<(), AllocError> {
        list.extend_from_slice(events)
    }

    fn finish(&self, _: &ProgramOver, list: Vec<Event>) -> Result<LegalLog<'p>, AllocError> {
        // The log was checked against this program, so that no list of so many events is refused.
        if list.len() > MOST_ROWS as usize {
            return Err(AllocError);
        }
        LegalLog::new(self.program, list).map_err(|_| AllocError)
    }

    fn refuse(&self, _: &ProgramOver, row: IllegalRow) -> Result<LegalLog<'p>, PathFault> {
        Err(row.fault)
    }
}
