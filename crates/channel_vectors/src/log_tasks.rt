//! What is made of logs: their events.

ghost use Rattle.std.specs.Prelude.{⊤, ◌≡◌, true};

use legalpath::PathFault;
use log_streams::{IllegalRow, LogTask};
use retire::Event;
use rvclass::ProgramOver;
use std::alloc::{AllocError, Global};

/// What was collected of a log.
#[derive(Drop)]
pub(crate) struct Collected {
    /// The hart, and the events of a legal log.
    pub(crate) hart: usize,
    pub(crate) events: Vec<Event>,
    /// The first illegal row of an illegal log.
    pub(crate) row: Option<IllegalRow>,
}

/// Collects the events of legal logs.
#[derive(Drop)]
pub(crate) struct Collecting {
    pub(crate) alloc: Global,
    /// Whether an illegal log is refused. Else its first illegal row is collected.
    pub(crate) refuses: bool,
}

impl LogTask<Collected> for Collecting {
    type State = Collected;

    ghost Keeps = { λ _ _ _ _ _. ⊤ };

    ghost Makes = { λ _ _ _ _ _. ⊤ };

    ghost MakesOfIllegal = { λ _ _ _ _ _. ⊤ };

    ghost MayRefuse = { λ task. task.refuses ≡ true };

    fn begin(&self, program: &ProgramOver, hart: usize) -> Result<Collected, AllocError> {
        let _ = program;
        Ok(Collected {
            hart,
            events: Vec::new(self.alloc),
            row: None,
        })
    }

    fn add(
        &self,
        program: &ProgramOver,
        state: &mut Collected,
        events: &[Event],
    ) -> Result<(), AllocError> {
        let _ = program;
        state.events.extend_from_slice(events)
    }

    fn finish(&self, program: &ProgramOver, state: Collected) -> Result<Collected, AllocError> {
        let _ = program;
        Ok(state)
    }

    fn refuse(&self, program: &ProgramOver, row: IllegalRow) -> Result<Collected, PathFault> {
        let _ = program;
        if self.refuses {
            return Err(row.fault);
        }
        Ok(Collected {
            hart: 0,
            events: Vec::new(self.alloc),
            row: Some(row),
        })
    }
}
