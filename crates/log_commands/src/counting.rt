//! The events of a log, counted as they are read.

ghost use Rattle.std.specs.Prelude.{◌≡◌, Err, length};
ghost use Rattle.log_commands.specs.steps.Checked.{IsVerdictOnLegal};

use legalpath::PathFault;
use log_streams::{IllegalRow, LogTask};
use retire::Event;
use rvclass::ProgramOver;
use std::alloc::AllocError;

/// Counts the events of a legal log. Of an illegal log it keeps the first illegal row.
#[derive(Clone, Copy)]
pub(crate) struct Counting;

impl LogTask<Result<usize, IllegalRow>> for Counting {
    type State = usize;

    ghost Keeps = { λ task program hart seen count. count ≡ length seen };

    ghost Makes = { λ task program hart events verdict. IsVerdictOnLegal events verdict };

    ghost MakesOfIllegal = { λ task program events row verdict. verdict ≡ Err row };

    ghost MayRefuse = { λ task. ⊥ };

    fn begin(&self, _: &ProgramOver, _: usize) -> Result<usize, AllocError> {
        Ok(0)
    }

    fn add(&self, _: &ProgramOver, count: &mut usize, events: &[Event]) -> Result<(), AllocError> {
        *count += events.len();
        Ok(())
    }

    fn finish(
        &self,
        _: &ProgramOver,
        count: usize,
    ) -> Result<Result<usize, IllegalRow>, AllocError> {
        Ok(Ok(count))
    }

    fn refuse(
        &self,
        _: &ProgramOver,
        row: IllegalRow,
    ) -> Result<Result<usize, IllegalRow>, PathFault> {
        Ok(Err(row))
    }
}
