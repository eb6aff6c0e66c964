//! A log that is compared as it is read.

ghost use Rattle.std.specs.Prelude.{◌≡◌, [], false, get_or, List};
ghost use Rattle.comparing.specs.Explained.{explained_hart};
ghost use Rattle.comparing.specs.Compared.{got_by};
ghost use Rattle.comparing.specs.steps.Held.{count_in};
ghost use Rattle.parallel_decode.specs.Placed.{IsPlacedLog};
ghost use Rattle.legalpath.specs.ProgramLog.{program_log};
ghost use Rattle.retire.specs.declared.event.Event.{Event as AnyEvent};
ghost use Rattle.rvclass.specs.Fetch.{words_of};
ghost use Rattle.capture_commands.specs.steps.Beside.{IsBeside};
ghost use Rattle.capture_commands.specs.steps.Places.{hart_at_place, places_in};

use crate::beside::Beside;
use bench::ComparedHart;
use comparing::{ExplainedHart, HartCount};
use legalpath::PathFault;
use log_streams::{IllegalRow, LogTask};
use retire::Event;
use rvclass::ProgramOver;
use std::alloc::{AllocError, Global};

/// Compares each log with what its hart's messages decode to. The first log is that of this hart, and the others
/// follow.
#[derive(Clone, Copy)]
pub(crate) struct AgainstMessages<'d> {
    pub(crate) alloc: Global,
    pub(crate) first: usize,
    pub(crate) program: &'d ProgramOver<'d>,
    /// The bytes that the places are in.
    pub(crate) messages: &'d [u8],
    pub(crate) places: &'d [Vec<usize>],
    pub(crate) closed: &'d [bool],
    pub(crate) counts: &'d [HartCount],
}

/// How far the log of a hart is compared.
#[derive(Drop)]
pub(crate) struct ComparingHart<'d> {
    pub(crate) hart: usize,
    pub(crate) beside: Beside<'d>,
}

impl<'d> AgainstMessages<'d> {
    /// Where a hart's messages begin, if there is such a hart.
    fn places(&self, hart: usize) -> &'d [usize]
        ensures { result.now ≡ places_in self.now.places.now hart }
    {
        match self.places.get(hart) {
            Some(places) => places.as_slice(),
            None => &[],
        }
    }

    /// Whether the hart is closed.
    fn is_closed(&self, hart: usize) -> bool
        ensures { result ≡ get_or self.now.closed.now hart false }
    {
        match self.closed.get(hart) {
            Some(closed) => *closed,
            None => false,
        }
    }

    /// The count of a hart.
    fn count(&self, hart: usize) -> HartCount
        ensures { result ≡ count_in self.now.counts.now hart }
    {
        match self.counts.get(hart) {
            Some(count) => *count,
            None => HartCount::NONE,
        }
    }
}

impl<'d> LogTask<ExplainedHart> for AgainstMessages<'d> {
    type State = ComparingHart<'d>;

    ghost Keeps = { λ task program place seen state. (state.hart ≡ hart_at_place task.first place)
        × ((log : List AnyEvent) → IsPlacedLog (words_of task.program.now) task.messages.now
        (places_in task.places.now (hart_at_place task.first place)) log → IsBeside log seen state.beside) };

    ghost Makes = { λ task program place events line. (log : List AnyEvent)
        → IsPlacedLog (words_of task.program.now) task.messages.now
        (places_in task.places.now (hart_at_place task.first place)) log
        → line ≡ explained_hart (hart_at_place task.first place)
        (got_by (count_in task.counts.now (hart_at_place task.first place)) log
        (get_or task.closed.now (hart_at_place task.first place) false)) (program_log program events) };

    ghost MakesOfIllegal = { λ task program events row line. ⊥ };

    fn begin(&self, _: &ProgramOver, place: usize) -> Result<ComparingHart<'d>, AllocError> {
        let hart = self.first.saturating_add(place);
        let beside = Beside::new(self.alloc, self.program, self.messages, self.places(hart))?;
        Ok(ComparingHart { hart, beside })
    }

    fn add(
        &self,
        _: &ProgramOver,
        state: &mut ComparingHart<'d>,
        events: &[Event],
    ) -> Result<(), AllocError> {
        state.beside.add(events);
        Ok(())
    }

    fn finish(
        &self,
        _: &ProgramOver,
        mut state: ComparingHart<'d>,
    ) -> Result<ExplainedHart, AllocError> {
        let hart = state.hart;
        let compared = state.beside.finish()?;
        let decoded = compared.decoded();
        if decoded == usize::MAX {
            // There may be more than it can say.
            return Err(AllocError);
        }
        let count = self.count(hart);
        let line = ComparedHart {
            hart,
            events: compared.events(),
            taken: count.taken,
            bytes: count.bytes,
            decoded,
            verdict: compared.verdict(self.is_closed(hart)),
        };
        Ok(ExplainedHart {
            line,
            row: compared.row(),
            near: compared.near(),
        })
    }

    fn refuse(&self, _: &ProgramOver, row: IllegalRow) -> Result<ExplainedHart, PathFault> {
        Err(row.fault)
    }
}
