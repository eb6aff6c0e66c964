//! The messages of a hart in the order of their numbers, and what is done with those of each number.

ghost use Rattle.std.specs.Prelude.{◌≡◌, IfOk, List};
ghost use Rattle.rvclass.specs.Fetch.{words_of};
ghost use Rattle.message.specs.declared.message.Message.{Message as AnyMessage};
ghost use Rattle.salvaging.specs.steps.Arrivals.{HaveNumbers, HavePlaces, arrivals_in, placed_from};
ghost use Rattle.salvaging.specs.steps.SortedOut.{IsSortedOut};

use crate::received::ReceivedMessage;
use crate::rows::{NumberRow, rows_back};
use crate::treatment::Treatment;
use crate::working::work_out;
use decoder::StraightRuns;
use message::ProgressSink;
use payload::Mode;
use rvclass::ProgramOver;
use std::alloc::{AllocError, Allocator};

/// The messages of a hart in the order of their numbers, and the rows of its numbers, from the greatest on.
#[derive(Drop)]
pub(crate) struct HartRows<'a, A: Allocator> {
    pub(crate) came: Vec<ReceivedMessage<'a>, A>,
    pub(crate) rows: Vec<NumberRow, A>,
}

/// What is done with the messages of a hart, which are in the order in which they came. Each message is told of.
pub(crate) fn sort_out<'a, A: Allocator + Copy, V: ProgressSink>(
    alloc: A,
    program: &ProgramOver,
    lines: &mut StraightRuns<'_, A>,
    mode: Mode,
    came: Vec<ReceivedMessage<'a>, A>,
    watch: &V,
) -> Result<HartRows<'a, A>, AllocError>
    requires lines { lines.old.program.now ≡ program.now }
    requires numbers { HaveNumbers (arrivals_in came.items) }
    requires places { HavePlaces (arrivals_in came.items) }
    ensures sorted { (messages : List AnyMessage) → arrivals_in came.entry.items ≡ placed_from 0 messages
        → IfOk result (IsSortedOut (words_of program.now) mode messages) }
    ensures lines { lines.new.program ≡ lines.old.program }
{
    let mut worked = work_out::<A, V, Treatment>(alloc, program, lines, mode, came, watch)?;
    // The events are of no use here.
    worked.parts.clear();
    let rows = rows_back(
        alloc,
        worked.came.as_slice(),
        worked.marks.as_slice(),
        worked.far.as_slice(),
    )?;
    Ok(HartRows {
        came: worked.came,
        rows,
    })
}
