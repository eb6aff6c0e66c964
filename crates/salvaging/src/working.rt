//! One hart: its messages are worked through in the order of their numbers.

ghost use Rattle.rvclass.specs.Fetch.{words_of};
ghost use Rattle.std.specs.Prelude.{◌≡◌, IfOk};
ghost use Rattle.salvaging.specs.steps.Arrivals.{HaveNumbers, HavePlaces, arrivals_in};
ghost use Rattle.salvaging.specs.steps.Working.{IsWorkedOut};

use crate::beyond::take_beyond;
use crate::ending::count_to_end;
use crate::far::far_flags;
use crate::mark::Mark;
use crate::own_mode::own_mode;
use crate::part::Part;
use crate::received::{ReceivedMessage, put_in_order};
use crate::trail::take_all;
use crate::used::is_closed;
use decoder::StraightRuns;
use message::ProgressSink;
use payload::Mode;
use rvclass::ProgramOver;
use std::alloc::{AllocError, Allocator};

/// A hart whose messages are worked through.
#[derive(Drop)]
pub(crate) struct WorkedHart<'a, A: Allocator, M> {
    /// Its messages in the order of their numbers.
    pub(crate) came: Vec<ReceivedMessage<'a>, A>,
    /// The mode in which its trace is read.
    pub(crate) mode: Mode,
    /// Whether it is closed.
    pub(crate) closed: bool,
    /// What is left of its log.
    pub(crate) parts: Vec<Part<A>, A>,
    /// What is kept of what is done with the messages of each number, in the order of the numbers.
    pub(crate) marks: Vec<M, A>,
    /// Whether each number is far.
    pub(crate) far: Vec<bool, A>,
    /// How many of its messages have a number up to its end.
    pub(crate) end: usize,
}

/// Works through the messages of a hart, which these are in the order in which they came. They are put in the order of
/// their numbers, and what came with each number is read from their list as it is needed. Each message is told of.
pub(crate) fn work_out<'a, A: Allocator + Copy, V: ProgressSink, M: Mark>(
    alloc: A,
    program: &ProgramOver,
    lines: &mut StraightRuns<'_, A>,
    mode: Mode,
    mut came: Vec<ReceivedMessage<'a>, A>,
    watch: &V,
) -> Result<WorkedHart<'a, A, M>, AllocError>
    requires lines { lines.old.program.now ≡ program.now }
    requires numbers { HaveNumbers (arrivals_in came.items) }
    requires places { HavePlaces (arrivals_in came.items) }
    ensures worked { IfOk result (λ hart. IsWorkedOut M.kept (words_of program.now) mode (arrivals_in came.entry.items)
        (arrivals_in hart.came.items) hart) }
    ensures lines { lines.new.program ≡ lines.old.program }
{
    put_in_order(came.as_mut_slice());
    let ordered = came.as_slice();
    let far = far_flags(alloc, ordered)?;
    let own = own_mode(mode, ordered);
    let end = count_to_end(alloc, program, own, ordered)?;
    let upto = &ordered[..end];
    let mut outcome = take_all::<A, V, M>(alloc, program, lines, own, upto, watch)?;
    let beyond = &ordered[end..];
    take_beyond(alloc, program, own, beyond, &mut outcome)?;
    watch.note(beyond.len());
    let closed = is_closed(upto);
    Ok(WorkedHart {
        came,
        mode: own,
        closed,
        parts: outcome.parts,
        marks: outcome.marks,
        far,
        end,
    })
}
