//! What is salvaged of one hart.

ghost use Rattle.std.specs.Prelude.{◌≡◌, IfOk, List};
ghost use Rattle.rvclass.specs.Fetch.{words_of};
ghost use Rattle.message.specs.declared.message.Message.{Message as AnyMessage};
ghost use Rattle.salvaging.specs.Salvaged.{IsSalvagedHart};
ghost use Rattle.salvaging.specs.steps.Arrivals.{HaveNumbers, HavePlaces, arrivals_in, placed_from};

use crate::copies::copies;
use crate::gaps::report_of;
use crate::late::late;
use crate::mark::Verdict;
use crate::received::ReceivedMessage;
use crate::salvaged::SalvagedHart;
use crate::tally::tally;
use crate::working::work_out;
use decoder::StraightRuns;
use message::ProgressSink;
use payload::Mode;
use rvclass::ProgramOver;
use std::alloc::{AllocError, Allocator};

/// Salvages what is left of a hart, whose messages these are in the order in which they came. Each message is told of.
pub(crate) fn salvage_hart<A: Allocator + Copy, V: ProgressSink>(
    alloc: A,
    program: &ProgramOver,
    lines: &mut StraightRuns<'_, A>,
    mode: Mode,
    came: Vec<ReceivedMessage<'_>, A>,
    watch: &V,
) -> Result<SalvagedHart<A>, AllocError>
    requires lines { lines.old.program.now ≡ program.now }
    requires numbers { HaveNumbers (arrivals_in came.items) }
    requires places { HavePlaces (arrivals_in came.items) }
    ensures salvaged { (messages : List AnyMessage) → arrivals_in came.entry.items ≡ placed_from 0 messages
        → IfOk result (IsSalvagedHart (words_of program.now) mode messages) }
    ensures lines { lines.new.program ≡ lines.old.program }
{
    let worked = work_out::<A, V, Verdict>(alloc, program, lines, mode, came, watch)?;
    let ordered = worked.came.as_slice();
    let verdicts = worked.marks.as_slice();
    let flags = worked.far.as_slice();
    let upto = &ordered[..worked.end];
    let report = report_of(alloc, upto, verdicts, flags)?;
    let copies = copies(ordered);
    let late = late(ordered, verdicts, flags);
    let tally = tally(verdicts);
    let doubtful = ordered.len() - copies - tally.used;
    Ok(SalvagedHart {
        parts: worked.parts,
        copies,
        gaps: report.gaps,
        far: report.far,
        late,
        decoded: tally.decoded,
        passed: tally.passed,
        doubtful,
        closed: worked.closed,
        mode: worked.mode,
    })
}
