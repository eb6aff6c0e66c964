//! What is left after the end of a hart.

ghost use Rattle.std.specs.Prelude.{◌≡◌, IfOk, OnOk};
ghost use Rattle.rvclass.specs.Fetch.{words_of};
ghost use Rattle.salvaging.specs.Ends.{LeavesBeyond};
ghost use Rattle.salvaging.specs.Entries.{next_used};
ghost use Rattle.salvaging.specs.PartsIn.{part_of};
ghost use Rattle.salvaging.specs.Treatments.{treatment_of};
ghost use Rattle.salvaging.specs.steps.Arrivals.{arrivals_in};
ghost use Rattle.salvaging.specs.steps.Ending.{TakesBeyond, share_of_part};
ghost use Rattle.salvaging.specs.steps.Grouping.{entries_by, entry_of};

use crate::ending::reason_alone;
use crate::entry::Entry;
use crate::grouping::first_entry;
use crate::mark::Mark;
use crate::part::{Part, push_part};
use crate::received::ReceivedMessage;
use crate::trail::HartOutcome;
use crate::treatment::Treatment;
use payload::Mode;
use rvclass::ProgramOver;
use std::alloc::{AllocError, Allocator};

/// The part that an entry beyond the end of its hart leaves. `behind` are the messages with greater numbers.
fn part_beyond<A: Allocator + Copy>(
    alloc: A,
    program: &ProgramOver,
    mode: Mode,
    entry: Entry<'_>,
    behind: &[ReceivedMessage<'_>],
) -> Result<Part<A>, AllocError>
    ensures { IfOk result (λ part. LeavesBeyond (words_of program.now) mode (entry_of entry.entry)
        (next_used (entries_by (arrivals_in behind.now))) (part_of part)) }
{
    match entry {
        Entry::Used { place, message } => {
            let number = message.number;
            match reason_alone(alloc, program, mode, &message.payload, behind)? {
                None => Ok(Part::Alone { number, place }),
                Some(why) => Ok(Part::Bad { number, place, why }),
            }
        }
        Entry::Doubtful {
            number,
            first,
            second,
        } => Ok(Part::Doubtful {
            number,
            first,
            second,
        }),
    }
}

/// What is done with the message of an entry that leaves this part, beyond the end of its hart.
fn treated_beyond<A: Allocator>(part: &Part<A>) -> Treatment
    ensures { result ≡ treatment_of (share_of_part (part_of part.now)) }
{
    match part {
        Part::Bad { why, .. } => Treatment::Bad(*why),
        Part::Alone { .. } => Treatment::Alone,
        _ => Treatment::Doubtful,
    }
}

/// Takes the messages beyond the end of their hart, which are in the order of their numbers. The mode is the hart's
/// own.
pub(crate) fn take_beyond<A: Allocator + Copy, M: Mark>(
    alloc: A,
    program: &ProgramOver,
    mode: Mode,
    came: &[ReceivedMessage<'_>],
    outcome: &mut HartOutcome<A, M>,
) -> Result<(), AllocError>
    ensures { OnOk result (TakesBeyond M.kept (words_of program.now) mode (entries_by (arrivals_in came.now)) outcome.old
        outcome.new) }
{
    let mut rest = came;
    while let Some((entry, count)) = first_entry(rest) {
        let behind = &rest[count..];
        let part = part_beyond(alloc, program, mode, entry, behind)?;
        outcome.marks.reserve(1)?;
        outcome.marks.push_reserved(M::of(treated_beyond(&part)));
        push_part(&mut outcome.parts, part)?;
        rest = behind;
    }
    Ok(())
}
