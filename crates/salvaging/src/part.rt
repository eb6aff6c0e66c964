//! A part of what is left of a hart's log.

ghost use Rattle.std.specs.Prelude.{[], ◌∷◌, OnOk};
ghost use Rattle.salvaging.specs.LeftParts.{gap};
ghost use Rattle.salvaging.specs.PartsIn.{part_of};
ghost use Rattle.salvaging.specs.steps.UnderWay.{AddsParts};

use crate::reason::Reason;
use retire::Event;
use std::alloc::{AllocError, Allocator, Global};

/// A part of what is left of a hart's log.
#[derive(Drop)]
pub enum Part<A: Allocator = Global> {
    /// A gap: how many numbers did not come or are doubtful, one at least.
    Gap(u64),
    /// A stretch: events that follow one another.
    Stretch {
        /// The number of the packet that begins it: of one that opens the trace, or of a synchronisation.
        first: u64,
        /// The number of its last packet.
        last: u64,
        /// Its events, one at least.
        events: Vec<Event, A>,
    },
    /// A number whose message is bad.
    Bad {
        /// The number.
        number: u64,
        /// The place of its first message among the messages of the hart, from 0 and in the order in which they came. A
        /// stranger has no place.
        place: usize,
        /// Why it is bad.
        why: Reason,
    },
    /// A doubtful number: it came with two payloads, and none of them is used.
    Doubtful {
        /// The number.
        number: u64,
        /// The place of its first message among the messages of the hart, as of a bad one.
        first: usize,
        /// The place of the first message with the number after it whose payload is another.
        second: usize,
    },
    /// A number that stands alone: it is greater than that of the packet at which the hart ends.
    Alone {
        /// The number.
        number: u64,
        /// The place of its first message, as of a bad one.
        place: usize,
    },
}

/// Adds a part after the parts.
pub(crate) fn push_part<A: Allocator>(
    parts: &mut Vec<Part<A>, A>,
    part: Part<A>,
) -> Result<(), AllocError>
    ensures { OnOk result (AddsParts (part_of part ∷ []) parts.old.items parts.new.items) }
{
    parts.reserve(1)?;
    parts.push_reserved(part);
    Ok(())
}

/// Adds a gap of this many numbers after the parts, where there is one.
pub(crate) fn push_gap<A: Allocator>(
    parts: &mut Vec<Part<A>, A>,
    lost: u64,
) -> Result<(), AllocError>
    ensures { OnOk result (AddsParts (gap lost) parts.old.items parts.new.items) }
{
    if lost > 0 {
        parts.reserve(1)?;
        parts.push_reserved(Part::Gap(lost));
    }
    Ok(())
}
