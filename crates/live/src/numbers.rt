//! The numbers of a hart.

ghost use Rattle.std.specs.Prelude.{◌≡◌, slice_get};
ghost use Rattle.live.specs.steps.Judging.{harts_new, new_by};
ghost use Rattle.live.specs.steps.Passing.{harts_without};
ghost use Rattle.live.specs.steps.Reading.{harts_read, refusal_by};

use crate::fault::ReadFault;
use auditing::Finding;
use message::DemuxFault;
use std::alloc::Allocator;

/// The numbers of a hart.
#[derive(Clone, Copy)]
pub(crate) struct Numbers {
    /// How many are given up.
    pub(crate) gone: u64,
    /// How many were read.
    pub(crate) read: u64,
    /// The number after the greatest of the true messages that came, 0 where none came.
    pub(crate) past: u64,
}

impl Numbers {
    /// Before the first message of SENT.
    pub(crate) const NONE: Numbers = Numbers {
        gone: 0,
        read: 0,
        past: 0,
    };
}

/// Why the next message of SENT may not be one of this hart with this number, if it may not.
pub(crate) fn refusal(harts: &[Numbers], hart: u16, number: u64) -> Option<ReadFault>
    ensures { result ≡ refusal_by (slice_get harts.now hart) number }
{
    let Some(own) = harts.get(usize::from(hart)) else {
        return Some(ReadFault::Misplaced(DemuxFault::Stranger));
    };
    if number < own.read {
        Some(ReadFault::Misplaced(DemuxFault::Repeat))
    } else if number > own.read {
        Some(ReadFault::Misplaced(DemuxFault::Gap { expected: own.read }))
    } else if number == u64::MAX {
        Some(ReadFault::Full)
    } else {
        None
    }
}

/// Counts a number of a hart that is read.
pub(crate) fn count_read<A: Allocator>(harts: &mut Vec<Numbers, A>, hart: u16, number: u64)
    ensures { harts.new.items ≡ harts_read harts.old.items hart number (slice_get harts.old.items hart) }
{
    if let Some(own) = harts.get_mut(usize::from(hart)) {
        own.read = number.saturating_add(1);
    }
}

/// Counts a number of a hart that is given up.
pub(crate) fn give_up<A: Allocator>(harts: &mut Vec<Numbers, A>, hart: u16, number: u64)
    ensures { harts.new.items ≡ harts_without harts.old.items hart number (slice_get harts.old.items hart) }
{
    if let Some(own) = harts.get_mut(usize::from(hart)) {
        own.gone = number.saturating_add(1);
    }
}

/// What is found of a new message of a hart.
pub(crate) fn new_finding(harts: &[Numbers], hart: u16, number: u64) -> Finding
    ensures { result ≡ new_by (slice_get harts.now hart) number }
{
    let Some(own) = harts.get(usize::from(hart)) else {
        return Finding::Stranger;
    };
    if number < own.past.saturating_sub(1) {
        Finding::Late {
            by: own.past.saturating_sub(1).saturating_sub(number),
        }
    } else {
        Finding::InOrder {
            skips: number.saturating_sub(own.past),
        }
    }
}

/// A true message of a hart came.
pub(crate) fn count_true<A: Allocator>(harts: &mut Vec<Numbers, A>, hart: u16, number: u64)
    ensures { harts.new.items ≡ harts_new harts.old.items hart number (slice_get harts.old.items hart) }
{
    if let Some(own) = harts.get_mut(usize::from(hart)) {
        own.past = own.past.max(number.saturating_add(1));
    }
}
