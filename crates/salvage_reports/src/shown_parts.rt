//! What is said of each part of a hart's log, where its far numbers are not believed.

ghost use Rattle.std.specs.Prelude.{◌≡◌, option_map};
ghost use Rattle.salvaging.specs.PartsIn.{part_of};
ghost use Rattle.salvage_reports.specs.ShownParts.{far_item, gap_item, gone_after, shown_item};

use crate::offsets::offset_at;
use crate::salvaged_items::{Counted, Item, item_of};
use salvaging::{FarNumber, FarTreatment, Part};

/// What is reported of a hart beside its parts.
#[derive(Clone, Copy)]
pub(crate) struct Reported<'a> {
    /// Which hart it is.
    pub(crate) hart: usize,
    /// Where its messages are.
    pub(crate) offsets: &'a [usize],
    /// How many numbers each gap among its parts misses; 0 before a far number.
    pub(crate) gaps: &'a [u64],
    /// Its far numbers.
    pub(crate) far: &'a [FarNumber],
}

/// How many of a hart's gaps and of its far numbers were before a part.
#[derive(Clone, Copy)]
pub(crate) struct Gone {
    pub(crate) gaps: usize,
    pub(crate) far: usize,
}

/// What is said of a far number, if there is one: nothing where its message is bad.
fn far_item(reported: Reported<'_>, far: Option<&FarNumber>) -> Option<Item>
    ensures { result ≡ far_item reported.entry.hart reported.entry.offsets.now
        (option_map (λ one. one.now) far.entry) }
{
    let Some(far) = far else {
        return None;
    };
    match far.treatment {
        FarTreatment::Bad => None,
        FarTreatment::Taken | FarTreatment::Passed => Some(Item::Far {
            hart: reported.hart,
            number: far.number,
            offset: offset_at(reported.offsets, far.place),
        }),
    }
}

/// What is said of a gap that misses so many numbers: how many, or the far number after it.
fn gap_item(reported: Reported<'_>, missing: u64, far: Option<&FarNumber>) -> Option<Item>
    ensures { result ≡ gap_item reported.entry.hart reported.entry.offsets.now missing
        (option_map (λ one. one.now) far.entry) }
{
    if missing == 0 {
        return far_item(reported, far);
    }
    Some(Item::Messages {
        hart: reported.hart,
        what: Counted::Gap,
        count: missing,
    })
}

/// What is said of a part, where so many gaps and far numbers of its hart were before it.
pub(crate) fn shown_item(reported: Reported<'_>, gone: Gone, part: &Part) -> Option<Item>
    ensures { result ≡ shown_item reported.entry.hart reported.entry.offsets.now reported.entry.gaps.now
        reported.entry.far.now gone (part_of part.now) }
{
    match part {
        Part::Gap(missing) => {
            let missing = match reported.gaps.get(gone.gaps) {
                Some(count) => *count,
                None => *missing,
            };
            gap_item(reported, missing, reported.far.get(gone.far))
        }
        other => Some(item_of(reported.hart, reported.offsets, other)),
    }
}

/// How many gaps and far numbers were before what comes after a part.
pub(crate) fn gone_after(reported: Reported<'_>, gone: Gone, part: &Part) -> Gone
    ensures { result ≡ gone_after reported.entry.gaps.now reported.entry.far.now gone (part_of part.now) }
{
    let Part::Gap(_) = part else {
        return gone;
    };
    match (reported.gaps.get(gone.gaps), reported.far.get(gone.far)) {
        (None, _) => gone,
        (Some(0), Some(_)) => Gone {
            gaps: gone.gaps + 1,
            far: gone.far + 1,
        },
        (Some(_), _) => Gone {
            gaps: gone.gaps + 1,
            far: gone.far,
        },
    }
}
