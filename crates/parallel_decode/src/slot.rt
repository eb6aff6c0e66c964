//! What a thread decodes stretches into.

ghost use Rattle.std.specs.Prelude.{◌≡◌, ◌<◌, false, All, IfOk, length};
ghost use Rattle.parallel_decode.specs.steps.Filled.{IsFilled};
ghost use Rattle.parallel_decode.specs.steps.Stretches.{HaveTexts};

use crate::RowBuffers;
use crate::stretch::Plan;
use crate::text::Text;
use crate::writing::write_stretch;
use std::alloc::{AllocError, Global};

/// What a thread decodes a stretch into.
#[derive(Drop)]
pub(crate) struct Slot {
    /// What the rows pass through on their way to the text.
    pub(crate) rows: RowBuffers,
    /// What the stretch adds.
    pub(crate) text: Text,
    /// The place of the stretch that is decoded into it.
    pub(crate) place: usize,
    /// The place after it, or 0 of a new slot. Once so many stretches were written, the slot is free.
    pub(crate) end: usize,
    /// Whether its text is all that the stretch adds. Else it is new, or it lacked the capacity.
    pub(crate) is_whole: bool,
}

impl Slot {
    /// A slot for texts of this many bytes.
    fn new(alloc: Global, size: usize) -> Result<Slot, AllocError>
        ensures { IfOk result (λ slot. slot.is_whole ≡ false) }
    {
        Ok(Slot {
            rows: RowBuffers::new(alloc)?,
            text: Text {
                held: Vec::with_capacity(alloc, size)?,
            },
            place: 0,
            end: 0,
            is_whole: false,
        })
    }
}

/// This many slots for texts of this many bytes.
pub(crate) fn slots_of(alloc: Global, count: usize, size: usize) -> Result<Vec<Slot>, AllocError>
    ensures { IfOk result (λ slots. All (λ slot. slot.is_whole ≡ false) slots.items) }
{
    let mut slots = Vec::with_capacity(alloc, count)?;
    for _ in 0..count {
        slots.push_reserved(Slot::new(alloc, size)?);
    }
    Ok(slots)
}

/// Decodes the stretch at a place into a slot, if there is capacity for all of its text.
pub(crate) fn fill_slot(plan: &Plan<'_>, place: usize, slot: &mut Slot)
    requires sound { HaveTexts plan.now }
    requires within { place < length plan.now.stretches.now }
    ensures { IsFilled plan.now slot.new }
{
    slot.text.held.clear();
    slot.place = place;
    slot.end = place + 1;
    let stretch = &plan.stretches[place];
    let written = write_stretch(plan, stretch, &mut slot.rows, &mut slot.text);
    slot.is_whole = written.is_ok();
}
