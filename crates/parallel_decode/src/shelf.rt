//! Slots that threads share.

ghost use Rattle.std.specs.Prelude.{⊤, ◌≡◌, false, All};
ghost use Rattle.parallel_decode.specs.declared.slot.Slot.{Slot as AnySlot};

use crate::slot::Slot;
use std::alloc::{AllocError, Global};
use std::marker::{Brand, PhantomData};
use std::sync::Mutex;

/// Stands in a type for what slots hold. So a thread knows what a slot holds that another thread filled.
pub(crate) trait Held {
    /// A slot may hold this.
    ghost Holds: { AnySlot → Type 0 };
}

/// At the call that starts the threads a proof says what slots hold, in place of what stands here.
impl Held for Brand {
    ghost Holds = { λ _. ⊤ };
}

/// A slot that threads share. The bytes round it keep what the thread writes that fills it in cache lines that no other
/// thread looks at.
#[derive(Drop)]
pub(crate) struct Shelf<H: Held> {
    before: [u8; 128],
    pub(crate) slot: Slot,
    after: [u8; 128],
    held: PhantomData<H>,
    pub(crate) ghost holds: { ∥ H.Holds slot ∥₁ },
}

impl<H: Held> Shelf<H> {
    /// A shelf for a slot that is new.
    fn new(slot: Slot) -> Shelf<H>
        requires said { (any : AnySlot) → any.is_whole ≡ false → ∥ H.Holds any ∥₁ }
        requires new { slot.is_whole ≡ false }
    {
        Shelf {
            before: [0; 128],
            slot,
            after: [0; 128],
            held: PhantomData,
        }
    }
}

/// A shelf for each of these slots, which are new.
pub(crate) fn shelves_of<H: Held>(
    alloc: Global,
    slots: Vec<Slot>,
) -> Result<Vec<Mutex<Shelf<H>>>, AllocError>
    requires said { (any : AnySlot) → any.is_whole ≡ false → ∥ H.Holds any ∥₁ }
    requires new { All (λ slot. slot.is_whole ≡ false) slots.items }
{
    let mut shelves = Vec::with_capacity(alloc, slots.len())?;
    for slot in slots {
        shelves.push(Mutex::new(Shelf::new(slot)))?;
    }
    Ok(shelves)
}
