//! The image of a program.

ghost use Rattle.std.specs.Prelude.{◌≡◌, ◌<◌, IfOk};
ghost use Rattle.stimulus.specs.ImageBytes.{drawn_word, image_bytes};

use crate::mix::{Mix, bounds_of};
use crate::words::{SLOTS, slot_word};
use rand_core::utils::NextWord;
use rand_pcg::Pcg32;
use std::alloc::{AllocError, Allocator};

/// How many bytes the image of a program has.
pub const IMAGE_SIZE: usize = 4096;

/// The image of the program that a mix and a seed give, as `docs/FORMATS.md` lays it out. The error says that the
/// allocation failed.
pub fn image_of<A: Allocator>(alloc: A, mix: Mix, seed: u64) -> Result<Vec<u8, A>, AllocError>
    ensures { IfOk result (λ image. image.items ≡ image_bytes mix seed) }
{
    let mut image = Vec::with_capacity(alloc, IMAGE_SIZE)?;
    for slot in 0..SLOTS {
        let bytes = drawn_word(mix, seed, slot).to_le_bytes();
        image.extend_from_slice(&bytes)?;
    }
    Ok(image)
}

/// The word of a slot.
#[tactic(auto, unfolding(crate::specs::ImageBytes::drawn_word))]
fn drawn_word(mix: Mix, seed: u64, slot: u32) -> u32
    requires { slot < 1024 }
    ensures { result ≡ drawn_word mix seed slot }
{
    let bounds = bounds_of(mix);
    let mut random = Pcg32::new(seed, u64::from(slot));
    let pick = random.next_word();
    let bits = random.next_word();
    slot_word(&bounds, slot, pick % 256, bits)
}
