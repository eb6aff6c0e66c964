//! The classes of 16-bit instructions.

ghost use Rattle.std.specs.Prelude.{◌≡◌, ◌^◌, ◌<◌};
ghost use Rattle.rvclass.specs.Word16.{class16};

use crate::bits::{bits_of, target};
use crate::class::Class;
use crate::offset::{cb_offset_of, cj_offset_of};

/// The instruction C.EBREAK.
const C_EBREAK: u32 = 0x9002;

/// The class of a 16-bit instruction at an address.
#[inline(always)]
#[tactic(auto, unfolding(crate::specs::Word16::class16))]
pub(crate) fn class_of_word16(addr: u64, word: u32) -> Class
    requires { word < 2 ^ 16 }
    ensures { result ≡ class16 addr word }
{
    match (bits_of(word, 1, 0), bits_of(word, 15, 13)) {
        (0b01, 0b101) => Class::Jump(target(addr, cj_offset_of(word), 12)),
        (0b01, 0b110 | 0b111) => Class::Branch(target(addr, cb_offset_of(word), 9)),
        (0b10, 0b100) if bits_of(word, 6, 2) == 0 && bits_of(word, 11, 7) != 0 => {
            Class::Uninferable
        }
        (0b10, 0b100) if word == C_EBREAK => Class::NotRetirable,
        (0b00, 0b000) if word == 0 => Class::NotRetirable,
        _ => Class::Plain,
    }
}
