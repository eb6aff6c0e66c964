//! The instruction that was fetched at an address.

ghost use Rattle.std.specs.Prelude.{◌≡◌, ◌^◌, ◌<◌, None};
ghost use Rattle.rvclass.specs.steps.ByFetch.{instruction_by_fetch, word_by_fetch, word_by_half};

use crate::Fetched;
use crate::bits::bits_of;
use crate::class::Class;
use crate::instruction::Instruction;
use crate::word16::class_of_word16;
use crate::word32::class_of_word32;

/// The class and the length of the instruction at an address where this was fetched.
#[inline(always)]
pub(crate) fn word_of(addr: u64, fetched: Fetched) -> Option<(Class, u8)>
    ensures { result ≡ word_by_fetch addr fetched }
{
    if !addr.is_multiple_of(2) {
        return None;
    }
    match fetched {
        Fetched::Word(word) => {
            let half = word % (1 << 16);
            if bits_of(half, 1, 0) != 0b11 {
                return Some((class_of_word16(addr, half), 2));
            }
            if bits_of(half, 4, 0) == 0b1_1111 {
                return Some((Class::NotRetirable, 2));
            }
            Some((class_of_word32(addr, word), 4))
        }
        Fetched::Half(half) => word_of_half(addr, half % (1 << 16)),
        Fetched::Nothing => None,
    }
}

/// The class and the length of the instruction at an address where these 16 bits are all.
#[inline]
fn word_of_half(addr: u64, half: u32) -> Option<(Class, u8)>
    requires { half < 2 ^ 16 }
    ensures { result ≡ word_by_half addr half None }
{
    if bits_of(half, 1, 0) != 0b11 {
        return Some((class_of_word16(addr, half), 2));
    }
    if bits_of(half, 4, 0) == 0b1_1111 {
        return Some((Class::NotRetirable, 2));
    }
    None
}

/// The instruction at an address with its bits, where this was fetched.
pub(crate) fn instruction_from(addr: u64, fetched: Fetched) -> Option<Instruction>
    ensures { result ≡ instruction_by_fetch addr fetched }
{
    let (class, length) = word_of(addr, fetched)?;
    let bits = match fetched {
        Fetched::Word(word) => word,
        Fetched::Half(half) => half,
        Fetched::Nothing => 0,
    };
    let code = if length == 2 { bits % (1 << 16) } else { bits };
    Some(Instruction {
        code,
        length,
        class,
    })
}
