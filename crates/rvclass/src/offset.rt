//! Offsets of jumps and branches.

ghost use Rattle.std.specs.Prelude.{◌≡◌, ◌^◌, ◌<◌};
ghost use Rattle.rvclass.specs.Offset.{b_offset, cb_offset, cj_offset, i_offset, j_offset};

use crate::bits::bits_of;

/// The offset of JAL, 21 bits.
#[inline]
pub(crate) fn j_offset_of(word: u32) -> u32
    ensures value { result ≡ j_offset word }
    ensures below { result < 2 ^ 21 }
{
    (bits_of(word, 31, 31) << 20)
        + (bits_of(word, 19, 12) << 12)
        + (bits_of(word, 20, 20) << 11)
        + (bits_of(word, 30, 21) << 1)
}

/// The offset of a conditional branch, 13 bits.
#[inline]
pub(crate) fn b_offset_of(word: u32) -> u32
    ensures value { result ≡ b_offset word }
    ensures below { result < 2 ^ 13 }
{
    (bits_of(word, 31, 31) << 12)
        + (bits_of(word, 7, 7) << 11)
        + (bits_of(word, 30, 25) << 5)
        + (bits_of(word, 11, 8) << 1)
}

/// The offset of JALR with its bit 0 cleared, 12 bits.
#[inline]
pub(crate) fn i_offset_of(word: u32) -> u32
    ensures value { result ≡ i_offset word }
    ensures below { result < 2 ^ 12 }
{
    bits_of(word, 31, 21) << 1
}

/// The offset of C.J, 12 bits.
#[inline]
pub(crate) fn cj_offset_of(word: u32) -> u32
    ensures value { result ≡ cj_offset word }
    ensures below { result < 2 ^ 12 }
{
    (bits_of(word, 12, 12) << 11)
        + (bits_of(word, 8, 8) << 10)
        + (bits_of(word, 10, 9) << 8)
        + (bits_of(word, 6, 6) << 7)
        + (bits_of(word, 7, 7) << 6)
        + (bits_of(word, 2, 2) << 5)
        + (bits_of(word, 11, 11) << 4)
        + (bits_of(word, 5, 3) << 1)
}

/// The offset of C.BEQZ and C.BNEZ, 9 bits.
#[inline]
pub(crate) fn cb_offset_of(word: u32) -> u32
    ensures value { result ≡ cb_offset word }
    ensures below { result < 2 ^ 9 }
{
    (bits_of(word, 12, 12) << 8)
        + (bits_of(word, 6, 5) << 6)
        + (bits_of(word, 2, 2) << 5)
        + (bits_of(word, 11, 10) << 3)
        + (bits_of(word, 4, 3) << 1)
}
