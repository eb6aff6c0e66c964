//! Bits of an instruction.

ghost use Rattle.std.specs.Prelude.{◌≡◌, ◌+◌, ◌-◌, ◌^◌, ◌<◌, ◌≤◌};
ghost use Rattle.rvclass.specs.Bits.{bits, moved};

/// The bits from `high` down to `low` of an instruction.
#[inline]
pub(crate) fn bits_of(word: u32, high: u32, low: u32) -> u32
    requires order { low ≤ high }
    requires within { high < 32 }
    requires narrow { high < low + 31 }
    ensures value { result ≡ bits word high low }
    ensures below { result < 2 ^ (high + 1 - low) }
{
    (word >> low) & ((1 << (high + 1 - low)) - 1)
}

/// An address moved by an offset of `width` bits, modulo 2^64.
#[inline]
pub(crate) fn target(addr: u64, offset: u32, width: u32) -> u64
    requires some { 1 ≤ width }
    requires short { width < 32 }
    requires fits { offset < 2 ^ width }
    ensures { result ≡ moved width addr offset }
{
    let offset = u64::from(offset);
    let extended = if offset < 1 << (width - 1) {
        offset
    } else {
        offset.wrapping_sub(1 << width)
    };
    addr.wrapping_add(extended)
}
