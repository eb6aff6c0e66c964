//! The shortest bytes of a number of a width, which go on with copies of its top bit.
ghost use Rattle.std.specs.Prelude.{◌≡◌, ◌+◌, ◌-◌, ◌*◌, ◌%◌, ◌^◌, ◌<◌, ◌≤◌};
ghost use Rattle.payload.specs.Extension.{extended, magnitude, fewest_bytes};
ghost use Rattle.payload.specs.Limits.{most_bytes};
ghost use Rattle.payload.specs.Spelling.{shortest_bytes};

use crate::Payload;
use crate::layout::TVAL;

/// The shortest bytes of a number of `width` bits.
pub(crate) fn spell(width: u32, n: u128) -> Payload
    requires some { 1 ≤ width }
    requires few { width ≤ 120 }
    requires fits { n < 2 ^ width }
    ensures { result ≡ shortest_bytes width n }
{
    Payload::of_low_bytes(extended_of(width, n), byte_count(magnitude_of(width, n)))
}

/// The lowest 128 bits of a number of `width` bits that goes on with copies of its top bit.
#[inline(always)]
#[tactic(auto, unfolding(crate::specs::Extension::extended))]
fn extended_of(width: u32, n: u128) -> u128
    requires some { 1 ≤ width }
    requires few { width ≤ 120 }
    requires fits { n < 2 ^ width }
    ensures { result ≡ extended width n % 2 ^ 128 }
{
    if n < 1 << (width - 1) {
        n
    } else {
        n + (u128::MAX - ((1 << width) - 1))
    }
}

/// A number of `width` bits, each bit turned where the top bit is 1.
#[inline(always)]
#[tactic(auto, unfolding(crate::specs::Extension::magnitude))]
fn magnitude_of(width: u32, n: u128) -> u128
    requires some { 1 ≤ width }
    requires few { width ≤ 120 }
    requires fits { n < 2 ^ width }
    ensures value { result ≡ magnitude width n }
    ensures below { result < 2 ^ (width - 1) }
{
    if n < 1 << (width - 1) {
        n
    } else {
        (1 << width) - 1 - n
    }
}

/// The fewest bytes whose bits below the top one hold a magnitude.
#[inline(always)]
fn byte_count(magnitude: u128) -> usize
    requires { magnitude < 2 ^ 127 }
    ensures value { result ≡ fewest_bytes magnitude }
    ensures some { 1 ≤ result }
    ensures few { result ≤ 16 }
{
    (128 - magnitude.leading_zeros()) as usize / 8 + 1
}

/// The shortest bytes of an exception's bits: `head` is the bits below `tval`, and `rest` is `tval`.
pub(crate) fn spell_long(head: u128, rest: u64) -> Payload
    requires { head < 2 ^ 78 }
    ensures { result ≡ shortest_bytes 142 (head + 2 ^ 78 * rest) }
{
    let low = head + (u128::from(rest % (1 << 50)) << TVAL.from);
    let high = (rest >> 50) as u16;
    if rest < 1 << 63 {
        Payload::of_low_bytes_long(low, high, byte_count_long(head, rest))
    } else {
        let count = byte_count_long((1 << TVAL.from) - 1 - head, u64::MAX - rest);
        Payload::of_low_bytes_long(low, high + 0xc000, count)
    }
}

/// The fewest bytes whose bits below the top one hold a magnitude of 141 bits; `rest` is the highest 63 of them.
fn byte_count_long(head: u128, rest: u64) -> usize
    requires head { head < 2 ^ 78 }
    requires rest { rest < 2 ^ 63 }
    ensures value { result ≡ fewest_bytes (head + 2 ^ 78 * rest) }
    ensures some { 1 ≤ result }
    ensures few { result ≤ most_bytes }
{
    if rest == 0 {
        byte_count(head)
    } else {
        (142 - rest.leading_zeros()) as usize / 8 + 1
    }
}
