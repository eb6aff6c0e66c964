//! The bits that bytes spell, which go on with copies of the last byte's top bit.
ghost use Rattle.std.specs.Prelude.{◌≡◌, ◌+◌, ◌-◌, ◌*◌, ◌/◌, ◌%◌, ◌^◌, ◌<◌, ◌≤◌, ◌++◌, nat_lt, length, replicate, take};
ghost use Rattle.std.specs.Prelude.{drop, ℕ};
ghost use Rattle.payload.specs.Bytes.{number};
ghost use Rattle.payload.specs.Extension.{extended, magnitude};
ghost use Rattle.payload.specs.Faults.{bits_of, part, field_at};
ghost use Rattle.payload.specs.Layout.{tval_at, exception_width};
ghost use Rattle.payload.specs.Limits.{most_bytes};

use crate::layout::{Place, TVAL};
use std::marker::Model;

/// 144 bits, the most that a payload holds, seen as one number.
#[derive(Drop)]
pub(crate) struct Bits {
    low: u128,
    high: u16,
}

impl Model for Bits {
    ghost Value = { ℕ };

    ghost view = { λ b. b.low + 2 ^ 128 * b.high };

    ghost invariant = { λ b. (b.low < 2 ^ 128) × (b.high < 2 ^ 16) };
}

impl Bits {
    /// The bits of 1 to 18 bytes.
    #[inline(always)]
    pub(crate) fn read(bytes: &[u8]) -> Bits
        requires some { 1 ≤ length bytes.now }
        requires few { length bytes.now ≤ most_bytes }
        ensures { result ≡ bits_of bytes.now }
    {
        if bytes.len() < 16 {
            Bits::going_on(bytes.len(), number_below_16(bytes))
        } else {
            Bits::read_long(bytes)
        }
    }

    /// The bits of a number of this many bytes, which go on with copies of its top bit.
    #[inline(always)]
    #[tactic(auto, unfolding(crate::specs::Extension::extended))]
    fn going_on(count: usize, n: u128) -> Bits
        requires some { 1 ≤ count }
        requires few { count ≤ 15 }
        requires fits { n < 2 ^ (8 * count) }
        ensures { result ≡ extended (8 * count) n }
    {
        let width = 8 * count as u32;
        if n < 1 << (width - 1) {
            Bits { low: n, high: 0 }
        } else {
            Bits {
                low: n + (u128::MAX - ((1 << width) - 1)),
                high: u16::MAX,
            }
        }
    }

    /// The bits of 16 to 18 bytes.
    #[inline(never)]
    fn read_long(bytes: &[u8]) -> Bits
        requires some { 16 ≤ length bytes.now }
        requires few { length bytes.now ≤ most_bytes }
        ensures { result ≡ bits_of bytes.now }
    {
        let fill = if bytes[bytes.len() - 1] < 0x80 {
            0x00
        } else {
            0xff
        };
        Bits {
            low: number_of_16(&bytes[..16], fill),
            high: number_of_2(&bytes[16..], fill),
        }
    }

    /// The `width` bits from the bit `from` on.
    #[inline(always)]
    pub(crate) fn part(&self, from: u32, width: u32) -> u64
        requires inside { from + width ≤ 128 }
        requires some { 1 ≤ width }
        requires narrow { width ≤ 64 }
        ensures { result ≡ part self.now from width }
    {
        ((self.low >> from) & ((1 << width) - 1)) as u64
    }

    /// The field at this place.
    #[inline(always)]
    pub(crate) fn field(&self, place: Place) -> u64
        requires inside { place.from + place.width ≤ 128 }
        requires some { 1 ≤ place.width }
        requires narrow { place.width ≤ 64 }
        ensures { result ≡ part self.now place.from place.width }
    {
        self.part(place.from, place.width)
    }

    /// `tval` of an exception.
    pub(crate) fn tval(&self) -> u64
        ensures { result ≡ field_at self.now tval_at }
    {
        ((self.low >> TVAL.from) as u64) + (u64::from(self.high % (1 << 14)) << 50)
    }

    /// Whether all bits from the bit `width - 1` on are the same.
    #[inline(always)]
    pub(crate) fn has_width(&self, width: u32) -> bool
        requires some { 1 ≤ width }
        requires inside { width ≤ 120 }
        ensures { result ≡ nat_lt (magnitude 144 self.now) (2 ^ (width - 1)) }
    {
        let half = 1 << (width - 1);
        if self.high == 0 {
            self.low < half
        } else if self.high == u16::MAX {
            self.low > u128::MAX - half
        } else {
            false
        }
    }

    /// Whether all bits from the last one of an exception on are the same.
    pub(crate) fn has_width_of_exception(&self) -> bool
        ensures { result ≡ nat_lt (magnitude 144 self.now) (2 ^ (exception_width - 1)) }
    {
        let top = self.high >> 13;
        top == 0b000 || top == 0b111
    }
}

/// The number that up to 15 bytes spell. At most two machine words are read of them; they overlap where the count is no
/// power of 2.
#[inline(always)]
fn number_below_16(bytes: &[u8]) -> u128
    requires some { 1 ≤ length bytes.now }
    requires few { length bytes.now ≤ 15 }
    ensures value { result ≡ number bytes.now }
    ensures below { result < 2 ^ (8 * length bytes.now) }
{
    let count = bytes.len();
    if count >= 8 {
        u128::from(word(bytes, 0))
            + ((u128::from(word(bytes, count - 8)) >> (8 * (16 - count))) << 64)
    } else if count >= 4 {
        u128::from(half(bytes, 0))
            + ((u128::from(half(bytes, count - 4)) >> (8 * (8 - count))) << 32)
    } else if count >= 2 {
        u128::from(pair(bytes, 0))
            + ((u128::from(pair(bytes, count - 2)) >> (8 * (4 - count))) << 16)
    } else {
        u128::from(bytes[0])
    }
}

/// The number that 8 bytes spell, from this one on.
#[inline(always)]
fn word(bytes: &[u8], from: usize) -> u64
    requires { from + 8 ≤ length bytes.now }
    ensures { result ≡ number (take 8 (drop from bytes.now)) }
{
    let mut part = [0; 8];
    part.copy_from_slice(&bytes[from..from + 8]);
    u64::from_le_bytes(part)
}

/// The number that 4 bytes spell, from this one on.
#[inline(always)]
fn half(bytes: &[u8], from: usize) -> u32
    requires { from + 4 ≤ length bytes.now }
    ensures { result ≡ number (take 4 (drop from bytes.now)) }
{
    let mut part = [0; 4];
    part.copy_from_slice(&bytes[from..from + 4]);
    u32::from_le_bytes(part)
}

/// The number that 2 bytes spell, from this one on.
#[inline(always)]
fn pair(bytes: &[u8], from: usize) -> u16
    requires { from + 2 ≤ length bytes.now }
    ensures { result ≡ number (take 2 (drop from bytes.now)) }
{
    let mut part = [0; 2];
    part.copy_from_slice(&bytes[from..from + 2]);
    u16::from_le_bytes(part)
}

/// The number that 16 bytes spell, the last of them copies of `fill`.
#[inline(always)]
fn number_of_16(bytes: &[u8], fill: u8) -> u128
    requires { length bytes.now ≤ 16 }
    ensures { result ≡ number (bytes.now ++ replicate (16 - length bytes.now) fill) }
{
    let mut all = [fill; 16];
    all[..bytes.len()].copy_from_slice(bytes);
    u128::from_le_bytes(all)
}

/// The number that 2 bytes spell, the last of them copies of `fill`.
#[inline(always)]
fn number_of_2(bytes: &[u8], fill: u8) -> u16
    requires { length bytes.now ≤ 2 }
    ensures { result ≡ number (bytes.now ++ replicate (2 - length bytes.now) fill) }
{
    let mut all = [fill; 2];
    all[..bytes.len()].copy_from_slice(bytes);
    u16::from_le_bytes(all)
}
