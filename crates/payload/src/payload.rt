//! The bytes of one packet.
ghost use Rattle.std.specs.Prelude.{◌≡◌, ◌+◌, ◌*◌, ◌^◌, ◌<◌, ◌≤◌, ◌↔◌, ℕ, List, length, IsOk, IfOk};
ghost use Rattle.payload.specs.Bytes.{low_bytes};
ghost use Rattle.payload.specs.Limits.{most_bytes};

use crate::layout::SUPPORT_BEGINNING;
use crate::{PackFault, unpack};
use arrayvec::ArrayVec;
use std::marker::Model;

/// The most bytes of a payload.
pub const MOST_BYTES: usize = 18;

/// One to 18 bytes, held in place.
#[derive(Debug, PartialEq, Eq, Drop)]
pub struct Payload {
    bytes: ArrayVec<u8, MOST_BYTES>,
}

impl Model for Payload {
    ghost Value = { List ℕ };

    ghost view = { λ p. p.bytes.items };

    ghost inverse = { λ bytes. record { bytes = record { items = bytes } } };

    ghost invariant = { λ p. 1 ≤ length p.bytes.items };
}

impl Payload {
    ghost use Rattle.payload.specs.Closing.{is_closing};

    /// A payload of these bytes, whether or not they are those of a packet.
    pub fn new(bytes: &[u8]) -> Result<Payload, PackFault>
        ensures same { IfOk result (λ payload. payload ≡ bytes.now) }
        ensures fits { IsOk result ↔ ((1 ≤ length bytes.now) × (length bytes.now ≤ most_bytes)) }
        ensures empty { length bytes.now ≡ 0 → result ≡ Err PackFault.Empty }
        ensures too_long { most_bytes < length bytes.now → result ≡ Err PackFault.TooLong }
    {
        if bytes.is_empty() {
            return Err(PackFault::Empty);
        }
        match ArrayVec::try_from(bytes) {
            Ok(bytes) => Ok(Payload { bytes }),
            Err(_) => Err(PackFault::TooLong),
        }
    }

    /// The bytes.
    pub fn bytes(&self) -> &[u8]
        ensures same { result.now ≡ self.now }
        ensures some { 1 ≤ length result.now }
        ensures few { length result.now ≤ most_bytes }
    {
        self.bytes.as_slice()
    }

    /// Whether the bytes unpack to a packet that closes a trace, EndedRep or EndedNtr. For most payloads the first byte
    /// shows that they do not.
    #[inline(always)]
    pub fn is_closing(&self) -> bool
        ensures { result ≡ is_closing self.now }
    {
        self.bytes()[0] % 16 == SUPPORT_BEGINNING && self.unpacks_to_closing()
    }

    /// The same, by what all bytes unpack to.
    #[inline(never)]
    fn unpacks_to_closing(&self) -> bool
        ensures { result ≡ is_closing self.now }
    {
        match unpack(self.bytes()) {
            Ok(packet) => packet.is_closing(),
            Err(_) => false,
        }
    }

    /// The lowest `count` bytes of a number.
    #[inline(always)]
    pub(crate) fn of_low_bytes(n: u128, count: usize) -> Payload
        requires some { 1 ≤ count }
        requires few { count ≤ 16 }
        ensures { result ≡ low_bytes count n }
    {
        Payload::of_low_bytes_long(n, 0, count)
    }

    /// The lowest `count` bytes of `low + 2^128 * high`.
    #[inline(always)]
    pub(crate) fn of_low_bytes_long(low: u128, high: u16, count: usize) -> Payload
        requires some { 1 ≤ count }
        requires few { count ≤ most_bytes }
        ensures { result ≡ low_bytes count (low + 2 ^ 128 * high) }
    {
        let mut bytes = ArrayVec::from(bytes_of(low, high));
        bytes.truncate(count);
        Payload { bytes }
    }
}

/// The 18 bytes of `low + 2^128 * high`, in parts that a machine stores at once.
#[inline(always)]
fn bytes_of(low: u128, high: u16) -> [u8; MOST_BYTES]
    ensures { result ≡ low_bytes most_bytes (low + 2 ^ 128 * high) }
{
    let mut bytes = [0; MOST_BYTES];
    bytes[..8].copy_from_slice(&((low % (1 << 64)) as u64).to_le_bytes());
    bytes[8..16].copy_from_slice(&((low >> 64) as u64).to_le_bytes());
    bytes[16..].copy_from_slice(&high.to_le_bytes());
    bytes
}
