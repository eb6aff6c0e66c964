//! A piece as a memory keeps it.

ghost use Rattle.std.specs.Prelude.{◌≡◌, ◌-◌, ◌^◌, nat_eq, if◌then◌else◌, option_map, slice_get};
ghost use Rattle.rvclass.specs.Piece.{extent_of};
ghost use Rattle.rvclass.specs.steps.Kept.{others_of};
ghost use Rattle.rvclass.specs.steps.Parts.{pieces_of};

use crate::held::Held;
use std::alloc::Allocator;

/// A piece after the first.
#[derive(Drop)]
pub(crate) struct Part<'b> {
    /// The piece's rank among the others.
    pub(crate) rank: u64,
    /// The address of the first byte.
    pub(crate) base: u64,
    /// The bytes.
    pub(crate) bytes: Held<'b>,
}

/// The parts of a list, if there is one.
#[inline(always)]
pub(crate) fn parts_in<'m, 'b, A: Allocator>(list: &'m Option<Vec<Part<'b>, A>>) -> &'m [Part<'b>]
    ensures { result.now ≡ others_of list.now }
{
    match list {
        Some(parts) => parts.as_slice(),
        None => &[],
    }
}

/// The rank among the others of a piece with this base and so many bytes.
#[inline]
pub(crate) fn rank_of(base: u64, length: usize) -> u64
    ensures { result ≡ (if nat_eq length 0 then 2 ^ 64 - 1 else base) }
{
    if length == 0 { u64::MAX } else { base }
}

/// The base and the number of bytes of a part.
pub(crate) fn extent_in(parts: &[Part<'_>], index: usize) -> Option<(u64, usize)>
    ensures { result ≡ option_map extent_of (slice_get (pieces_of parts.now) index) }
{
    match parts.get(index) {
        Some(part) => Some((part.base, part.bytes.bytes().len())),
        None => None,
    }
}
