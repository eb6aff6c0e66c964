//! Whether a piece may be added to a memory, and the list that takes it.

ghost use Rattle.std.specs.Prelude.{◌≡◌, ◌-◌, ◌+◌, ◌^◌, ◌<◌, [], ◌∷◌, length, min, max, nat_lt, IfOk, IfErr, Ok, Err};
ghost use Rattle.std.specs.List.{AllByRecursion};
ghost use Rattle.rvclass.specs.Adding.{add_piece};
ghost use Rattle.rvclass.specs.Memory.{Memory, overlaps, placed, rank_of};
ghost use Rattle.rvclass.specs.Piece.{IsPiece, piece_at};
ghost use Rattle.rvclass.specs.steps.Kept.{others_of};
ghost use Rattle.rvclass.specs.steps.Parts.{AreKept, piece_of, pieces_of};

use crate::part::Part;
use crate::piece_fault::PieceFault;
use crate::search::count_up_to;
use std::alloc::{AllocError, Allocator};

/// The largest piece, in bytes.
const MAX_BYTES: usize = 1 << 24;

/// The number of places of a piece from which there are four bytes, or the first fault of these bytes.
pub(crate) fn windows_of(base: u64, bytes: &[u8]) -> Result<u64, PieceFault>
    ensures exact { IfErr result (λ why. add_piece [] base bytes.now ≡ Err why) }
    ensures always { IfErr result (λ why. (m : Memory) → add_piece m base bytes.now ≡ Err why) }
    ensures memory { IfOk result (λ windows.
        (add_piece [] base bytes.now ≡ Ok (piece_at base bytes.now ∷ [])) × IsPiece (piece_at base bytes.now)
        × (windows ≡ length bytes.now - 3)) }
{
    if !base.is_multiple_of(2) {
        return Err(PieceFault::OddBase);
    }
    if bytes.len() > MAX_BYTES {
        return Err(PieceFault::TooLarge);
    }
    if u64::MAX - base < bytes.len() as u64 {
        return Err(PieceFault::PastEnd);
    }
    Ok(bytes.len().saturating_sub(3) as u64)
}

/// A piece from a base on overlaps another.
pub(crate) fn overlap_each(base: u64, length: usize, other: u64, other_length: usize) -> bool
    requires first { base + length < 2 ^ 64 }
    requires second { other + other_length < 2 ^ 64 }
    ensures { result ≡ nat_lt (max base other) (min (base + length) (other + other_length)) }
{
    base.max(other) < (base + length as u64).min(other + other_length as u64)
}

/// A piece overlaps one of the parts.
pub(crate) fn overlap_any(base: u64, bytes: &[u8], parts: &[Part<'_>]) -> bool
    requires below { base + length bytes.now < 2 ^ 64 }
    requires each { AllByRecursion IsPiece (pieces_of parts.now) }
    ensures { result ≡ overlaps (piece_at base bytes.now) (pieces_of parts.now) }
{
    for part in parts {
        if overlap_each(base, bytes.len(), part.base, part.bytes.bytes().len()) {
            return true;
        }
    }
    false
}

/// Puts a part in its place among others, in a list that is begun if there is none.
pub(crate) fn insert_part<'b, A: Allocator>(
    alloc: A,
    others: &mut Option<Vec<Part<'b>, A>>,
    part: Part<'b>,
) -> Result<(), AllocError>
    requires kept { AreKept (others_of others.old) }
    requires ranked { part.rank ≡ rank_of (piece_of part) }
    ensures kept { AreKept (others_of others.new) }
    ensures placed { IfOk result (λ _. pieces_of (others_of others.new)
        ≡ placed (piece_of part.entry) (pieces_of (others_of others.old))) }
    ensures same { IfErr result (λ _. others_of others.new ≡ others_of others.old) }
{
    match others {
        Some(parts) => insert_in(parts, part),
        None => {
            let mut parts = Vec::new(alloc);
            insert_in(&mut parts, part)?;
            *others = Some(parts);
            Ok(())
        }
    }
}

/// Puts a part in its place among others.
fn insert_in<'b, A: Allocator>(
    parts: &mut Vec<Part<'b>, A>,
    part: Part<'b>,
) -> Result<(), AllocError>
    requires kept { AreKept parts.old.items }
    requires ranked { part.rank ≡ rank_of (piece_of part) }
    ensures kept { AreKept parts.new.items }
    ensures placed { IfOk result (λ _.
        pieces_of parts.new.items ≡ placed (piece_of part.entry) (pieces_of parts.old.items)) }
    ensures same { IfErr result (λ _. parts.new.items ≡ parts.old.items) }
{
    let place = count_up_to(parts.as_slice(), part.rank);
    match parts.insert(place, part) {
        Ok(()) => Ok(()),
        Err(_) => Err(AllocError),
    }
}
