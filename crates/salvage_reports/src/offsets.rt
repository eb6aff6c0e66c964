//! The offsets of a hart's messages.

ghost use Rattle.std.specs.Prelude.{◌≡◌};
ghost use Rattle.salvage_reports.specs.Offsets.{offset_at, own_offsets};

/// The offsets in the list of a hart; none of a hart that has no list.
pub(crate) fn offsets_of(offsets: &[Vec<usize>], hart: usize) -> &[usize]
    ensures { result.now ≡ own_offsets offsets.now hart }
{
    match offsets.get(hart) {
        Some(own) => own.as_slice(),
        None => &[],
    }
}

/// The offset at this place; 0 where there is none.
pub(crate) fn offset_at(offsets: &[usize], place: usize) -> u64
    ensures { result ≡ offset_at offsets.now place }
{
    match offsets.get(place) {
        Some(offset) => *offset as u64,
        None => 0,
    }
}
