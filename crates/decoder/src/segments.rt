//! The places of a program's halfwords, over all pieces of its image.
//!
//! Places are numbered from the highest address down, so that a line that goes forward leads to lower numbers.

ghost use Rattle.std.specs.Prelude.{◌≡◌, ◌+◌, ◌*◌, ◌^◌, ◌≤◌, ◌<◌, IfOk, IfSome, vec_capacity, vec_len};
ghost use Rattle.decoder.specs.steps.Segments.{AreSegments, addr_of, segments_in, next_place};

use rvclass::ProgramOver;
use std::alloc::{AllocError, Allocator};

/// The halfwords of a piece of the image.
#[derive(Clone, Copy)]
pub struct CodeSegment {
    /// The address behind the last of them.
    pub end: u64,
    /// The place of the last of them.
    pub first: u32,
    /// How many there are.
    pub count: u32,
}

/// What a segment is looked for by.
#[derive(Clone, Copy)]
enum Key {
    /// An address in it.
    Addr(u64),
    /// A place in it.
    Place(u32),
}

/// The segments of a program, the one with the highest addresses first.
pub fn find_segments<A: Allocator>(
    alloc: A,
    program: &ProgramOver,
) -> Result<Vec<CodeSegment, A>, AllocError>
    ensures { IfOk result (λ segments. AreSegments 0 segments.items) }
{
    let count = program.piece_count();
    let mut segments = Vec::with_capacity(alloc, count)?;
    let mut first = 0;
    for done in 0..count {
        first = add_segment(&mut segments, first, program.extent(count - 1 - done));
    }
    Ok(segments)
}

/// Adds the segment of a piece with this base and number of bytes, if it has a halfword, and returns the place after
/// it.
fn add_segment<A: Allocator>(
    segments: &mut Vec<CodeSegment, A>,
    first: u32,
    extent: Option<(u64, usize)>,
) -> u32
    requires within { IfSome extent (λ extent. extent.0 + extent.1 < 2 ^ 64) }
    requires room { vec_len segments.old < vec_capacity segments.old }
    requires numbered { AreSegments 0 segments.old.items }
    requires first { first ≡ next_place 0 segments.old.items }
    ensures numbered { AreSegments 0 segments.new.items }
    ensures next { result ≡ next_place 0 segments.new.items }
    ensures few { vec_len segments.new ≤ vec_len segments.old + 1 }
    ensures room { vec_capacity segments.new ≡ vec_capacity segments.old }
{
    let Some((base, length)) = extent else {
        return first;
    };
    let count = halves_of(length, first);
    if count == 0 {
        return first;
    }
    let end = base + 2 * u64::from(count);
    segments.push_reserved(CodeSegment { end, first, count });
    first + count
}

/// How many whole halfwords so many bytes have, of which the first has this place. No program has so many that places
/// run out.
fn halves_of(length: usize, first: u32) -> u32
    ensures within { 2 * result ≤ length }
    ensures fits { first + result < 2 ^ 32 }
{
    match u32::try_from(length / 2) {
        Ok(halves) => halves.min(u32::MAX - first),
        Err(_) => 0,
    }
}

/// The segments that were found; none where none were.
#[inline]
pub fn segments_in<'l, A: Allocator>(segments: &'l Option<Vec<CodeSegment, A>>) -> &'l [CodeSegment]
    ensures { result.now ≡ segments_in segments.now }
{
    match segments {
        Some(segments) => segments.as_slice(),
        None => &[],
    }
}

/// How many places segments have.
pub fn places_of(segments: &[CodeSegment]) -> u32 {
    match segments.last() {
        Some(segment) => segment.first.saturating_add(segment.count),
        None => 0,
    }
}

/// The number of the segment that has a place, where `near` is the number of this segment or the one before.
pub fn segment_near(segments: &[CodeSegment], near: usize, place: u32) -> usize {
    match segments.get(near) {
        Some(segment) => {
            if place < segment.first.saturating_add(segment.count) {
                near
            } else {
                near.saturating_add(1)
            }
        }
        None => near,
    }
}

/// The address of a place, if there is such a place. A segment near it is looked at first.
#[inline]
pub fn addr_at(segments: &[CodeSegment], near: usize, place: u32) -> Option<u64>
    requires { AreSegments 0 segments.now }
    ensures { IfSome result (λ addr. addr_of segments.now place ≡ addr) }
{
    match addr_by(segments, near, place) {
        Some(addr) => Some(addr),
        None => addr_by(segments, segment_by(segments, Key::Place(place)), place),
    }
}

/// The place of an address, if there is a halfword. A segment near it is looked at first.
#[inline]
pub fn place_at(segments: &[CodeSegment], near: usize, addr: u64) -> Option<u32>
    requires { AreSegments 0 segments.now }
    ensures { IfSome result (λ place. addr_of segments.now place ≡ addr) }
{
    match place_by(segments, near, addr) {
        Some(place) => Some(place),
        None => place_by(segments, segment_by(segments, Key::Addr(addr)), addr),
    }
}

/// The address of a place, if the segment with this number has it.
#[inline]
fn addr_by(segments: &[CodeSegment], number: usize, place: u32) -> Option<u64>
    requires { AreSegments 0 segments.now }
    ensures { IfSome result (λ addr. addr_of segments.now place ≡ addr) }
{
    let segment = segments.get(number)?;
    let back = place.checked_sub(segment.first)?;
    if back >= segment.count {
        return None;
    }
    let addr = segment.end.checked_sub(2 * (u64::from(back) + 1))?;
    Some(addr)
}

/// The place of an address, if the segment with this number has it.
#[inline]
fn place_by(segments: &[CodeSegment], number: usize, addr: u64) -> Option<u32>
    requires { AreSegments 0 segments.now }
    ensures { IfSome result (λ place. addr_of segments.now place ≡ addr) }
{
    let segment = segments.get(number)?;
    let bytes = segment.end.checked_sub(addr)?;
    if bytes % 2 != 0 {
        return None;
    }
    let Ok(halves) = u32::try_from(bytes / 2) else {
        return None;
    };
    if halves == 0 || halves > segment.count {
        return None;
    }
    let place = segment.first.checked_add(halves - 1)?;
    Some(place)
}

/// The number of the segment that has what is looked for, if one has it.
fn segment_by(segments: &[CodeSegment], key: Key) -> usize {
    let mut low = 0;
    let mut high = segments.len();
    for _ in 0..usize::BITS {
        if high - low < 2 {
            return low;
        }
        let middle = low + (high - low) / 2;
        match segments.get(middle) {
            Some(segment) => if is_at_or_after(*segment, key) {
                low = middle
            } else {
                high = middle
            },
            None => return low,
        }
    }
    low
}

/// Whether what is looked for is in this segment or in one after it.
fn is_at_or_after(segment: CodeSegment, key: Key) -> bool {
    match key {
        Key::Addr(addr) => addr < segment.end,
        Key::Place(place) => segment.first <= place,
    }
}
