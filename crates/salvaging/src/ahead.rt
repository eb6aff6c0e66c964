//! How many places that are taken come after a place.

ghost use Rattle.std.specs.Prelude.{◌≡◌, ◌<◌, ◌+◌, ◌^◌, [], All, IfOk, count_by, length, slice_index_or};
ghost use Rattle.std.specs.Prelude.{slice_set, sum, true};
ghost use Rattle.salvaging.specs.steps.Ahead.{AreLevels, CanRaise, HasTaken, block_behind, flags_behind, lists_in, raised};

use std::alloc::{AllocError, Allocator};

/// How many places are in a block, and how many blocks of a level in one of the next.
const BLOCK: usize = 64;

/// Places among so many, of which some are taken: a flag for each, and how many are taken in each block, in each block of
/// blocks, and so on, up to one block.
#[derive(Drop)]
pub(crate) struct TakenPlaces<A: Allocator> {
    taken: Vec<bool, A>,
    levels: Vec<Vec<usize, A>, A>,
}

/// What is after a place in a level, up to the end of its block.
fn behind_in_block<T>(level: &[T], at: usize) -> &[T]
    requires { at < length level.now }
    ensures { result.now ≡ block_behind level.now at }
{
    let later = &level[at + 1..];
    let left = BLOCK - 1 - at % BLOCK;
    if left < later.len() {
        &later[..left]
    } else {
        later
    }
}

/// How many flags are set.
fn flags_set(flags: &[bool]) -> usize
    ensures { result ≡ count_by (λ flag. flag) flags.now }
{
    flags.iter().filter(|flag| **flag).count()
}

/// The sum of counts.
fn sum_of(counts: &[usize]) -> usize
    requires { sum counts.now < 2 ^ 64 }
    ensures { result ≡ sum counts.now }
{
    let mut all = 0;
    for count in counts {
        all += *count;
    }
    all
}

/// One more at a place of a level.
fn add_one<A: Allocator>(level: &mut Vec<usize, A>, at: usize)
    requires within { at < length level.old.items }
    requires few { slice_index_or level.old.items at 0 + 1 < 2 ^ 64 }
    ensures { level.new.items ≡ slice_set level.old.items at (slice_index_or level.old.items at 0 + 1) }
{
    level[at] += 1;
}

/// The levels over so many places, where none is taken.
fn clear_levels<A: Allocator + Copy>(
    alloc: A,
    count: usize,
) -> Result<Vec<Vec<usize, A>, A>, AllocError>
    ensures long { IfOk result (λ levels. AreLevels count (lists_in levels.items)) }
    ensures clear { IfOk result (λ levels. All (λ level. All (λ n. n ≡ 0) level) (lists_in levels.items)) }
{
    let mut levels = Vec::new(alloc);
    let mut long = count;
    while long > BLOCK {
        long = long / BLOCK + 1;
        levels.reserve(1)?;
        let level = vec![in alloc; 0; long]?;
        levels.push_reserved(level);
    }
    Ok(levels)
}

impl<A: Allocator + Copy> TakenPlaces<A> {
    /// So many places, none of which is taken.
    pub(crate) fn new(alloc: A, count: usize) -> Result<TakenPlaces<A>, AllocError>
        ensures none { IfOk result (λ places. HasTaken places []) }
        ensures count { IfOk result (λ places. length places.taken.items ≡ count) }
    {
        let taken = vec![in alloc; false; count]?;
        let levels = clear_levels(alloc, count)?;
        Ok(TakenPlaces { taken, levels })
    }

    /// How many places after this one are taken.
    pub(crate) fn count_behind(&self, place: usize) -> usize
        requires within { place < length self.now.taken.items }
        requires long { AreLevels (length self.now.taken.items) (lists_in self.now.levels.items) }
        requires few { flags_behind place self.now.taken.items (lists_in self.now.levels.items) < 2 ^ 64 }
        ensures { result ≡ flags_behind place self.now.taken.items (lists_in self.now.levels.items) }
    {
        let mut at = place;
        let mut count = flags_set(behind_in_block(self.taken.as_slice(), at));
        for level in self.levels.as_slice() {
            at /= BLOCK;
            count += sum_of(behind_in_block(level.as_slice(), at));
        }
        count
    }

    /// Takes a place.
    pub(crate) fn add(&mut self, place: usize)
        requires within { place < length self.old.taken.items }
        requires long { AreLevels (length self.old.taken.items) (lists_in self.old.levels.items) }
        requires few { CanRaise place (lists_in self.old.levels.items) }
        ensures taken { self.new.taken.items ≡ slice_set self.old.taken.items place true }
        ensures levels { lists_in self.new.levels.items ≡ raised place (lists_in self.old.levels.items) }
    {
        self.taken[place] = true;
        let mut at = place;
        for k in 0..self.levels.len() {
            at /= BLOCK;
            add_one(&mut self.levels[k], at);
        }
    }
}
