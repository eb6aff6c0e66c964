//! Harts whose messages came as those of another hart.

ghost use Rattle.std.specs.Prelude.{◌≡◌, IfOk, map};
ghost use Rattle.auditing.specs.Exchanged.{first_exchanged, is_most};
ghost use Rattle.auditing.specs.steps.Moving.{changed_at, counted_once, moved_more, none_moved};

use std::alloc::{AllocError, Allocator};

/// The hart of SENT that most messages of another hart are of, which are not true.
#[derive(Clone, Copy, Debug)]
pub struct Exchanged {
    /// The hart that SENT has these messages of.
    pub hart: usize,
    /// How many messages came that are of it.
    pub count: u64,
}

/// How many messages of each hart came that are of each: none, of so many harts.
pub(crate) fn none_moved<A: Allocator + Copy>(
    alloc: A,
    harts: usize,
) -> Result<Vec<Vec<u64, A>, A>, AllocError>
    ensures { IfOk result (λ moves. map (λ counts. counts.items) moves.items ≡ none_moved harts) }
{
    let mut moves = Vec::with_capacity(alloc, harts)?;
    for _ in 0..harts {
        moves.push(vec![in alloc; 0; harts]?)?;
    }
    Ok(moves)
}

/// Counts one message more of a hart that is of another one.
pub(crate) fn count_moved<A: Allocator>(moves: &mut Vec<Vec<u64, A>, A>, hart: usize, owner: usize)
    ensures { map (λ counts. counts.items) moves.new.items
        ≡ moved_more (map (λ counts. counts.items) moves.old.items) hart owner }
{
    if let Some(counts) = moves.get_mut(hart) {
        count_once(counts, owner);
    }
}

/// Counts one message more of this hart.
fn count_once<A: Allocator>(counts: &mut Vec<u64, A>, owner: usize)
    ensures { counts.new.items ≡ changed_at counted_once counts.old.items owner }
{
    if let Some(count) = counts.get_mut(owner) {
        *count = count.saturating_add(1);
    }
}

/// The first hart that enough of so many messages that are not true are of, by how many are of each.
pub(crate) fn first_exchanged(counts: &[u64], untrue: u128) -> Option<Exchanged>
    ensures { result ≡ first_exchanged 0 untrue counts.now }
{
    for hart in 0..counts.len() {
        let count = counts[hart];
        if is_most(count, untrue) {
            return Some(Exchanged { hart, count });
        }
    }
    None
}

/// Whether so many messages are 8 at least, and more than half of these.
fn is_most(count: u64, untrue: u128) -> bool
    ensures { result ≡ is_most count untrue }
{
    count >= 8 && untrue < u128::from(count) + u128::from(count)
}
