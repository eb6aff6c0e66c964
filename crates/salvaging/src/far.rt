//! Which numbers of a hart are far.

ghost use Rattle.std.specs.Prelude.{ℕ, ◌≡◌, ◌<◌, ◌≤◌, ◌||◌, ◌^◌, ◌++◌, ◌∷◌, All, IfOk, List, OnOk, [], length, map, option_map};
ghost use Rattle.losses.specs.Apart.{AreRising};
ghost use Rattle.message.specs.declared.message.Message.{Message as AnyMessage};
ghost use Rattle.salvaging.specs.Entries.{entry_number};
ghost use Rattle.salvaging.specs.Far.{AreFar, AreFarNumbers, ahead, numbers_of};
ghost use Rattle.salvaging.specs.steps.Ahead.{ArePlaced, CanTake, Takes};
ghost use Rattle.salvaging.specs.steps.Arrivals.{arrivals_in, placed_from};
ghost use Rattle.salvaging.specs.steps.Farness.{IsBound, IsGreatestUpTo, IsNearest, follows, greater_of, is_followed, with_number};
ghost use Rattle.salvaging.specs.steps.Grouping.{entries_by, entry_of};

use crate::ahead::TakenPlaces;
use crate::entry::Entry;
use crate::grouping::first_entry;
use crate::received::{ReceivedMessage, put_in_order};
use crate::rows::number_of;
use message::Message;
use std::alloc::{AllocError, Allocator};

/// Takes the place of an entry, if it is used, and returns how many places after it were taken before.
fn take_entry<A: Allocator + Copy>(places: &mut TakenPlaces<A>, entry: Entry<'_>) -> usize
    requires { CanTake places.old (entry_of entry) }
    ensures { Takes places.old places.new (entry_of entry.entry) result }
{
    match entry {
        Entry::Used { place, .. } => {
            let count = places.count_behind(place);
            places.add(place);
            count
        }
        Entry::Doubtful { .. } => 0,
    }
}

/// How many messages that of each number is ahead of; 0 where the number is doubtful. The messages are in the order of
/// their numbers.
fn aheads<A: Allocator + Copy>(
    alloc: A,
    came: &[ReceivedMessage<'_>],
) -> Result<Vec<usize, A>, AllocError>
    requires rising { AreRising 0 (map entry_number (entries_by (arrivals_in came.now))) }
    requires placed { ArePlaced (length came.now) (entries_by (arrivals_in came.now)) }
    ensures counts { IfOk result (λ counts. counts.items
        ≡ map (ahead (entries_by (arrivals_in came.now))) (entries_by (arrivals_in came.now))) }
    ensures few { IfOk result (λ counts. length counts.items ≤ length came.now) }
{
    let mut places = TakenPlaces::new(alloc, came.len())?;
    let mut counts = Vec::with_capacity(alloc, came.len())?;
    let mut rest = came;
    while let Some((entry, count)) = first_entry(rest) {
        counts.push_reserved(take_entry(&mut places, entry));
        rest = &rest[count..];
    }
    Ok(counts)
}

/// Whether a number comes right after the one before it, if there is one.
fn follows(before: Option<u64>, number: u64) -> bool
    ensures { result ≡ follows before number }
{
    match before {
        Some(before) => before < number && number - before == 1,
        None => false,
    }
}

/// Whether a number comes right before the first of these messages.
fn is_followed(number: u64, behind: &[ReceivedMessage<'_>]) -> bool
    ensures { result ≡ is_followed number (entries_by (arrivals_in behind.now)) }
{
    match first_entry(behind) {
        Some((entry, _)) => follows(Some(number), number_of(entry)),
        None => false,
    }
}

/// Whether the number before this one came, or the number after it, by the one that came before it and the messages that
/// came with greater ones.
fn has_neighbour(before: Option<u64>, number: u64, behind: &[ReceivedMessage<'_>]) -> bool
    ensures { result ≡ (follows before number || is_followed number (entries_by (arrivals_in behind.now))) }
{
    follows(before, number) || is_followed(number, behind)
}

/// The greater of two counts, if the second one counts.
fn greater_of(most: usize, count: usize, counts: bool) -> usize
    ensures { result ≡ greater_of most count counts }
{
    if counts && most < count { count } else { most }
}

/// How many messages are the most that one with a neighbour is ahead of; 0 where none has. The messages are in the order
/// of their numbers.
fn nearest(came: &[ReceivedMessage<'_>], counts: &[usize]) -> usize
    requires rising { AreRising 0 (map entry_number (entries_by (arrivals_in came.now))) }
    requires counted { counts.now ≡ map (ahead (entries_by (arrivals_in came.now))) (entries_by (arrivals_in came.now)) }
    ensures { IsNearest (entries_by (arrivals_in came.now)) result }
{
    let mut most = 0;
    let mut before = None;
    let mut at = 0;
    let mut rest = came;
    while let Some((entry, count)) = first_entry(rest) {
        let behind = &rest[count..];
        let number = number_of(entry);
        let is_near = has_neighbour(before, number, behind);
        most = greater_of(most, counts[at], is_near);
        before = Some(number);
        at += 1;
        rest = behind;
    }
    most
}

/// The greatest of counts up to a limit; 0 where there is none.
fn greatest_upto(counts: &[usize], limit: usize) -> usize
    ensures { IsGreatestUpTo counts.now limit result }
{
    let mut most = 0;
    for count in counts {
        most = greater_of(most, *count, *count <= limit);
    }
    most
}

/// From this count on, each time the greatest count up to twice as much, until that is the same.
fn bound_from(counts: &[usize], first: usize) -> usize
    requires few { All (λ count. count < 2 ^ 63) counts.now }
    requires fits { first < 2 ^ 63 }
    ensures bound { IsBound counts.now first result }
    ensures fits { result < 2 ^ 63 }
{
    let mut bound = first;
    let mut next = greatest_upto(counts, 2 * bound);
    while next > bound {
        bound = next;
        next = greatest_upto(counts, 2 * bound);
    }
    bound
}

/// Of each number whether it is far. The messages are in the order of their numbers.
///
/// It takes some 10 bytes a message, and time for each that grows with the logarithm of their number.
pub(crate) fn far_flags<A: Allocator + Copy>(
    alloc: A,
    came: &[ReceivedMessage<'_>],
) -> Result<Vec<bool, A>, AllocError>
    requires rising { AreRising 0 (map entry_number (entries_by (arrivals_in came.now))) }
    requires placed { ArePlaced (length came.now) (entries_by (arrivals_in came.now)) }
    ensures { IfOk result (λ far. AreFar (entries_by (arrivals_in came.now)) far.items) }
{
    let all = aheads(alloc, came)?;
    let counts = all.as_slice();
    let first = nearest(came, counts);
    let bound = bound_from(counts, first);
    let mut far = Vec::with_capacity(alloc, counts.len())?;
    for count in counts {
        far.push_reserved(*count > 2 * bound);
    }
    Ok(far)
}

/// Messages of a hart with their places.
fn with_places<'a, A: Allocator + Copy>(
    alloc: A,
    messages: &'a [Message],
) -> Result<Vec<ReceivedMessage<'a>, A>, AllocError>
    ensures { IfOk result (λ came. arrivals_in came.items ≡ placed_from 0 messages.now) }
{
    let mut came = Vec::with_capacity(alloc, messages.len())?;
    for place in 0..messages.len() {
        let message = &messages[place];
        came.push_reserved(ReceivedMessage { place, message });
    }
    Ok(came)
}

/// Appends a number, if it is asked for.
fn push_if<A: Allocator>(
    numbers: &mut Vec<u64, A>,
    number: u64,
    is_asked: bool,
) -> Result<(), AllocError>
    ensures { OnOk result (numbers.new.items ≡ with_number is_asked number numbers.old.items) }
{
    if is_asked {
        numbers.push(number)?;
    }
    Ok(())
}

/// The numbers of a hart that these flags say, one for each number. The messages are in the order of their numbers.
fn flagged_numbers<A: Allocator + Copy>(
    alloc: A,
    came: &[ReceivedMessage<'_>],
    flags: &[bool],
) -> Result<Vec<u64, A>, AllocError>
    requires { length flags.now ≡ length (entries_by (arrivals_in came.now)) }
    ensures { IfOk result (λ numbers. numbers.items ≡ numbers_of (entries_by (arrivals_in came.now)) flags.now) }
{
    let mut numbers = Vec::new(alloc);
    let mut rest = came;
    let mut at = 0;
    while let Some((entry, count)) = first_entry(rest) {
        let behind = &rest[count..];
        push_if(&mut numbers, number_of(entry), flags[at])?;
        at += 1;
        rest = behind;
    }
    Ok(numbers)
}

/// The far numbers of a hart, in rising order, by its messages in the order in which they came.
///
/// A number is used if all messages that have it are alike, and the first of them counts. It is ahead of the used messages
/// that have smaller numbers and came after it, and it stands by itself if no message of the hart has the number right
/// below it or above it. The far numbers are the greatest set of used numbers such that each stands by itself, is ahead of
/// at least one message, and is ahead of more than twice as many as any used number that is not among them: neither number
/// beside it came, and it would make more messages late than the hart's own reordering explains. The head of such a message
/// is probably damaged.
///
/// The messages are counted once, in a time that grows as that of sorting them, and with some 10 bytes for each beside a list
/// of them. An error is returned only where an allocation fails.
pub fn far_numbers<A: Allocator + Copy>(
    alloc: A,
    messages: &[Message],
) -> Result<Vec<u64, A>, AllocError>
    ensures { IfOk result (λ numbers. AreFarNumbers messages.now numbers.items) }
{
    let mut came = with_places(alloc, messages)?;
    put_in_order(came.as_mut_slice());
    let ordered = came.as_slice();
    let far = far_flags(alloc, ordered)?;
    let numbers = flagged_numbers(alloc, ordered, far.as_slice())?;
    Ok(numbers)
}
