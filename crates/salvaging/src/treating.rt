//! What is done with each message of a capture.

ghost use Rattle.std.specs.Prelude.{ℕ, ◌≡◌, ◌<◌, ◌+◌, ◌^◌, All, IfOk, Some, length, slice_get};
ghost use Rattle.rvclass.specs.Fetch.{words_of};
ghost use Rattle.payload.specs.declared.mode.Mode.{Mode as AnyMode};
ghost use Rattle.rvclass.specs.Words.{Words};
ghost use Rattle.salvaging.specs.Strangers.{own_messages};
ghost use Rattle.salvaging.specs.Treatments.{AreTreated, stranger};
ghost use Rattle.salvaging.specs.declared.sorting_out.HartRows.{HartRows as AnyRows};
ghost use Rattle.salvaging.specs.steps.Arrivals.{HaveNumbers, HavePlaces, arrivals_in};
ghost use Rattle.salvaging.specs.steps.SortedOut.{AreSortedOf, IsSortedOut, TakesPlace, TreatsNext};

use crate::distributing::{distribute, is_stranger, strangers};
use crate::lookup::treated_at;
use crate::received::ReceivedMessage;
use crate::sorting_out::{HartRows, sort_out};
use crate::treatment::{Treated, Treatment};
use decoder::StraightRuns;
use message::{Message, ProgressSink};
use payload::Mode;
use rvclass::ProgramOver;
use std::alloc::{AllocError, Allocator};
use std::mem;

/// Sorts out the messages of each hart. Each list is taken out. Each message is told of.
fn sort_each<'a, A: Allocator + Copy, V: ProgressSink>(
    alloc: A,
    program: &ProgramOver,
    mode: Mode,
    lists: &mut Vec<Vec<ReceivedMessage<'a>, A>, A>,
    watch: &V,
) -> Result<Vec<HartRows<'a, A>, A>, AllocError>
    requires numbers { All (λ list. HaveNumbers (arrivals_in list.items)) lists.old.items }
    requires places { All (λ list. HavePlaces (arrivals_in list.items)) lists.old.items }
    ensures { IfOk result (λ harts. AreSortedOf (words_of program.now) mode lists.old.items harts.items) }
{
    let mut lines = StraightRuns::new(alloc, program);
    let mut harts = Vec::with_capacity(alloc, lists.len())?;
    for hart in 0..lists.len() {
        let came = mem::replace(&mut lists[hart], Vec::new(alloc));
        harts.push_reserved(sort_out(alloc, program, &mut lines, mode, came, watch)?);
    }
    Ok(harts)
}

/// What is done with a stranger.
fn stranger() -> Treated
    ensures { result ≡ stranger }
{
    Treated {
        treatment: Treatment::Stranger,
        far: false,
        late: false,
    }
}

/// What is done with the next message of a hart, and counts it.
fn treat_own<A: Allocator>(
    sorted: &[HartRows<'_, A>],
    counts: &mut Vec<usize, A>,
    message: &Message,
) -> Treated
    requires known { message.now.hart < length sorted.now }
    requires counted { message.now.hart < length counts.old.items }
    requires few { (count : ℕ) → slice_get counts.old.items message.now.hart ≡ Some count → count + 1 < 2 ^ 64 }
    ensures { TakesPlace sorted.now counts.old.items counts.new.items message.now result }
{
    let hart = usize::from(message.hart);
    let own = &sorted[hart];
    let place = counts[hart];
    counts[hart] = place + 1;
    treated_at(own.came.as_slice(), own.rows.as_slice(), place, message)
}

/// What is done with the next message.
fn treat_next<A: Allocator>(
    harts: u16,
    sorted: &[HartRows<'_, A>],
    counts: &mut Vec<usize, A>,
    message: &Message,
) -> Treated
    requires known { length sorted.now ≡ harts }
    requires counted { length counts.old.items ≡ harts }
    requires few { (count : ℕ) → slice_get counts.old.items message.now.hart ≡ Some count → count + 1 < 2 ^ 64 }
    ensures { TreatsNext harts sorted.now counts.old.items counts.new.items message.now result }
{
    if is_stranger(harts, message) {
        return stranger();
    }
    treat_own(sorted, counts, message)
}

/// What is done with each message, where those of each hart are sorted out.
fn treat_each<A: Allocator + Copy>(
    alloc: A,
    harts: u16,
    messages: &[Message],
    sorted: &[HartRows<'_, A>],
) -> Result<Vec<Treated, A>, AllocError>
    requires { length sorted.now ≡ harts }
    ensures { (words : Words) (mode : AnyMode)
        → ((hart : ℕ) (own : AnyRows A) → slice_get sorted.now hart ≡ Some own
        → IsSortedOut words mode (own_messages hart messages.now) own)
        → IfOk result (λ treated. AreTreated words mode harts messages.now treated.items) }
{
    let mut counts = vec![in alloc; 0; usize::from(harts)]?;
    let mut treated = Vec::with_capacity(alloc, messages.len())?;
    for message in messages {
        treated.push_reserved(treat_next(harts, sorted, &mut counts, message));
    }
    Ok(treated)
}

/// What is done with each of these messages, in their order, as [`salvage`](crate::salvage) takes them: a stranger, a
/// copy or a doubtful number is passed over; every other message is bad, alone, or passed over while a synchronisation
/// is looked for, or adds events to its hart's log, where the numbers of each hart are taken in order. `harts`, `mode`
/// and `program` are those of `salvage`.
///
/// `watch` is told of each message once: hart after hart, and of the strangers at last. An error is returned only where
/// an allocation fails.
pub fn treat_watched<A: Allocator + Copy, V: ProgressSink>(
    alloc: A,
    program: &ProgramOver,
    harts: u16,
    mode: Mode,
    messages: &[Message],
    watch: &V,
) -> Result<Vec<Treated, A>, AllocError>
    ensures { IfOk result (λ treated. AreTreated (words_of program.now) mode harts messages.now treated.items) }
{
    // From this call the proof learns that the program is sound.
    let _ = program.base();
    let mut lists = distribute(alloc, harts, messages)?;
    let sorted = sort_each(alloc, program, mode, &mut lists, watch)?;
    let treated = treat_each(alloc, harts, messages, sorted.as_slice())?;
    watch.note(strangers(harts, messages));
    Ok(treated)
}
