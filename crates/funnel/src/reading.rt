//! A schedule's text, read in one pass.

ghost use Rattle.std.specs.Prelude.{◌≡◌, ◌⊎◌, ◌+◌, IfErr, IfOk, OnOk, Ok, Err, vec_len};
ghost use Rattle.funnel.specs.Schedule.{is_blank, schedule_of};
ghost use Rattle.funnel.specs.steps.Words.{IsAdded, turn_at};

use crate::Turn;
use crate::schedule_fault::ScheduleFault;
use crate::word::Word;
use std::alloc::Allocator;

/// The turns of a schedule's text, for the harts below `harts`.
///
/// Spaces, line feeds and carriage returns separate words. A word is `c`, by which the front message is taken, or the
/// decimal number of a hart, by which that hart sends. Leading zeros are allowed. The fault has the number of the first
/// word that is neither. Where the first 16,777,216 words are turns and another word follows, the fault is that there
/// are too many. Memory is taken only for the turns.
pub fn read_schedule<A: Allocator>(
    alloc: A,
    harts: u16,
    text: &[u8],
) -> Result<Vec<Turn, A>, ScheduleFault>
    ensures turns { IfOk result (λ turns. schedule_of harts text.now ≡ Ok turns.items) }
    ensures faults { IfErr result (λ why. (why ≡ ScheduleFault.Memory) ⊎ (schedule_of harts text.now ≡ Err why)) }
{
    let mut turns = Vec::new(alloc);
    let mut word = Word::Empty;
    for byte in text {
        if is_blank(*byte) {
            add(&mut turns, word)?;
            word = Word::Empty;
        } else {
            word = word.with_byte(harts, *byte);
        }
    }
    add(&mut turns, word)?;
    Ok(turns)
}

/// Whether a byte separates words.
fn is_blank(byte: u8) -> bool
    ensures { result ≡ is_blank byte }
{
    byte == b' ' || byte == b'\n' || byte == b'\r'
}

/// Adds the turn of the word after these turns. An empty word has none.
fn add<A: Allocator>(turns: &mut Vec<Turn, A>, word: Word) -> Result<(), ScheduleFault>
    ensures added { OnOk result (IsAdded (turn_at (vec_len turns.old + 1) word) turns.old.items turns.new.items) }
    ensures faults { IfErr result (λ why.
        (why ≡ ScheduleFault.Memory) ⊎ (turn_at (vec_len turns.old + 1) word ≡ Err why)) }
{
    match word.turn(turns.len() + 1)? {
        Some(turn) => match turns.push(turn) {
            Ok(()) => Ok(()),
            Err(_) => Err(ScheduleFault::Memory),
        },
        None => Ok(()),
    }
}
