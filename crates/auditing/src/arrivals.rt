//! What became of each message of RECEIVED.

ghost use Rattle.std.specs.Prelude.{◌≡◌, ◌<◌, ◌+◌, IfOk, OnOk, ◌++◌, map, slice_get};
ghost use Rattle.std.specs.Option.{option_to_list};
ghost use Rattle.message.specs.declared.message.Message.{Message as AnyMessage};
ghost use Rattle.auditing.specs.Arrivals.{arrival_line, arrival_lines, arrival_of, moved, start};

use crate::Alignment;
use crate::arrival_line::Line;
use crate::cursor::Cursor;
use message::Message;
use std::alloc::{AllocError, Allocator};

/// What became of a message of RECEIVED, by the alignments of the harts of SENT.
#[derive(Clone, Copy)]
pub enum Arrival {
    /// SENT has no message of its hart.
    Stranger,
    /// It is matched with no message of SENT.
    Extra,
    /// It is matched.
    Matched {
        /// The number of SENT that it is matched with.
        number: u64,
        /// How many numbers there are between it and the last one matched before it.
        skips: u64,
    },
}

/// How far the messages of each hart of SENT are taken, before the first, by the alignments of the harts
/// ([`crate::aligned_harts`]). Memory is taken once.
pub fn cursors<'a, A: Allocator>(
    alloc: A,
    all: &'a [Alignment<A>],
) -> Result<Vec<Cursor<'a>, A>, AllocError>
    ensures { IfOk result (λ cursors. cursors.items ≡ map start all.entry.now) }
{
    let mut cursors = Vec::with_capacity(alloc, all.len())?;
    for own in all {
        cursors.push(Cursor::new(own.sent(), own.came()))?;
    }
    Ok(cursors)
}

/// Takes the next message of RECEIVED, which is of this hart, and returns what became of it. No memory is taken.
pub fn take<A: Allocator>(cursors: &mut Vec<Cursor<'_>, A>, hart: u16) -> Arrival
    ensures arrival { result ≡ arrival_of (slice_get cursors.old.items hart) }
    ensures moved { cursors.new.items ≡ moved cursors.old.items hart (slice_get cursors.old.items hart) }
{
    match cursors.get_mut(usize::from(hart)) {
        Some(own) => own.next(),
        None => Arrival::Stranger,
    }
}

/// The line of a message, if it has one.
fn line_of(place: u64, hart: u16, arrival: Arrival) -> Option<Line>
    ensures { option_to_list result ≡ arrival_line place hart arrival }
{
    match arrival {
        Arrival::Stranger => Some(Line::Stranger { place, hart }),
        Arrival::Extra => Some(Line::Extra { place, hart }),
        Arrival::Matched { number, skips } => {
            if skips == 0 {
                None
            } else {
                Some(Line::Skips {
                    place,
                    hart,
                    number,
                    skips,
                })
            }
        }
    }
}

/// Adds the line of a message, if it has one.
fn add_line<A: Allocator>(
    lines: &mut Vec<Line, A>,
    place: u64,
    hart: u16,
    arrival: Arrival,
) -> Result<(), AllocError>
    ensures { OnOk result (lines.new.items ≡ lines.old.items ++ arrival_line place hart arrival) }
{
    let Some(line) = line_of(place, hart, arrival) else {
        return Ok(());
    };
    lines.push(line)?;
    Ok(())
}

/// What is to be said of the messages of RECEIVED, in their order, by the alignments of the harts of SENT
/// ([`crate::aligned_harts`]): of each that is a stranger, is extra, or is matched and skips a number.
///
/// The first of them is the first message at which a fault shows. The memory that is taken grows with the count of
/// harts and of lines.
pub fn arrival_lines<A: Allocator + Copy>(
    alloc: A,
    all: &[Alignment<A>],
    messages: &[Message],
) -> Result<Vec<Line, A>, AllocError>
    ensures { IfOk result (λ lines.
        lines.items ≡ arrival_lines all.now (map (λ (message : AnyMessage). message.hart) messages.now)) }
{
    let mut cursors = cursors(alloc, all)?;
    let mut lines = Vec::new(alloc);
    for (place, message) in messages.iter().enumerate() {
        let arrival = take(&mut cursors, message.hart);
        add_line(&mut lines, place as u64, message.hart, arrival)?;
    }
    Ok(lines)
}

/// As [`arrival_lines`], of messages of these harts.
pub fn lines_by_hart<A: Allocator + Copy>(
    alloc: A,
    all: &[Alignment<A>],
    harts: &[u16],
) -> Result<Vec<Line, A>, AllocError>
    ensures { IfOk result (λ lines. lines.items ≡ arrival_lines all.now harts.now) }
{
    let mut states = cursors(alloc, all)?;
    let mut lines = Vec::new(alloc);
    for (place, hart) in harts.iter().enumerate() {
        let arrival = take(&mut states, *hart);
        add_line(&mut lines, place as u64, *hart, arrival)?;
    }
    Ok(lines)
}
