//! Finding the message that a row of each hart comes from.

ghost use Rattle.std.specs.Prelude.{ℕ, ◌≡◌, ◌+◌, ◌<◌, ◌^◌, [], IfErr, IfOk, Ok, false, length, map, true};
ghost use Rattle.comparing.specs.Sourced.{AreNumbered, AreSourced, StopsEarly};
ghost use Rattle.comparing.specs.Sources.{first_offset};
ghost use Rattle.comparing.specs.declared.source.SourcingFault.TheVariants.{Memory, Stops};
ghost use Rattle.comparing.specs.steps.Counting.{comes_before};
ghost use Rattle.comparing.specs.steps.Sourcing.{AreFollowed, AreFollowedUpTo, IsFollowedOn, IsRefusedAt, IsRefusedUpTo};
ghost use Rattle.comparing.specs.steps.Sourcing.{harts_of, own_stop_by, sourced_by, stopped_after};
ghost use Rattle.rvclass.specs.Fetch.{words_of};
ghost use Rattle.rvclass.specs.Words.{Words};

use crate::counting::comes_before;
use crate::explained::ExplainedHart;
use crate::source::{RowSource, SourceMessage, SourcingFault};
use crate::trail::Trail;
use captures::CaptureFault;
use message::{HEADER_SIZE, Header, Message, Messages};
use retire::Event;
use rvclass::ProgramOver;
use std::alloc::Allocator;

/// What a comparison says of a hart, and where the row comes from in which its log and what is decoded first differ.
#[derive(Clone, Copy)]
pub struct SourcedHart {
    /// What is said of the hart.
    pub hart: ExplainedHart,
    /// Where the row comes from, where the log did not come back whole.
    pub source: RowSource,
}

/// The messages of some harts of a capture, and the program that they ran.
#[derive(Clone, Copy)]
pub(crate) struct Followed<'a> {
    pub(crate) program: &'a ProgramOver<'a>,
    /// Where decoding stops, and why.
    pub(crate) stop: Option<(u64, CaptureFault)>,
    /// The first of the harts.
    pub(crate) first: usize,
    /// The offset of the first message.
    pub(crate) offset: u64,
}

/// The complete message at which decoding stops.
#[derive(Clone, Copy)]
pub(crate) struct StopMessage {
    pub(crate) hart: u16,
    pub(crate) at: SourceMessage,
    pub(crate) why: CaptureFault,
}

/// Where the row comes from in which the log of each of these harts and what is decoded first differ: the first message
/// of the hart after which the row is decoded, and else why it is not. The first hart has the number `first`, and each
/// other one the number after the one before it. `stop` is where decoding this capture stops, and why.
///
/// The capture is read once, and messages of a hart are decoded up to that row. Nothing is decoded of a hart whose log
/// came back whole. The error is [`SourcingFault::Stops`] only where decoding one of the others stops before `stop`. It
/// never is where the capture is decoded up to there: [`decoding_stops_where_it_is_said`].
///
/// [`decoding_stops_where_it_is_said`]: crate::decoding_stops_where_it_is_said
pub fn sources_of<A: Allocator + Copy>(
    alloc: A,
    program: &ProgramOver,
    bytes: &[u8],
    stop: Option<(u64, CaptureFault)>,
    first: usize,
    harts: &[ExplainedHart],
) -> Result<Vec<SourcedHart, A>, SourcingFault>
    requires numbered { AreNumbered first harts.now }
    ensures sourced { IfOk result
        (λ sourced. AreSourced (words_of program.now) bytes.now stop harts.now sourced.items) }
    ensures stops { IfErr result
        (λ why. why ≡ Stops → StopsEarly (words_of program.now) bytes.now stop harts.now) }
{
    let mut trails = trails_of(alloc, harts)?;
    let mut left = Messages::new(bytes);
    match left.header() {
        Ok(header) => {
            let what = Followed {
                program,
                stop,
                first,
                offset: first_offset(header),
            };
            let stopped = follow_messages(&mut trails, what, left, &mut Vec::new(alloc))?;
            sourced_of(alloc, trails.as_slice(), stopped)
        }
        Err(_) => sourced_of(alloc, trails.as_slice(), None),
    }
}

/// The offset of the first message behind a header, or without one.
fn first_offset(header: Option<Header>) -> u64
    ensures { result ≡ first_offset header }
{
    match header {
        Some(_) => HEADER_SIZE as u64,
        None => 0,
    }
}

/// The trails of harts of which no message came.
fn trails_of<A: Allocator>(
    alloc: A,
    harts: &[ExplainedHart],
) -> Result<Vec<Trail, A>, SourcingFault>
    ensures harts { IfOk result (λ trails. harts_of trails.items ≡ harts.now) }
    ensures none { IfOk result (λ trails. (words : Words) (offset : ℕ) → AreFollowed words offset [] trails.items) }
    ensures fault { IfErr result (λ why. why ≡ Memory) }
{
    let mut trails = Vec::with_capacity(alloc, harts.len())?;
    for hart in harts {
        trails.push_reserved(Trail::new(*hart));
    }
    Ok(trails)
}

/// Follows the messages that these bytes begin with, up to the one at which decoding stops, and returns that one, if it
/// is complete.
fn follow_messages<A: Allocator>(
    trails: &mut Vec<Trail, A>,
    what: Followed<'_>,
    mut left: Messages<'_>,
    piece: &mut Vec<Event, A>,
) -> Result<Option<StopMessage>, SourcingFault>
    requires room { what.offset + length left < 2 ^ 64 }
    ensures followed { IfOk result (AreFollowedUpTo what.entry left.entry trails.old.items trails.new.items) }
    ensures stops { IfErr result
        (λ why. why ≡ Stops → IsRefusedUpTo what.entry left.entry trails.old.items) }
{
    let mut number = 0;
    let mut offset = what.offset;
    let mut stopped = None;
    loop {
        let message = match left.next() {
            Ok(Some(message)) => message,
            Ok(None) => return Ok(stopped),
            Err(_) => return Ok(stopped),
        };
        let at = SourceMessage {
            place: number,
            number: message.number,
            offset,
        };
        follow_next(trails, what, at, &message, piece)?;
        stopped = stopped_after(what.stop, at, message.hart, stopped);
        number += 1;
        offset += message.size() as u64;
    }
}

/// The message at which decoding stops, where this one of a hart comes next.
fn stopped_after(
    stop: Option<(u64, CaptureFault)>,
    at: SourceMessage,
    hart: u16,
    before: Option<StopMessage>,
) -> Option<StopMessage>
    ensures { result ≡ stopped_after stop at hart before }
{
    match stop {
        Some((end, why)) if end == at.place => Some(StopMessage { hart, at, why }),
        _ => before,
    }
}

/// Follows the next message, if it comes before the one at which decoding stops and is of one of the harts.
fn follow_next<A: Allocator>(
    trails: &mut Vec<Trail, A>,
    what: Followed<'_>,
    at: SourceMessage,
    message: &Message,
    piece: &mut Vec<Event, A>,
) -> Result<(), SourcingFault>
    ensures before { comes_before what.entry.stop at.place ≡ true
        → IfOk result (λ done. IsFollowedOn what.entry at message.now trails.old.items trails.new.items) }
    ensures kept { comes_before what.entry.stop at.place ≡ false → trails.new.items ≡ trails.old.items }
    ensures passed { comes_before what.entry.stop at.place ≡ false → result ≡ Ok tt }
    ensures stops { IfErr result (λ why. why ≡ Stops → IsRefusedAt what.entry message.now trails.old.items) }
{
    if !comes_before(what.stop, at.place) {
        return Ok(());
    }
    follow_message(trails, what, at, message, piece)
}

/// Follows the message, if it is of one of the harts.
fn follow_message<A: Allocator>(
    trails: &mut Vec<Trail, A>,
    what: Followed<'_>,
    at: SourceMessage,
    message: &Message,
    piece: &mut Vec<Event, A>,
) -> Result<(), SourcingFault>
    ensures followed { IfOk result
        (λ done. IsFollowedOn what.entry at message.now trails.old.items trails.new.items) }
    ensures stops { IfErr result (λ why. why ≡ Stops → IsRefusedAt what.entry message.now trails.old.items) }
{
    let hart = usize::from(message.hart);
    if hart < what.first || hart - what.first >= trails.len() {
        return Ok(());
    }
    let place = hart - what.first;
    if trails[place].hart.line.verdict.is_whole() {
        return Ok(());
    }
    trails[place].follow(what.program, at, message, piece)
}

/// What is said of harts whose messages were followed, and where their rows come from.
fn sourced_of<A: Allocator>(
    alloc: A,
    trails: &[Trail],
    stopped: Option<StopMessage>,
) -> Result<Vec<SourcedHart, A>, SourcingFault>
    ensures sourced { IfOk result (λ sourced. sourced.items ≡ map (sourced_by stopped) trails.now) }
    ensures fault { IfErr result (λ why. why ≡ Memory) }
{
    let mut sourced = Vec::with_capacity(alloc, trails.len())?;
    for trail in trails {
        sourced.push_reserved(SourcedHart {
            hart: trail.hart,
            source: trail.source(own_stop(stopped, trail.hart.line.hart)),
        });
    }
    Ok(sourced)
}

/// The message at which decoding stops, and why, if it is of this hart.
fn own_stop(stopped: Option<StopMessage>, hart: usize) -> Option<(SourceMessage, CaptureFault)>
    ensures { result ≡ own_stop_by stopped hart }
{
    match stopped {
        Some(stop) if usize::from(stop.hart) == hart => Some((stop.at, stop.why)),
        _ => None,
    }
}
