//! How far the messages of a hart are followed to a row of it.

ghost use Rattle.std.specs.Prelude.{◌≡◌, ◌+◌, ◌++◌, ◌∷◌, [], All, IfErr, IfOk, IfSome, List, Ok};
ghost use Rattle.comparing.specs.Sources.{EndsRefused, IsRefused, source_message};
ghost use Rattle.comparing.specs.declared.source.SourcingFault.TheVariants.{Memory, Stops};
ghost use Rattle.comparing.specs.steps.Following.{IsDecodedOn, IsFollowed, source_by, trail_after, waited_by};
ghost use Rattle.decoder.specs.DecoderStands.{DecoderStands};
ghost use Rattle.listing.specs.Placed.{PlacedMessage};
ghost use Rattle.payload.specs.declared.packet.Packet.{Packet as AnyPacket};
ghost use Rattle.retire.specs.declared.event.Event.{Event as AnyEvent};
ghost use Rattle.rvclass.specs.Fetch.{words_of};
ghost use Rattle.rvclass.specs.Words.{Words};

use crate::explained::ExplainedHart;
use crate::source::{RowSource, SourceMessage, SourcingFault};
use captures::CaptureFault;
use decoder::{Decoder, Paths};
use listing::{read_closes, read_waits};
use message::Message;
use payload::{PackFault, Packet, unpack};
use retire::Event;
use rvclass::ProgramOver;
use std::alloc::Allocator;

/// The last message of a hart so far, and what its packet says of what follows it.
#[derive(Clone, Copy)]
pub(crate) struct LastMessage {
    pub(crate) message: SourceMessage,
    pub(crate) waits: bool,
    pub(crate) closes: bool,
}

/// The messages of a hart, followed to the row in which its log and what is decoded first differ.
#[derive(Drop)]
pub(crate) struct Trail {
    pub(crate) hart: ExplainedHart,
    pub(crate) decoder: Decoder,
    /// How many events the messages so far settle.
    pub(crate) rows: usize,
    pub(crate) last: Option<LastMessage>,
    /// The first message after which the row is decoded, once it came.
    pub(crate) found: Option<RowSource>,
}

impl Trail {
    /// No message of the hart came.
    pub(crate) fn new(hart: ExplainedHart) -> Trail
        ensures hart { result.hart ≡ hart }
        ensures none { (words : Words) → IsFollowed words [] result }
    {
        Trail {
            hart,
            decoder: Decoder::new(),
            rows: 0,
            last: None,
            found: None,
        }
    }

    /// Follows the next message of the hart, which is at this place. The scratch list `piece` keeps its capacity. The
    /// error says that decoding does not go on with the message, or that it adds too many events to count.
    pub(crate) fn follow<A: Allocator>(
        &mut self,
        program: &ProgramOver,
        at: SourceMessage,
        message: &Message,
        piece: &mut Vec<Event, A>,
    ) -> Result<(), SourcingFault>
        ensures hart { self.new.hart ≡ self.old.hart }
        ensures followed { (own : List PlacedMessage) (one : PlacedMessage) → one.message ≡ message.now
            → source_message one ≡ at → All (λ other. other.message.hart ≡ one.message.hart) own
            → IsFollowed (words_of program.now) own self.old
            → IfOk result (λ done. IsFollowed (words_of program.now) (own ++ one ∷ []) self.new) }
        ensures stops { (own : List PlacedMessage) (one : PlacedMessage) → one.message ≡ message.now
            → IsFollowed (words_of program.now) own self.old → IfErr result (λ why. why ≡ Stops
            → EndsRefused (words_of program.now) (own ++ one ∷ []) self.old.hart.row) }
    {
        if self.found.is_some() {
            return Ok(());
        }
        let read = unpack(message.payload.bytes());
        let added = decode(&mut self.decoder, program, &read, piece)?;
        let waits = read_waits(&read);
        let closes = read_closes(&read);
        self.add(at, added, waits, closes)
    }

    /// Adds a message that adds so many events.
    fn add(
        &mut self,
        at: SourceMessage,
        added: usize,
        waits: bool,
        closes: bool,
    ) -> Result<(), SourcingFault>
        ensures hart { self.new.hart ≡ self.old.hart }
        ensures after { IfOk result (λ done. self.new ≡ trail_after self.old at added waits closes) }
        ensures fault { IfErr result (λ why. why ≡ Memory) }
    {
        let Some(rows) = self.rows.checked_add(added) else {
            return Err(SourcingFault::Memory);
        };
        if rows >= self.hart.row {
            self.found = Some(RowSource::Settles {
                message: at,
                rows,
                added,
                waited: waited_by(self.last),
            });
            return Ok(());
        }
        self.rows = rows;
        self.last = Some(LastMessage {
            message: at,
            waits,
            closes,
        });
        Ok(())
    }

    /// Where the row comes from, where decoding stops at this message of the hart, if it stops at one.
    pub(crate) fn source(&self, stop: Option<(SourceMessage, CaptureFault)>) -> RowSource
        ensures { result ≡ source_by self.now stop }
    {
        if let Some(found) = self.found {
            return found;
        }
        if let Some(last) = self.last {
            if last.closes {
                return RowSource::Closes(last.message);
            }
        }
        match stop {
            Some((message, why)) => RowSource::Stops {
                message,
                why,
                waited: waited_by(self.last),
            },
            None => match self.last {
                Some(last) => RowSource::Last {
                    message: last.message,
                    waits: last.waits,
                },
                None => RowSource::Nothing,
            },
        }
    }
}

/// The number of the last message, if its packet waits.
fn waited_by(last: Option<LastMessage>) -> Option<u64>
    ensures { result ≡ waited_by last }
{
    match last {
        Some(last) if last.waits => Some(last.message.number),
        _ => None,
    }
}

/// Decodes a hart's next packet, and returns how many events it settles. The error says that there is no packet, that
/// decoding does not go on with it, or that the count is too large.
fn decode<A: Allocator>(
    decoder: &mut Decoder,
    program: &ProgramOver,
    read: &Result<Packet, PackFault>,
    piece: &mut Vec<Event, A>,
) -> Result<usize, SourcingFault>
    ensures decoded { (packets : List AnyPacket) (events : List AnyEvent)
        → DecoderStands (words_of program.now) packets events decoder.old
        → IfOk result (IsDecodedOn (words_of program.now) packets events read.now decoder.new) }
    ensures stops { (packets : List AnyPacket) (events : List AnyEvent)
        → DecoderStands (words_of program.now) packets events decoder.old
        → IfErr result (λ why. why ≡ Stops → IsRefused (words_of program.now) packets read.now) }
{
    let Ok(packet) = read else {
        return Err(SourcingFault::Stops);
    };
    piece.clear();
    let left = match decoder.feed_in_pieces(Paths::of(program), packet, piece) {
        Ok(left) => left,
        Err(_) => return Err(SourcingFault::Stops),
    };
    match sum(piece.len(), left.len()) {
        Some(count) => Ok(count),
        None => Err(SourcingFault::Memory),
    }
}

/// A sum, if it is below 2^64.
fn sum(one: usize, other: usize) -> Option<usize>
    ensures { IfSome result (λ sum. sum ≡ one + other) }
{
    one.checked_add(other)
}
