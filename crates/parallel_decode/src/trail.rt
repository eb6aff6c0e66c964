//! States of decoders that are kept on the way through a hart's messages.

ghost use Rattle.std.specs.Prelude.{◌≡◌, ◌++◌, ◌<◌, ◌-◌, ◌^◌, List, [], OnOk, length, min};
ghost use Rattle.retire.specs.declared.event.Event.{Event as AnyEvent};
ghost use Rattle.rvclass.specs.Words.{Words};
ghost use Rattle.decoder.specs.DecoderStands.{DecoderStands};
ghost use Rattle.message.specs.OfHart.{packets_in};
ghost use Rattle.message.specs.declared.message.Message.{Message as AnyMessage};
ghost use Rattle.parallel_decode.specs.steps.Ends.{IsTrail};

use crate::Mark;
use decoder::Decoder;
use std::alloc::{AllocError, Global};

/// At least so many events are between two marks of a hart. Where it is surveyed in sections there are fewer than twice
/// as many, unless one packet settles more.
pub const MARK_EVENTS: u64 = 65_536;

/// The marks of a hart, and how far it is decoded.
#[derive(Drop)]
pub(crate) struct Trail {
    /// How many events there are so far, or 2^64 - 1 if there are more.
    pub(crate) events: u64,
    /// From how many events on the next mark is made.
    pub(crate) next: u64,
    pub(crate) marks: Vec<Mark, Global>,
}

impl Trail {
    /// Nothing is decoded.
    pub(crate) fn new(alloc: Global) -> Trail
        ensures { (words : Words) → IsTrail words [] [] result }
    {
        Trail {
            events: 0,
            next: MARK_EVENTS,
            marks: Vec::new(alloc),
        }
    }

    /// With more messages, `taken` in all, so many events more are decoded, and this is the decoder then. A mark is made
    /// if it is time, unless there are `most` of them.
    pub(crate) fn add(
        &mut self,
        most: usize,
        taken: usize,
        events: u64,
        decoder: &Decoder,
    ) -> Result<(), AllocError>
        ensures { (words : Words) (messages more : List AnyMessage) (log added : List AnyEvent)
            → IsTrail words messages log self.old → taken ≡ length (messages ++ more) → length messages < taken
            → events ≡ min (2 ^ 64 - 1) (length added)
            → DecoderStands words (packets_in (messages ++ more)) (log ++ added) decoder.now
            → OnOk result (IsTrail words (messages ++ more) (log ++ added) self.new) }
    {
        self.events = self.events.saturating_add(events);
        if self.events < self.next || self.marks.len() >= most {
            return Ok(());
        }
        self.next = self.events.saturating_add(MARK_EVENTS);
        self.marks.push(Mark {
            taken,
            events: self.events,
            decoder: *decoder,
        })?;
        Ok(())
    }
}
