//! The first pass over the messages of one hart.

ghost use Rattle.std.specs.Prelude.{ℕ, ◌≡◌, ◌≤◌, All, List, IfOk, OnOk, Option, Some, None, Ok, length};
ghost use Rattle.rvclass.specs.Fetch.{words_of};
ghost use Rattle.rvclass.specs.Words.{Words};
ghost use Rattle.payload.specs.declared.mode.Mode.{Mode as AnyMode};
ghost use Rattle.message.specs.declared.message.Message.{Message as AnyMessage};
ghost use Rattle.parallel_decode.specs.steps.Ends.{IsEnd, IsReceivedSoFar};
ghost use Rattle.parallel_decode.specs.steps.Sections.{IsOfHart, IsSectionEnd};
ghost use Rattle.parallel_decode.specs.steps.Starts.{StartAt, StartsAt};

use crate::Mark;
use crate::own::Own;
use crate::section_ends::SectionEnd;
use crate::trail::Trail;
use message::{Message, Messages};
use payload::Mode;
use rvclass::ProgramOver;
use std::alloc::{AllocError, Global};

/// What all harts of a capture have in common.
#[derive(Drop)]
pub(crate) struct Work<'a> {
    pub(crate) alloc: Global,
    pub(crate) program: &'a ProgramOver<'a>,
    /// The mode that the header announces, if there is a header.
    pub(crate) announced: Option<Mode>,
    /// The messages.
    pub(crate) bytes: &'a [u8],
    /// How many marks a hart has at most.
    pub(crate) most: usize,
}

/// How the first pass over a hart's messages ends.
#[derive(Drop)]
pub(crate) struct HartEnd {
    pub(crate) own: Own,
    pub(crate) marks: Vec<Mark, Global>,
    /// Where the first message is that is refused, if one is.
    pub(crate) refused: Option<usize>,
}

/// The same, with the hart.
#[derive(Drop)]
pub(crate) struct Entry {
    pub(crate) hart: usize,
    pub(crate) end: HartEnd,
}

/// How far the messages of a hart are received.
#[derive(Drop)]
pub(crate) struct HartSoFar {
    pub(crate) own: Own,
    pub(crate) trail: Trail,
    /// How many messages were received.
    pub(crate) taken: usize,
}

impl HartSoFar {
    /// Nothing was received.
    fn new(alloc: Global) -> HartSoFar
        ensures { (words : Words) (announced : Option AnyMode) (messages : List AnyMessage)
            → IsReceivedSoFar words announced messages result }
    {
        HartSoFar {
            own: Own::new(),
            trail: Trail::new(alloc),
            taken: 0,
        }
    }

    /// Receives the hart's next messages, up to before the one with this number. The messages begin at these places.
    /// Returns where the first is that is refused, if one is.
    fn receive_to(
        &mut self,
        work: &Work<'_>,
        places: &[usize],
        end: usize,
    ) -> Result<Option<usize>, AllocError>
        ensures received { (messages : List AnyMessage) → StartAt work.now.bytes.now places.now messages
            → IsReceivedSoFar (words_of work.now.program.now) work.now.announced messages self.old
            → result ≡ Ok None
            → IsReceivedSoFar (words_of work.now.program.now) work.now.announced messages self.new }
        ensures all { length places.now ≤ end → result ≡ Ok None → length places.now ≤ self.new.taken }
    {
        for number in self.taken..end.min(places.len()) {
            let place = places[number];
            let Some(message) = message_at(work.bytes, place) else {
                return Ok(Some(place));
            };
            match self
                .own
                .receive(work.alloc, work.program, work.announced, &message)
            {
                Ok(events) => {
                    self.trail
                        .add(work.most, number + 1, events, &self.own.decoder)?
                }
                Err(_) => return Ok(Some(place)),
            }
            self.taken = number + 1;
        }
        Ok(None)
    }

    /// Takes a section of the hart's messages at once, if it comes next and was received from this state.
    fn pass(&mut self, work: &Work<'_>, section: &SectionEnd) -> Result<(), AllocError>
        ensures { (places : List ℕ) (messages : List AnyMessage) → StartAt work.now.bytes.now places messages
            → IsSectionEnd (words_of work.now.program.now) work.now.announced work.now.bytes.now places section.now
            → IsReceivedSoFar (words_of work.now.program.now) work.now.announced messages self.old
            → OnOk result (IsReceivedSoFar (words_of work.now.program.now) work.now.announced messages self.new) }
    {
        if self.taken != section.section.first || self.taken >= section.section.end {
            return Ok(());
        }
        if !self.own.is(&section.from) {
            return Ok(());
        }
        self.own = section.to;
        self.taken = section.section.end;
        self.trail
            .add(work.most, self.taken, section.events, &self.own.decoder)?;
        Ok(())
    }

    /// Takes the sections of the hart, and receives the messages between them. Returns where the first is that is
    /// refused, if one is.
    fn pass_sections(
        &mut self,
        work: &Work<'_>,
        hart: usize,
        places: &[usize],
        sections: &[SectionEnd],
    ) -> Result<Option<usize>, AllocError>
        ensures { (messages : List AnyMessage) → StartAt work.now.bytes.now places.now messages
            → All (IsOfHart (words_of work.now.program.now) work.now.announced work.now.bytes.now places.now hart)
            sections.now → IsReceivedSoFar (words_of work.now.program.now) work.now.announced messages self.old
            → result ≡ Ok None
            → IsReceivedSoFar (words_of work.now.program.now) work.now.announced messages self.new }
    {
        for number in first_of(sections, hart)..sections.len() {
            let section = &sections[number];
            if section.section.hart != hart {
                return Ok(None);
            }
            if let Some(place) = self.receive_to(work, places, section.section.first)? {
                return Ok(Some(place));
            }
            self.pass(work, section)?;
        }
        Ok(None)
    }

    /// The end of the hart's messages, the first of which that is refused is here, if one is.
    fn end(self, refused: Option<usize>) -> HartEnd
        ensures own { result.own ≡ self.own }
        ensures marks { result.marks ≡ self.trail.marks }
        ensures refused { result.refused ≡ refused }
    {
        HartEnd {
            own: self.own,
            marks: self.trail.marks,
            refused,
        }
    }
}

/// The number of the first of these sections that is of this hart or of a later one. They are in the order of their
/// harts.
fn first_of(sections: &[SectionEnd], hart: usize) -> usize {
    let mut low = 0;
    let mut high = sections.len();
    for _ in 0..64 {
        if low < high {
            let middle = low + (high - low) / 2;
            if sections[middle].section.hart < hart {
                low = middle + 1;
            } else {
                high = middle;
            }
        }
    }
    low
}

/// Receives the messages of a hart, which begin at these places, up to the first that is refused. Sections of it that
/// were received from the state that the messages before them lead to are not received again.
pub(crate) fn receive_hart(
    work: &Work<'_>,
    hart: usize,
    places: &[usize],
    sections: &[SectionEnd],
) -> Result<HartEnd, AllocError>
    ensures { All (IsOfHart (words_of work.now.program.now) work.now.announced work.now.bytes.now places.now hart)
        sections.now
        → IfOk result (IsEnd (words_of work.now.program.now) work.now.announced work.now.bytes.now places.now) }
{
    let mut so_far = HartSoFar::new(work.alloc);
    if let Some(place) = so_far.pass_sections(work, hart, places, sections)? {
        return Ok(so_far.end(Some(place)));
    }
    let refused = so_far.receive_to(work, places, places.len())?;
    Ok(so_far.end(refused))
}

/// The message that begins at this place, if one does.
pub(crate) fn message_at(bytes: &[u8], place: usize) -> Option<Message>
    ensures { (message : AnyMessage) → StartsAt bytes.now place message → result ≡ Some message }
{
    if bytes.len() < place {
        return None;
    }
    let mut messages = Messages::new(&bytes[place..]);
    match messages.next() {
        Ok(found) => found,
        Err(_) => None,
    }
}
