//! Sections of a hart's messages that are received by themselves.

ghost use Rattle.std.specs.Prelude.{◌≡◌, ◌++◌, ◌∷◌, [], OnOk};
ghost use Rattle.rvclass.specs.Fetch.{words_of};
ghost use Rattle.parallel_decode.specs.steps.Sections.{AreAdded};

use crate::hart::{Work, message_at};
use crate::own::Own;
use crate::sections::Section;
use crate::trail::MARK_EVENTS;
use crate::{feed_packet, packet_at};
use decoder::{Decoder, DecoderState};
use message::Hart;
use payload::{Mode, Packet, Support};
use std::alloc::AllocError;

/// So many sections of one thread are added in parts at most, of about 240 bytes each.
const MOST_PARTS: usize = 4096;

/// A section that was received.
#[derive(Clone, Copy)]
pub(crate) struct SectionEnd {
    pub(crate) section: Section,
    /// What it was received from. The messages before it may lead to another state.
    pub(crate) from: Own,
    /// What it leads to from there.
    pub(crate) to: Own,
    /// How many events it has, or 2^64 - 1 if there are more.
    pub(crate) events: u64,
}

/// Adds a section that leads from this state to that one, with so many events.
fn add_section(
    ends: &mut Vec<SectionEnd>,
    section: Section,
    from: Own,
    to: Own,
    events: u64,
) -> Result<(), AllocError>
    ensures { OnOk result (ends.new.items ≡ ends.old.items ++ (record {
      section = section;
      from = from;
      to = to;
      events = events;
    }) ∷ []) }
{
    ends.push(SectionEnd {
        section,
        from,
        to,
        events,
    })?;
    Ok(())
}

/// The section of a hart's messages from one to before another.
fn section_of(hart: usize, first: usize, end: usize) -> Section
    ensures { result ≡ record { hart = hart; first = first; end = end } }
{
    Section { hart, first, end }
}

/// Whether a section with so many events that leads to this state ends here, where so many were added before: it has as
/// many as are between two marks, and its last state is known where it comes again.
fn is_cut(added: usize, events: u64, to: &Own) -> bool {
    events >= MARK_EVENTS && (added < MOST_PARTS && to.is(to))
}

/// Receives a section of a hart's messages, which begin at these places, up to the first that is refused, and adds what
/// was received. Where it has many events it is added in parts. Where the message before it is no synchronisation, its
/// first message is refused.
pub(crate) fn receive_section(
    work: &Work<'_>,
    places: &[usize],
    section: Section,
    ends: &mut Vec<SectionEnd>,
) -> Result<(), AllocError>
    ensures { OnOk result (AreAdded (words_of work.now.program.now) work.now.announced work.now.bytes.now places.now
        section.hart ends.old.items ends.new.items) }
{
    let hart = section.hart;
    let end = section.end.min(places.len());
    let mut first = section.first;
    if first >= end {
        return Ok(());
    }
    let mut from = state_before(work, places, first);
    let mut own = from;
    let mut events = 0u64;
    for number in first..end {
        let Some(message) = message_at(work.bytes, places[number]) else {
            return add_section(ends, section_of(hart, first, number), from, own, events);
        };
        let mut next = own;
        match next.receive(work.alloc, work.program, work.announced, &message) {
            Ok(more) => events = events.saturating_add(more),
            Err(_) => return add_section(ends, section_of(hart, first, number), from, own, events),
        }
        own = next;
        if is_cut(ends.len(), events, &own) {
            add_section(ends, section_of(hart, first, number + 1), from, own, events)?;
            first = number + 1;
            from = own;
            events = 0;
        }
    }
    add_section(ends, section_of(hart, first, end), from, own, events)
}

/// The state before a hart's message with this number, if all before it are received and the last of them is a
/// synchronisation. Else it is that before the first message.
fn state_before(work: &Work<'_>, places: &[usize], number: usize) -> Own {
    match decoder_before(work, places, number) {
        Some(decoder) => Own {
            expected: Hart {
                expected: number as u64,
                closed: false,
            },
            decoder,
            closed: false,
        },
        None => Own::new(),
    }
}

/// The decoder of that state.
fn decoder_before(work: &Work<'_>, places: &[usize], number: usize) -> Option<Decoder> {
    let place = places.get(number.checked_sub(1)?)?;
    let packet = packet_at(work.bytes, *place)?;
    let mode = mode_of(work, places)?;
    let mut decoder = Decoder::from_state(DecoderState {
        announced: Some(mode),
        ..resumed(mode)
    });
    let mut piece = Vec::new(work.alloc);
    match feed_packet(&mut decoder, work.program, &packet, &mut piece) {
        Ok(_) => Some(decoder),
        Err(_) => None,
    }
}

/// A decoder behind a loss.
fn resumed(mode: Mode) -> DecoderState {
    let mut decoder = Decoder::new();
    decoder.resume(mode);
    decoder.state()
}

/// The mode of a hart's trace: the one that is announced for all, or that its first packet announces.
fn mode_of(work: &Work<'_>, places: &[usize]) -> Option<Mode> {
    if work.announced.is_some() {
        return work.announced;
    }
    match packet_at(work.bytes, *places.first()?) {
        Some(Packet::Support(Support::Open(mode))) => Some(mode),
        _ => None,
    }
}
