//! Sections of the messages of long harts.

use crate::hart::Work;
use crate::packet_at;
use payload::Packet;
use std::alloc::AllocError;

/// How many messages a section has at least, but for the last one of a hart.
const SHORTEST: usize = 4096;

/// About how many sections there are at most, those of all harts.
const MOST: usize = 8192;

/// Some of a hart's messages: from one to before another, counted from 0.
#[derive(Clone, Copy)]
pub(crate) struct Section {
    pub(crate) hart: usize,
    pub(crate) first: usize,
    pub(crate) end: usize,
}

/// The sections of the harts whose messages begin at these places, in order. A hart with few messages has none. Each
/// section but a hart's first one begins behind a synchronisation.
pub(crate) fn sections_of(
    work: &Work<'_>,
    places: &[Vec<usize>],
    count: u64,
) -> Result<Vec<Section>, AllocError> {
    let size = SHORTEST.max(count as usize / MOST);
    let mut sections = Vec::new(work.alloc);
    for (hart, own) in places.iter().enumerate() {
        add_sections(work, &mut sections, hart, own.as_slice(), size)?;
    }
    Ok(sections)
}

/// Adds the sections of a hart, of about so many messages each.
fn add_sections(
    work: &Work<'_>,
    sections: &mut Vec<Section>,
    hart: usize,
    places: &[usize],
    size: usize,
) -> Result<(), AllocError> {
    let mut first = 0;
    for number in 1..places.len() / size.max(1) {
        if let Some(end) = cut_after(work, places, number.saturating_mul(size), size) {
            sections.push(Section { hart, first, end })?;
            first = end;
        }
    }
    if first > 0 {
        let end = places.len();
        sections.push(Section { hart, first, end })?;
    }
    Ok(())
}

/// Where a section may begin that has the messages behind this one: behind the first synchronisation from here on, if
/// there is one among so many messages.
fn cut_after(work: &Work<'_>, places: &[usize], from: usize, most: usize) -> Option<usize> {
    let end = from.saturating_add(most).min(places.len());
    for place in from..end {
        if let Some(Packet::Sync { .. }) = packet_at(work.bytes, places[place]) {
            return Some(place + 1);
        }
    }
    None
}
