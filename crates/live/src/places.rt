//! Where the messages of a hart are, from one to the next: where a message is looked for first.
//!
//! What is found never depends on this, only how many steps it takes: where a message is looked for first, there it is, as long
//! as numbers are those of its hart in turn.

use std::alloc::{AllocError, Allocator};

/// How many places the message of the same hart before a message is away, and the one after it. 0 where there is none.
#[derive(Clone, Copy)]
struct Neighbours {
    before: u32,
    after: u32,
}

/// A message of a hart in view, if there is one, and the last of it that was read.
#[derive(Clone, Copy)]
struct Track {
    is_known: bool,
    number: u64,
    place: u64,
    last: u64,
}

/// Where the messages of each hart are in view. Places are counted from SENT's first message.
#[derive(Drop)]
pub(crate) struct Places<A: Allocator> {
    /// How many messages are given up.
    gone: u64,
    /// How many messages were read.
    read: u64,
    /// Of each message in view its neighbours, at its place modulo their count.
    neighbours: Vec<Neighbours, A>,
    /// Of each hart a message in view.
    tracks: Vec<Track, A>,
}

impl<A: Allocator + Copy> Places<A> {
    /// Before the first message, with so many messages in view at most.
    pub(crate) fn new(alloc: A, count: usize, harts: u16) -> Result<Places<A>, AllocError> {
        let none = Neighbours {
            before: 0,
            after: 0,
        };
        let track = Track {
            is_known: false,
            number: 0,
            place: 0,
            last: 0,
        };
        Ok(Places {
            gone: 0,
            read: 0,
            neighbours: vec![in alloc; none; count]?,
            tracks: vec![in alloc; track; usize::from(harts)]?,
        })
    }
}

impl<A: Allocator> Places<A> {
    /// Where a place is kept.
    fn kept_at(&self, place: u64) -> usize {
        let count = self.neighbours.len() as u64;
        if count == 0 {
            0
        } else {
            (place % count) as usize
        }
    }

    /// The neighbours of a message.
    fn neighbours_at(&self, place: u64) -> Neighbours {
        match self.neighbours.get(self.kept_at(place)) {
            Some(own) => *own,
            None => Neighbours {
                before: 0,
                after: 0,
            },
        }
    }

    /// Sets the neighbours of a message.
    fn set(&mut self, place: u64, neighbours: Neighbours) {
        let at = self.kept_at(place);
        if let Some(own) = self.neighbours.get_mut(at) {
            *own = neighbours;
        }
    }

    /// The next message of SENT is of this hart and has this number.
    pub(crate) fn add(&mut self, hart: u16, number: u64) {
        let place = self.read;
        self.read = place.wrapping_add(1);
        let Some(track) = self.tracks.get(usize::from(hart)).copied() else {
            return;
        };
        let mut next = track;
        next.last = place;
        let mut before = 0;
        if track.is_known {
            before = u32::try_from(place.wrapping_sub(track.last)).unwrap_or(0);
            let own = self.neighbours_at(track.last);
            self.set(
                track.last,
                Neighbours {
                    before: own.before,
                    after: before,
                },
            );
        } else {
            next.is_known = true;
            next.number = number;
            next.place = place;
        }
        self.set(place, Neighbours { before, after: 0 });
        self.put(hart, next);
    }

    /// Sets what is kept of a hart.
    fn put(&mut self, hart: u16, track: Track) {
        if let Some(own) = self.tracks.get_mut(usize::from(hart)) {
            *own = track;
        }
    }

    /// The first message in view, of this hart, is given up.
    pub(crate) fn remove(&mut self, hart: u16) {
        let place = self.gone;
        self.gone = place.wrapping_add(1);
        let Some(track) = self.tracks.get(usize::from(hart)).copied() else {
            return;
        };
        if track.place != place {
            return;
        }
        let after = self.neighbours_at(place).after;
        self.put(
            hart,
            Track {
                is_known: after != 0,
                number: track.number.wrapping_add(1),
                place: place.wrapping_add(u64::from(after)),
                last: track.last,
            },
        );
    }

    /// Where a message in view is looked for first. Places are counted from the first message in view.
    pub(crate) fn guess(&self, hart: u16, number: u64) -> usize {
        let Some(track) = self.tracks.get(usize::from(hart)).copied() else {
            return 0;
        };
        let mut at = track.number;
        let mut place = track.place;
        for _ in 0..self.neighbours.len() {
            let own = self.neighbours_at(place);
            if at < number && own.after != 0 {
                at = at.wrapping_add(1);
                place = place.wrapping_add(u64::from(own.after));
            } else if at > number && own.before != 0 {
                at = at.wrapping_sub(1);
                place = place.wrapping_sub(u64::from(own.before));
            } else {
                break;
            }
        }
        place.wrapping_sub(self.gone) as usize
    }

    /// A message was found at this place in view.
    pub(crate) fn note(&mut self, hart: u16, number: u64, place: usize) {
        let place = self.gone.wrapping_add(place as u64);
        let Some(track) = self.tracks.get(usize::from(hart)).copied() else {
            return;
        };
        self.put(
            hart,
            Track {
                is_known: true,
                number,
                place,
                last: track.last,
            },
        );
    }
}
