//! A place in the events of a hart.

ghost use Rattle.std.specs.Prelude.{◌≡◌, ◌⊎◌, ◌-◌, ◌<◌, ◌+◌, ◌==◌, ◌++◌, [], List, drop, length, take, vec_capacity, vec_len};
ghost use Rattle.parallel_decode.specs.Left.{HasLeft, left_of};
ghost use Rattle.parallel_decode.specs.steps.Handing.{Hands};
ghost use Rattle.parallel_decode.specs.Placed.{IsPlacedLog};
ghost use Rattle.retire.specs.declared.event.Event.{Event as AnyEvent};
ghost use Rattle.rvclass.specs.Fetch.{words_of};

use crate::{feed_packet, packet_at};
use decoder::{Decoder, Unwritten};
use retire::Event;
use rvclass::ProgramOver;
use std::alloc::Allocator;

/// The events of a hart of a capture that are not handed out yet, in order.
///
/// It holds the state of a decoder and no list: the messages are decoded when their events are asked for. Takes no
/// memory.
#[derive(Drop)]
pub struct HartEvents<'a> {
    pub(crate) program: &'a ProgramOver<'a>,
    pub(crate) bytes: &'a [u8],
    pub(crate) places: &'a [usize],
    /// How many of the messages are decoded.
    pub(crate) taken: usize,
    pub(crate) decoder: Decoder,
    /// The events of the last of them that are not handed out.
    pub(crate) left: Option<Unwritten<'a>>,
}

impl<'a> HartEvents<'a> {
    /// All events of the hart whose messages begin at these places of the bytes, in this order.
    pub fn new(program: &'a ProgramOver<'a>, bytes: &'a [u8], places: &'a [usize]) -> HartEvents<'a>
        ensures { (log : List AnyEvent) → IsPlacedLog (words_of program.now) bytes.now places.now log
            → HasLeft log result }
    {
        HartEvents {
            program,
            bytes,
            places,
            taken: 0,
            decoder: Decoder::new(),
            left: None,
        }
    }

    /// Appends as many of the events that are left as the piece has capacity for: at most its capacity minus its
    /// length, and fewer only where no more are left. Those after them are left then.
    pub fn next_piece<A: Allocator>(&mut self, piece: &mut Vec<Event, A>)
        ensures appended { (rest : List AnyEvent) → HasLeft rest self.old
            → piece.new.items ≡ piece.old.items ++ take (vec_capacity piece.old - vec_len piece.old) rest }
        ensures left { (rest : List AnyEvent) → HasLeft rest self.old
            → HasLeft (drop (vec_capacity piece.old - vec_len piece.old) rest) self.new }
        ensures room { vec_capacity piece.new ≡ vec_capacity piece.old }
    {
        self.hand_out(piece);
        for _ in self.taken..self.places.len() {
            if !self.is_handed_out() {
                return;
            }
            self.decode_next(piece);
        }
    }

    /// Whether all events of the messages that are decoded are handed out.
    fn is_handed_out(&self) -> bool
        ensures { result ≡ (length (left_of self.now.left) == 0) }
    {
        match &self.left {
            Some(left) => left.is_empty(),
            None => true,
        }
    }

    /// Hands out as many of the events that are decoded as the piece has capacity for.
    fn hand_out<A: Allocator>(&mut self, piece: &mut Vec<Event, A>)
        ensures hands { (rest : List AnyEvent) → HasLeft rest self.old
            → Hands rest piece.old.items piece.new.items self.new }
        ensures filled { (left_of self.new.left ≡ []) ⊎ (vec_len piece.new ≡ vec_capacity piece.new) }
        ensures room { vec_capacity piece.new ≡ vec_capacity piece.old }
        ensures same { self.new ≡ record self.old { left = self.new.left } }
    {
        if let Some(left) = &mut self.left {
            left.next_piece(piece);
        }
    }

    /// Decodes the next message, and hands out as many of its events as the piece has capacity for.
    fn decode_next<A: Allocator>(&mut self, piece: &mut Vec<Event, A>)
        ensures hands { (rest : List AnyEvent) → HasLeft rest self.old → left_of self.old.left ≡ []
            → self.old.taken < length self.old.places.now → Hands rest piece.old.items piece.new.items self.new }
        ensures taken { (rest : List AnyEvent) → HasLeft rest self.old → self.old.taken < length self.old.places.now
            → self.new.taken ≡ self.old.taken + 1 }
        ensures filled { left_of self.old.left ≡ []
            → (left_of self.new.left ≡ []) ⊎ (vec_len piece.new ≡ vec_capacity piece.new) }
        ensures room { vec_capacity piece.new ≡ vec_capacity piece.old }
        ensures places { self.new.places ≡ self.old.places }
    {
        let Some(place) = self.places.get(self.taken) else {
            return;
        };
        let Some(packet) = packet_at(self.bytes, *place) else {
            return;
        };
        let Ok(left) = feed_packet(&mut self.decoder, self.program, &packet, piece) else {
            return;
        };
        self.left = Some(left);
        self.taken += 1;
        self.hand_out(piece);
    }
}
