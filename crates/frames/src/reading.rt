//! Bytes to the messages among them.

ghost use Rattle.std.specs.Prelude.{◌≡◌, ◌≤◌, ◌+◌, ◌++◌, ℕ, All, IfSome, List, [], None, drop, length, option_map};
ghost use Rattle.std.specs.Option.{option_to_list};
ghost use Rattle.frames.specs.Frame.{frame_in, frame_size, length_in};
ghost use Rattle.frames.specs.declared.span.Span.TheVariants as Span;
ghost use Rattle.payload.specs.Limits.{most_bytes};
ghost use Rattle.frames.specs.Written.{Scattered, frames_from, scattered_bytes, scattered_from};
ghost use Rattle.message.specs.Capture.{capture};
ghost use Rattle.message.specs.Cut.{IsMessage};
ghost use Rattle.message.specs.declared.message.Message.{Message as AnyMessage};
ghost use Rattle.frames.specs.Counted.{span_size};
ghost use Rattle.frames.specs.Borrowed.{HasPayload, span_of};
ghost use Rattle.frames.specs.Amid.{IsSentMessage, NoneBegins};
ghost use Rattle.frames.specs.GuidedTaken.{KnowsNone};
ghost use Rattle.frames.specs.Passages.{Left, Sees, spans_from, spans_left};

use crate::borrowed_span::{BorrowedMessage, BorrowedSpan};
use crate::guided_taking::{bytes_to_next, is_taken};
use crate::sent::Sent;
use crate::{Span, message_size};
use byteorder::{ByteOrder, LittleEndian};
use message::{HEAD, Message};
use payload::Payload;
use std::marker::Model;

/// The messages among the bytes that came, and the longest runs of bytes between them, one at a time and in order. A
/// clause sees the bytes that are left, and where the first of them is.
///
/// A complete message is taken where it was sent. It is also taken where right after it the bytes end, where a complete
/// message follows whose hart and number were sent, and where one follows after which again the bytes end or a
/// complete message is. Where none is taken, reading goes on at the next message that was sent. So a message that was
/// changed or never sent is kept among others. Bytes that were lost, added or overwritten cost the messages that they
/// were in, and a message that begins inside one that is taken, as where a length was changed.
///
/// Where numbers are not looked at, each message counts as sent if the bytes are messages to their end. Else one is
/// [known](Sight::Known) by its hart and payload. A known message is *firm* where after it the bytes end or another known
/// one begins. A message is *clear* where no firm one begins inside it. A known
/// message counts as sent where it is firm or clear. Any other is taken only where it is clear. A known one after it counts
/// as one whose hart and number were sent.
///
/// Whether a message was sent is asked at most three times at each place: after a message that no other follows, before
/// a run of bytes, and inside one. Where payloads make messages known, it is asked for the 28 places inside it too, and
/// after the message there. Whether a message is complete is asked three times more. So time is linear in the bytes,
/// whatever they are. Takes no memory.
#[derive(Drop)]
pub struct GuidedScan<'a> {
    bytes: &'a [u8],
    at: usize,
}

impl<'a> Model for GuidedScan<'a> {
    ghost Value = { Left };

    ghost view = { λ reading. record { offset = reading.at; bytes = drop reading.at reading.bytes.now } };

    ghost invariant = { λ reading. reading.at ≤ length reading.bytes.now };
}

impl<'a> GuidedScan<'a> {
    /// The messages of bytes from the place `from` on. Their offsets count from the first of all bytes. From a place
    /// after the last byte there is none.
    pub fn new(bytes: &'a [u8], from: usize) -> GuidedScan<'a>
        ensures spans { (sees : Sees) → spans_left sees result ≡ spans_from sees from (drop from bytes.now) }
        ensures few { length result.bytes ≤ length bytes.now }

        // Messages one after the other are found each at its place, and nothing else is, whatever was sent, unless
        // messages are known by their payloads alone.
        ensures complete { (sees : Sees) (messages : List AnyMessage) → KnowsNone sees → All IsMessage messages
            → drop from bytes.now ≡ capture messages
            → spans_left sees result ≡ frames_from from messages }

        // So are messages that were sent among other bytes, at no place of which a complete message begins.
        ensures amid { (sees : Sees) (messages : List Scattered) (last : List ℕ)
            → All (λ (s : Scattered). IsSentMessage sees s.message) messages → NoneBegins messages last
            → drop from bytes.now ≡ scattered_bytes messages last
            → spans_left sees result ≡ scattered_from from messages last }
    {
        GuidedScan {
            bytes,
            at: from.min(bytes.len()),
        }
    }

    /// The next message that is taken, or the next run of bytes; `None` at the end. What was sent may be told by
    /// anything that sees each message in the same way.
    pub fn next<S: Sent>(&mut self, sent: &S) -> Option<Span>
        ensures spans { (sees : Sees) → ((message : AnyMessage) → S.sees sent.now message ≡ sees message)
            → spans_left sees self.old ≡ option_to_list result ++ spans_left sees self.new }
        ensures end { result ≡ None → self.old.bytes ≡ [] }
        ensures sizes { IfSome result (λ span. (1 ≤ span_size span)
            × (span_size span + length self.new.bytes ≡ length self.old.bytes)) }
    {
        match self.next_passage(sent) {
            Some(passage) => Some(span_of(passage)),
            None => None,
        }
    }

    /// As [`GuidedScan::next`], where it is in the bytes: nothing is copied.
    #[inline(always)]
    pub fn next_passage<S: Sent>(&mut self, sent: &S) -> Option<BorrowedSpan<'a>>
        ensures spans { (sees : Sees) → ((message : AnyMessage) → S.sees sent.now message ≡ sees message)
            → spans_left sees self.old ≡ option_to_list (option_map span_of result) ++ spans_left sees self.new }
        ensures end { result ≡ None → self.old.bytes ≡ [] }
        ensures sizes { IfSome result (λ passage. (1 ≤ span_size (span_of passage))
            × (span_size (span_of passage) + length self.new.bytes ≡ length self.old.bytes)) }
        ensures payload { IfSome result HasPayload }
    {
        self.pass(sent)
    }

    /// The same, by what is seen of each message.
    #[inline(always)]
    fn pass<S: Sent>(&mut self, sent: &S) -> Option<BorrowedSpan<'a>>
        ensures spans { spans_left (S.sees sent.now) self.old
            ≡ option_to_list (option_map span_of result) ++ spans_left (S.sees sent.now) self.new }
        ensures end { result ≡ None → self.old.bytes ≡ [] }
        ensures sizes { IfSome result (λ passage. (1 ≤ span_size (span_of passage))
            × (span_size (span_of passage) + length self.new.bytes ≡ length self.old.bytes)) }
        ensures payload { IfSome result HasPayload }
    {
        let offset = self.at;
        let bytes = self.bytes;
        let rest = &bytes[offset..];
        if !is_taken(rest, sent) {
            if rest.is_empty() {
                return None;
            }
            let count = bytes_to_next(rest, sent);
            self.at = offset + count;
            return Some(BorrowedSpan::Bytes { offset, count });
        }
        match message_size(rest) {
            Some(size) => {
                self.at = offset + size;
                Some(message_at(offset, rest))
            }
            None => unreachable!(),
        }
    }
}

/// The complete message that bytes begin with, at this offset.
#[inline(always)]
fn message_at(offset: usize, bytes: &[u8]) -> BorrowedSpan<'_>
    requires enough { frame_size bytes.now ≤ length bytes.now }
    requires some { 1 ≤ length_in bytes.now }
    requires few { length_in bytes.now ≤ most_bytes }
    ensures span { span_of result ≡ Span.Frame offset (frame_in bytes.now) }
    ensures payload { HasPayload result }
{
    let size = HEAD + usize::from(bytes[10]);
    BorrowedSpan::Message {
        offset,
        message: BorrowedMessage {
            hart: LittleEndian::read_u16(bytes),
            number: LittleEndian::read_u64(&bytes[2..]),
            payload: &bytes[HEAD..size],
        },
    }
}

/// The span of a passage.
fn span_of(passage: BorrowedSpan<'_>) -> Span
    requires payload { HasPayload passage }
    ensures { result ≡ span_of passage.entry }
{
    match passage {
        BorrowedSpan::Message { offset, message } => match Payload::new(message.payload) {
            Ok(payload) => Span::Frame {
                offset,
                message: Message {
                    hart: message.hart,
                    number: message.number,
                    payload,
                },
            },
            Err(_) => unreachable!(),
        },
        BorrowedSpan::Bytes { offset, count } => Span::Bytes { offset, count },
    }
}
