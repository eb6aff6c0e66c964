//! Bytes to the frames among them.

ghost use Rattle.std.specs.Prelude.{◌≡◌, ◌≤◌, ℕ, All, List, drop, length};
ghost use Rattle.frames.specs.Frame.{IsFrame};
ghost use Rattle.frames.specs.Spans.{spans_from};
ghost use Rattle.frames.specs.Written.{NoOtherFrame, Scattered, frames_from, offsets_from, scattered_bytes, scattered_from};
ghost use Rattle.frames.specs.declared.span.Span.{Span as AnySpan};
ghost use Rattle.message.specs.Capture.{capture};
ghost use Rattle.message.specs.declared.message.Message.{Message as AnyMessage};

use crate::Span;
use crate::frame::{frame_in, frame_size};
use crate::taking::{bytes_to_next, is_taken};
use std::marker::Model;

/// The frames among bytes, and the longest runs of bytes between them, one at a time and in order. A clause sees the
/// spans that are left.
///
/// A frame is *firm* where after it the bytes end or another frame begins. A frame is taken where it is firm, or where
/// no firm frame begins inside it. Where none is taken, one byte is passed over. So a complete message before damage is
/// kept, and one whose payload has the first bytes of a firm one costs itself alone.
///
/// It asks at most twice for each byte whether a frame is taken there. Each answer takes at most 59 looks whether a
/// frame begins at a place: there, twice, and after that frame; and at each of the 28 places inside it, and after the
/// frame there. So time is linear in the bytes, whatever they are. Takes no memory.
#[derive(Drop)]
pub struct Spans<'a> {
    bytes: &'a [u8],
    at: usize,
    known: u16,
}

impl<'a> Model for Spans<'a> {
    ghost Value = { List AnySpan };

    ghost view = { λ spans. spans_from spans.known spans.at (drop spans.at spans.bytes.now) };

    ghost invariant = { λ spans. spans.at ≤ length spans.bytes.now };
}

impl<'a> Spans<'a> {
    /// The spans of bytes from the place `from` on, where the harts below `known` are known. Their offsets count from
    /// the first of all bytes. From a place after the last byte there is none.
    pub fn new(bytes: &'a [u8], from: usize, known: u16) -> Spans<'a>
        ensures spans { result ≡ spans_from known from (drop from bytes.now) }

        // Messages that were written one after the other are found each at its place, and nothing else is.
        ensures written { (messages : List AnyMessage) → All (IsFrame known) messages
            → drop from bytes.now ≡ capture messages
            → result ≡ frames_from from messages }

        // So are messages among other bytes, where no frame begins at any place but theirs.
        ensures scattered { (messages : List Scattered) (last : List ℕ)
            → All (λ (s : Scattered). IsFrame known s.message) messages
            → drop from bytes.now ≡ scattered_bytes messages last
            → NoOtherFrame known from (drop from bytes.now) (offsets_from from messages)
            → result ≡ scattered_from from messages last }
    {
        Spans {
            bytes,
            at: from.min(bytes.len()),
            known,
        }
    }
}

impl<'a> Iterator for Spans<'a> {
    ghost use Rattle.std.specs.Iterator.{YieldsFirst, item_count};

    type Item = Span;

    ghost next_gives = { YieldsFirst (λ spans. spans) };

    ghost remaining = { item_count (λ spans. spans) };

    fn next(&mut self) -> Option<Span> {
        let offset = self.at;
        let rest = &self.bytes[offset..];
        if rest.is_empty() {
            return None;
        }
        if is_taken(rest, self.known) {
            self.at = offset + frame_size(rest);
            return Some(Span::Frame {
                offset,
                message: frame_in(rest),
            });
        }
        let count = bytes_to_next(rest, self.known);
        self.at = offset + count;
        Some(Span::Bytes { offset, count })
    }
}
