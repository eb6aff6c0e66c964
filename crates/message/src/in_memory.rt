//! Bytes in memory to messages.

ghost use Rattle.std.specs.Prelude.{◌≡◌, ◌⊎◌, ◌↔◌, ◌<◌, ◌++◌, ℕ, List, [], length, Ok, Err, Some, None, IfOk, IfErr};
ghost use Rattle.std.specs.Prelude.{IfSome};
ghost use Rattle.message.specs.steps.Filling.{AreBytes};
ghost use Rattle.message.specs.Capture.{message_bytes};
ghost use Rattle.message.specs.Cut.{IsCut, IsMessage, HasBadLength};
ghost use Rattle.message.specs.Header.{HasBadHeader, IsCutHeader, IsHeader, IsMarked, header_bytes};
ghost use Rattle.message.specs.declared.header.Header.{Header as AnyHeader};
ghost use Rattle.message.specs.steps.Front.{first_message};
ghost use Rattle.message.specs.steps.Passing.{left_by};
ghost use Rattle.message.specs.declared.message.Message.{Message as AnyMessage};

use crate::head::{HEAD, message_of, payload_length};
use crate::header::{MARK, SETTINGS, header_of};
use crate::{Header, Message, MessageFault};
use std::marker::Model;

/// The messages of bytes in memory, one at a time. A clause sees the bytes that are left.
#[derive(Drop)]
pub struct Messages<'a> {
    rest: &'a [u8],
}

impl<'a> Model for Messages<'a> {
    ghost Value = { List ℕ };

    ghost view = { λ messages. messages.rest.now };
}

impl<'a> Messages<'a> {
    /// The messages of a capture, before any of them is read.
    pub fn new(capture: &'a [u8]) -> Messages<'a>
        ensures { result ≡ capture.now }
    {
        Messages { rest: capture }
    }

    /// Returns the header that the bytes begin with, or `None` where they do not begin as a capture of version 2 does.
    /// Only a header is passed over.
    ///
    /// [`MessageFault::Short`] comes where the bytes end inside the header, [`MessageFault::BadHeader`] where its mode,
    /// its period or its count of harts is out of range, and no other fault. No memory is taken.
    pub fn header(&mut self) -> Result<Option<Header>, MessageFault>
        ensures header { IfOk result
            (λ found. IfSome found (λ header. IsHeader header × (self.old ≡ header_bytes header ++ self.new))) }
        ensures none { (result ≡ Ok None) ↔ ¬ IsMarked self.old }
        ensures short { (result ≡ Err MessageFault.Short) ↔ IsCutHeader self.old }
        ensures bad_header { (result ≡ Err MessageFault.BadHeader) ↔ HasBadHeader self.old }
        ensures fault { IfErr result (λ fault. (fault ≡ MessageFault.Short) ⊎ (fault ≡ MessageFault.BadHeader)) }
        ensures stays { result ≡ Ok None → self.new ≡ self.old }
        ensures stays_at_fault { IfErr result (λ fault. self.new ≡ self.old) }

        // If the bytes begin with a header, it is read.
        ensures reads_back { (header : AnyHeader) (rest : List ℕ) → IsHeader header
            → self.old ≡ header_bytes header ++ rest
            → (result ≡ Ok (Some header)) × (self.new ≡ rest) }
    {
        let Some(behind) = self.rest.strip_prefix(&MARK) else {
            return Ok(None);
        };
        if behind.len() < SETTINGS {
            return Err(MessageFault::Short);
        }
        let (settings, rest) = behind.split_at(SETTINGS);
        let Some(header) = header_of(settings) else {
            return Err(MessageFault::BadHeader);
        };
        self.rest = rest;
        Ok(Some(header))
    }

    /// Returns the message that the bytes begin with, or `None` at their end. Only a message is passed over: after an
    /// end or a fault the next call returns the same.
    ///
    /// [`MessageFault::Short`] comes where the bytes end inside the message, [`MessageFault::BadLength`] where the byte
    /// for the payload's length is 0 or above 18, and no other fault. No memory is taken.
    pub fn next(&mut self) -> Result<Option<Message>, MessageFault>
        ensures ranges { IfOk result (λ found. IfSome found (λ message. IsMessage message)) }
        ensures message { IfOk result
            (λ found. IfSome found (λ message. self.old ≡ message_bytes message ++ self.new)) }
        ensures shorter { IfOk result (λ found. IfSome found (λ message. length self.new < length self.old)) }
        ensures end { (result ≡ Ok None) ↔ (self.old ≡ []) }
        ensures short { (result ≡ Err MessageFault.Short) ↔ IsCut self.old }
        ensures bad_length { (result ≡ Err MessageFault.BadLength) ↔ HasBadLength self.old }
        ensures fault { IfErr result (λ fault. (fault ≡ MessageFault.Short) ⊎ (fault ≡ MessageFault.BadLength)) }
        ensures ended { result ≡ Ok None → self.new ≡ [] }
        ensures stays { IfErr result (λ fault. self.new ≡ self.old) }

        // If the bytes begin with a message, it is read.
        ensures reads_back { (message : AnyMessage) (rest : List ℕ) → IsMessage message
            → self.old ≡ message_bytes message ++ rest
            → (result ≡ Ok (Some message)) × (self.new ≡ rest) }
    {
        self.pass()
    }

    /// Passes over the message that the bytes begin with, if they begin with one.
    fn pass(&mut self) -> Result<Option<Message>, MessageFault>
        ensures value { result ≡ first_message self.old }
        ensures state { self.new ≡ left_by self.old result }
        ensures ranges { IfOk result (λ found. IfSome found (λ message. IsMessage message)) }
        ensures bytes { AreBytes self.old }
    {
        let found = message_in_front(self.rest);
        if let Ok(Some(message)) = &found {
            self.rest = &self.rest[message.size()..];
        }
        found
    }
}

/// The message that bytes begin with.
fn message_in_front(bytes: &[u8]) -> Result<Option<Message>, MessageFault>
    ensures value { result ≡ first_message bytes.now }
    ensures ranges { IfOk result (λ found. IfSome found (λ message. IsMessage message)) }
    ensures bytes { AreBytes bytes.now }
{
    if bytes.is_empty() {
        return Ok(None);
    }
    if bytes.len() < HEAD {
        return Err(MessageFault::Short);
    }
    let (head, rest) = bytes.split_at(HEAD);
    let length = payload_length(head)?;
    if rest.len() < length {
        return Err(MessageFault::Short);
    }
    Ok(Some(message_of(head, &rest[..length])))
}
