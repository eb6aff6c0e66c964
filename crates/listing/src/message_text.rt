//! The texts of a message and of its packet.

ghost use Rattle.std.specs.Prelude.{◌≡◌, Some};
ghost use Rattle.listing.specs.EffectText.{closes_text, waits_text};
ghost use Rattle.listing.specs.Lines.{text_with};
ghost use Rattle.listing.specs.PacketEnding.{ending_text};

use crate::endings::{read_closes, read_waits};
use captures::{Offset, ReadingText};
use message::Message;
use payload::{Mode, PackFault, Packet};
use std::fmt;

/// The offset of a message, its hart, its number, and what its payload is, as the line of a message begins. The text of
/// the payload is what [`dump_capture`](captures::dump_capture) writes of it.
#[derive(Clone, Copy)]
pub struct MessageText<'a> {
    /// The mode that names the address field.
    pub mode: Mode,
    /// Where the message's first byte is in the capture.
    pub offset: u64,
    /// The message.
    pub message: &'a Message,
    /// What the message's payload unpacks to.
    pub read: &'a Result<Packet, PackFault>,
}

impl fmt::Display for MessageText<'_> {
    ghost output = { λ text. Some (text_with text.mode text.offset text.message.now text.read.now) };

    fn fmt<W: fmt::Write>(&self, f: &mut fmt::Formatter<W>) -> fmt::Result {
        let offset = Offset(self.offset);
        let hart = self.message.hart;
        let number = self.message.number;
        let text = ReadingText {
            mode: self.mode,
            read: self.read,
        };
        write!(f, "{offset} {hart} {number} {text}")
    }
}

/// What a line says where a packet waits.
fn waits_text(waits: bool) -> &'static str
    ensures { result.now ≡ waits_text waits }
{
    if waits { ", waits" } else { "" }
}

/// What a line says where a packet closes its hart.
fn closes_text(closes: bool) -> &'static str
    ensures { result.now ≡ closes_text closes }
{
    if closes { ", closed" } else { "" }
}

/// What follows the events of a message whose payload unpacks to this: `, waits` where its packet waits for the next one
/// of its hart, and `, closed` where it closes its hart.
#[derive(Clone, Copy)]
pub struct PacketEnding<'a>(pub &'a Result<Packet, PackFault>);

impl fmt::Display for PacketEnding<'_> {
    ghost output = { λ ending. Some (ending_text ending.0.now) };

    fn fmt<W: fmt::Write>(&self, f: &mut fmt::Formatter<W>) -> fmt::Result {
        let waits = waits_text(read_waits(self.0));
        let closed = closes_text(read_closes(self.0));
        write!(f, "{waits}{closed}")
    }
}
