//! The forms in which messages are written.

ghost use Rattle.std.specs.Prelude.{◌≡◌, ℕ, List, IfErr, OnOk};
ghost use Rattle.std.specs.Io.KnownBytes.{Appends};
ghost use Rattle.output.specs.Begun.{AppendsBeginning};
ghost use Rattle.message.specs.Capture.{message_bytes};
ghost use Rattle.message.specs.declared.message.Message.{Message as AnyMessage};
ghost use Rattle.captures.specs.HexLines.{hex_line};

use crate::lines::write_line;
use message::{Message, MessageFault, write_message};
use std::io::Write;

/// A form in which messages are written.
pub trait Form {
    /// What a message is written as.
    ghost text: { AnyMessage → List ℕ };

    /// Writes a message. The only fault is [`MessageFault::Write`], where the writer failed; what was written then is a
    /// prefix of the text. No memory is taken, and the writer is not flushed.
    fn write<W: Write>(sink: &mut W, message: &Message) -> Result<(), MessageFault>
        ensures text { OnOk result (Appends (W.contents sink.old) (W.contents sink.new) (text message.now)) }
        ensures begun { AppendsBeginning (text message.now) (W.contents sink.old) (W.contents sink.new) }
        ensures fault { IfErr result (λ fault. fault ≡ MessageFault.Write) };
}

/// The lines that [`encode_hex`](crate::encode_hex) writes.
#[derive(Clone, Copy)]
pub struct HexLines;

impl Form for HexLines {
    ghost text = { hex_line };

    fn write<W: Write>(sink: &mut W, message: &Message) -> Result<(), MessageFault> {
        match write_line(sink, message.hart, message.number, &message.payload) {
            Ok(()) => Ok(()),
            Err(_) => Err(MessageFault::Write),
        }
    }
}

/// The bytes that [`encode_capture`](crate::encode_capture) writes.
#[derive(Clone, Copy)]
pub struct CaptureBytes;

impl Form for CaptureBytes {
    ghost text = { message_bytes };

    fn write<W: Write>(sink: &mut W, message: &Message) -> Result<(), MessageFault> {
        write_message(sink, message)
    }
}
