//! Messages to bytes.
ghost use Rattle.std.specs.Prelude.{◌≡◌, OnOk, IfErr};
ghost use Rattle.std.specs.Io.KnownBytes.{Appends};
ghost use Rattle.output.specs.Begun.{AppendsBeginning};
ghost use Rattle.message.specs.Capture.{head_bytes, message_bytes};
ghost use Rattle.message.specs.Header.{header_bytes};

use crate::head::HEAD;
use crate::header::{MARK, settings_of};
use crate::{Header, Message, MessageFault};
use byteorder::{ByteOrder, LittleEndian};
use output::write_bytes;
use std::io::Write;

/// Writes a message: the hart in 2 bytes and the number in 8, both little endian, the payload's length in one, and the
/// payload. Where the writer fails, what was written is a prefix of that. The writer is not flushed.
pub fn write_message<W: Write>(w: &mut W, message: &Message) -> Result<(), MessageFault>
    ensures written { OnOk result (Appends (W.contents w.old) (W.contents w.new) (message_bytes message.now)) }
    ensures begun { AppendsBeginning (message_bytes message.now) (W.contents w.old) (W.contents w.new) }
    ensures fault { IfErr result (λ fault. fault ≡ MessageFault.Write) }
{
    put(w, &head_of(message))?;
    put(w, message.payload.bytes())
}

/// Writes a header: the mark, and then the mode, the period and the count of harts. The mark is `ff ff`, the letters
/// `rvtrace2` and `00`. The mode has one byte, 0 or 1. The period and the count have 2 bytes each, little endian. Where
/// the writer fails, what was written is a prefix of that. The writer is not flushed.
pub fn write_header<W: Write>(w: &mut W, header: &Header) -> Result<(), MessageFault>
    ensures written { OnOk result (Appends (W.contents w.old) (W.contents w.new) (header_bytes header.now)) }
    ensures begun { AppendsBeginning (header_bytes header.now) (W.contents w.old) (W.contents w.new) }
    ensures fault { IfErr result (λ fault. fault ≡ MessageFault.Write) }
{
    put(w, &MARK)?;
    put(w, &settings_of(header))
}

/// The bytes of a message before its payload.
fn head_of(message: &Message) -> [u8; HEAD]
    ensures { result ≡ head_bytes message.now }
{
    let mut head = [0; HEAD];
    LittleEndian::write_u16(&mut head, message.hart);
    LittleEndian::write_u64(&mut head[2..], message.number);
    head[10] = message.payload.bytes().len() as u8;
    head
}

/// Writes bytes.
fn put<W: Write>(w: &mut W, bytes: &[u8]) -> Result<(), MessageFault>
    ensures written { OnOk result (Appends (W.contents w.old) (W.contents w.new) bytes.now) }
    ensures begun { AppendsBeginning bytes.now (W.contents w.old) (W.contents w.new) }
    ensures fault { IfErr result (λ fault. fault ≡ MessageFault.Write) }
{
    match write_bytes(w, bytes) {
        Ok(()) => Ok(()),
        Err(_) => Err(MessageFault::Write),
    }
}
