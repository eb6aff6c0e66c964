//! Messages as lines of hexadecimal.

ghost use Rattle.std.specs.Prelude.{◌≡◌, IfErr, OnOk};
ghost use Rattle.std.specs.Io.KnownBytes.{Appends};
ghost use Rattle.output.specs.Begun.{AppendsBeginning};
ghost use Rattle.message.specs.Numbered.{messages_from};
ghost use Rattle.captures.specs.HexLines.{hex_line, hex_text};

use hex::encode_to_slice;
use output::{write_bytes, write_text};
use payload::Payload;
use retire::WriteFault;
use std::io::Write;

/// Writes the messages of a hart with these payloads, numbered from 0 on, a line each, as [`encode_hex`] does. A line
/// has the hart's number and the message's, both decimal, and the payload's bytes in lower-case hexadecimal. Single
/// spaces separate the three.
///
/// The payloads need not be those of packets. The only fault is [`WriteFault::Write`], where the writer failed; what
/// was written then is a prefix of the text. No memory is taken, and the writer is not flushed.
///
/// [`encode_hex`]: crate::encode_hex
pub fn hex_lines<W: Write>(hart: u16, payloads: &[Payload], sink: &mut W) -> Result<(), WriteFault>
    ensures text { OnOk result (Appends (W.contents sink.old) (W.contents sink.new)
        (hex_text (messages_from hart 0 payloads.now))) }
    ensures begun { AppendsBeginning (hex_text (messages_from hart 0 payloads.now))
        (W.contents sink.old) (W.contents sink.new) }
    ensures fault { IfErr result (λ fault. fault ≡ WriteFault.Write) }
{
    for (number, payload) in payloads.iter().enumerate() {
        write_line(sink, hart, number as u64, payload)?;
    }
    Ok(())
}

/// Writes the line of a hart's message with this number and this payload.
pub(crate) fn write_line<W: Write>(
    sink: &mut W,
    hart: u16,
    number: u64,
    payload: &Payload,
) -> Result<(), WriteFault>
    ensures text { OnOk result (Appends (W.contents sink.old) (W.contents sink.new)
        (hex_line (record { hart = hart; number = number; payload = payload.now }))) }
    ensures begun { AppendsBeginning (hex_line (record { hart = hart; number = number; payload = payload.now }))
        (W.contents sink.old) (W.contents sink.new) }
    ensures fault { IfErr result (λ fault. fault ≡ WriteFault.Write) }
{
    let bytes = payload.bytes();
    let mut room = [0; 36];
    let digits = &mut room[..2 * bytes.len()];
    match encode_to_slice(bytes, digits) {
        Ok(()) => {}
        Err(_) => unreachable!(),
    }
    write_text(sink, format_args!("{hart} {number} "))?;
    write_bytes(sink, digits)?;
    write_bytes(sink, b"\n")?;
    Ok(())
}
