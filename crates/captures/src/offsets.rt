//! Where bytes of a capture are.

ghost use Rattle.std.specs.Prelude.{◌≡◌, IfErr, OnOk, Some};
ghost use Rattle.std.specs.Io.KnownBytes.{Appends};
ghost use Rattle.output.specs.Begun.{AppendsBeginning};
ghost use Rattle.captures.specs.Offsets.{bytes_line, offset_text};

use output::write_text;
use retire::WriteFault;
use std::fmt;
use std::io::Write;

/// An offset in a capture, in eight hexadecimal digits at least.
#[derive(Clone, Copy)]
pub struct Offset(pub u64);

impl fmt::Display for Offset {
    ghost output = { λ offset. Some (offset_text offset.0) };

    fn fmt<W: fmt::Write>(&self, f: &mut fmt::Formatter<W>) -> fmt::Result {
        write!(f, "{:08x}", self.0)
    }
}

/// Writes the line of a run of bytes that are of no message: `bytes: N at OFFSET`, where N, decimal, is how many there
/// are, and OFFSET is that of the first.
///
/// The only fault is [`WriteFault::Write`], where the writer failed; what was written then is a prefix of the line. No
/// memory is taken, and the writer is not flushed.
pub fn write_bytes_line<W: Write>(sink: &mut W, offset: u64, count: u64) -> Result<(), WriteFault>
    ensures text { OnOk result (Appends (W.contents sink.old) (W.contents sink.new) (bytes_line offset count)) }
    ensures begun { AppendsBeginning (bytes_line offset count) (W.contents sink.old) (W.contents sink.new) }
    ensures fault { IfErr result (λ fault. fault ≡ WriteFault.Write) }
{
    let first = Offset(offset);
    write_text(sink, format_args!("bytes: {count} at {first}\n"))?;
    Ok(())
}
