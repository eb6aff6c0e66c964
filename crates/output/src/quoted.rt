//! Fields of any bytes.

ghost use Rattle.std.specs.Prelude.{◌≡◌, OnOk};
ghost use Rattle.std.specs.Io.KnownBytes.{Appends};
ghost use Rattle.std.specs.List.{flat_map, list_any};
ghost use Rattle.csv.specs.Quoting.{needs_byte};
ghost use Rattle.csv.specs.Writing.{default_writer, needs_quotes, quoted};
ghost use Rattle.output.specs.Begun.{AppendsBeginning};
ghost use Rattle.output.specs.Quoted.{quoted_field};
ghost use Rattle.output.specs.steps.Quoting.{escaped_byte};

use crate::write_bytes;
use std::io;
use std::io::Write;

/// Writes a field of any bytes, up to the first failure: between quotes, and with each quote in it doubled, if it has a
/// comma, a quote, a carriage return or a line feed; else as it is. No memory is taken.
pub fn write_field<W: Write>(out: &mut W, field: &[u8]) -> io::Result<()>
    ensures text { OnOk result (Appends (W.contents out.old) (W.contents out.new) (quoted_field field.now)) }
    ensures begun { AppendsBeginning (quoted_field field.now) (W.contents out.old) (W.contents out.new) }
{
    if calls_for_quotes(field) {
        return write_quoted(out, field);
    }
    write_bytes(out, field)
}

/// Whether a field calls for quotes.
fn calls_for_quotes(field: &[u8]) -> bool
    ensures { result ≡ needs_quotes default_writer field.now }
{
    field.iter().any(|byte| is_mark(*byte))
}

/// Whether a byte is a mark of the format.
fn is_mark(byte: u8) -> bool
    ensures { result ≡ needs_byte default_writer byte }
{
    byte == b',' || byte == b'"' || byte == b'\r' || byte == b'\n'
}

/// Writes a field between quotes.
fn write_quoted<W: Write>(out: &mut W, field: &[u8]) -> io::Result<()>
    ensures text { OnOk result (Appends (W.contents out.old) (W.contents out.new) (quoted default_writer field.now)) }
    ensures begun { AppendsBeginning (quoted default_writer field.now) (W.contents out.old) (W.contents out.new) }
{
    write_bytes(out, b"\"")?;
    write_escaped(out, field)?;
    write_bytes(out, b"\"")
}

/// Writes the bytes of a field, and each quote twice.
fn write_escaped<W: Write>(out: &mut W, field: &[u8]) -> io::Result<()>
    ensures text { OnOk result (Appends (W.contents out.old) (W.contents out.new) (flat_map escaped_byte field.now)) }
    ensures begun { AppendsBeginning (flat_map escaped_byte field.now) (W.contents out.old) (W.contents out.new) }
{
    for byte in field {
        write_escaped_byte(out, *byte)?;
    }
    Ok(())
}

/// Writes a byte, and a quote twice.
fn write_escaped_byte<W: Write>(out: &mut W, byte: u8) -> io::Result<()>
    ensures text { OnOk result (Appends (W.contents out.old) (W.contents out.new) (escaped_byte byte)) }
    ensures begun { AppendsBeginning (escaped_byte byte) (W.contents out.old) (W.contents out.new) }
{
    if byte == b'"' {
        return write_bytes(out, b"\"\"");
    }
    let one = [byte];
    write_bytes(out, &one)
}
