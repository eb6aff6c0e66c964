//! Text that is written up to the first failure.

ghost use Rattle.std.specs.Prelude.{IfSome, OnOk};
ghost use Rattle.std.specs.Io.KnownBytes.{Appends};
ghost use Rattle.output.specs.Begun.{AppendsBeginning};

use crate::bytes::write_bytes;
use crate::part::Part;
use arrayvec::ArrayVec;
use std::fmt::{Display, Write as _};
use std::io::Write;
use std::{fmt, io};

/// The most bytes of a text that are laid out at once.
const ROOM: usize = 512;

/// Writes what a value displays, up to the first failure. The text is laid out and written in parts of 512 bytes, for
/// each of which the value displays itself anew. No memory is taken. A value that fails to display itself is a failure
/// too: nothing of that part is written then.
pub fn write_text<W: Write, D: Display>(out: &mut W, text: D) -> io::Result<()>
where
    D: Drop,
    ensures whole { OnOk result (IfSome (D.output text) (Appends (W.contents out.old) (W.contents out.new))) }
    ensures begun { IfSome (D.output text)
        (λ bytes. AppendsBeginning bytes (W.contents out.old) (W.contents out.new)) }
{
    for parts in 0..usize::MAX / ROOM {
        let mut part = Part::<ROOM> {
            passing: parts * ROOM,
            bytes: ArrayVec::new(),
        };
        part.write_fmt(&text)?;
        write_bytes(out, part.bytes.as_slice())?;
        if part.bytes.len() < ROOM {
            return Ok(());
        }
    }
    Err(io::Error::from(fmt::Error))
}
