//! Texts about captures that calls hand out, and how they end.

ghost use Rattle.std.specs.Prelude.{◌≡◌};
ghost use Rattle.ffi.specs.Texts.{ReportsText, first_unclosed};

use crate::fault::Fault;
use crate::handing::hand_out;

/// How a text about a capture ends.
#[repr(C)]
#[derive(Clone, Copy)]
pub struct TextEnd {
    /// How many harts the capture has.
    pub harts: u64,
    /// The lowest hart that is not closed; where each is, how many harts there are.
    pub unclosed: u64,
    /// The message, counted from 0 over all harts, at which decoding stops before the end. It is 0 where `fault` is 0,
    /// and at a header that is cut short or bad.
    pub place: u64,
    /// Why it stops there, as a status; 0 where it comes to the end.
    pub fault: u32,
    /// 1 where the program ends with status 0 after this text, and else 0.
    pub whole: u32,
}

/// A text about a capture, and how it ends.
#[derive(Drop)]
pub struct Written {
    /// The text.
    pub text: Vec<u8>,
    /// How it ends.
    pub end: TextEnd,
}

/// Hands out a text and how it ends, or reports why there is none.
pub(crate) fn report_text(
    written: Result<Written, Fault>,
    buffer: &mut [u8],
    wanted: &mut u64,
    ended: &mut TextEnd,
) -> u32
    ensures { ReportsText written result wanted.old wanted.new ended.old ended.new buffer.old buffer.new }
{
    match written {
        Ok(found) => {
            *ended = found.end;
            hand_out(found.text.as_slice(), buffer, wanted)
        }
        Err(fault) => fault.status(),
    }
}

/// The lowest hart that is not closed by these flags; where each is, how many there are.
pub(crate) fn first_unclosed(closed: &[bool]) -> u64
    ensures { result ≡ first_unclosed closed.now }
{
    for hart in 0..closed.len() {
        if !closed[hart] {
            return hart as u64;
        }
    }
    closed.len() as u64
}
