//! How calls ask for what is salvaged of a capture, and how they say that it ends.

ghost use Rattle.std.specs.Prelude.{◌≡◌};
ghost use Rattle.std.specs.Option.{unwrap_or};
ghost use Rattle.ffi.specs.Salvaged.{harts_asked, layout_of, salvage_end};

use crate::dumping::header_fault;
use crate::listing_capture::{CSV, TEXT};
use crate::texts::TextEnd;
use salvage_reports::{Found, Layout};

/// Lines of text without the rows of logs.
pub const SUMMARY: u32 = 2;

/// As many harts as the frames of a capture show.
pub const HARTS_SHOWN: u16 = 65_535;

/// The count of harts that a number asks for, if it asks for one.
pub(crate) fn harts_asked(number: u16) -> Option<u16>
    ensures { result ≡ harts_asked number }
{
    if number == HARTS_SHOWN {
        None
    } else {
        Some(number)
    }
}

/// The layout of a number.
pub(crate) fn layout_of(number: u32) -> Option<Layout>
    ensures { result ≡ layout_of number }
{
    match number {
        TEXT => Some(Layout::Text),
        CSV => Some(Layout::Table),
        SUMMARY => Some(Layout::Summary),
        _ => None,
    }
}

/// How a text ends of what was found, in numbers.
pub(crate) fn end_of_found(found: &Found) -> TextEnd
    ensures { result ≡ salvage_end found.now.only found.now.fault found.now.frames.runs found.now.salvaged }
{
    let harts = found.harts().len() as u64;
    let unclosed = found.first_unclosed();
    let is_damaged = found.is_damaged() || found.frames.runs;
    TextEnd {
        harts,
        unclosed: hart_or(unclosed, harts),
        place: 0,
        fault: header_fault(found.fault),
        whole: u32::from(found.fault.is_none() && unclosed.is_none() && !is_damaged),
    }
}

/// The number of a hart, or without one this count.
fn hart_or(hart: Option<usize>, count: u64) -> u64
    ensures { result ≡ unwrap_or hart count }
{
    match hart {
        Some(hart) => hart as u64,
        None => count,
    }
}
