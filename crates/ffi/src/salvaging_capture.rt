//! What is left of a capture after any damage.

ghost use Rattle.ffi.specs.Images.{OfPieces};
ghost use Rattle.ffi.specs.Salvaged.{IsSalvagedAs, IsSalvagedIn, ReportsSalvage};

use crate::fault::Fault;
use crate::images::{ImagePiece, Judged, judge_pieces};
use crate::salvaged::{end_of_found, harts_asked, layout_of};
use crate::texts::{TextEnd, Written, report_text};
use message::{HartRange, NoProgress};
use salvage_reports::{Layout, write_salvaged};
use std::alloc::Global;

/// Writes what is left of the logs of a capture to a buffer, whatever happened to its bytes, as `tracebench salvage`
/// prints it. Its messages are looked for among all bytes after a valid header, and without one from the first byte on.
/// The harts are those that the header counts. Without a valid header they are those below `harts`, or where that is
/// [`HARTS_SHOWN`](crate::HARTS_SHOWN) those up to the highest hart of a message, hart 0 at least. The format is
/// [`TEXT`](crate::TEXT), [`SUMMARY`](crate::SUMMARY) or [`CSV`](crate::CSV).
///
/// In `ended` `place` is 0, and `fault` is 0, or [`SHORT`](crate::status::SHORT) or
/// [`BAD_HEADER`](crate::status::BAD_HEADER) where the capture begins as one of version 2 does and its header is cut
/// short or bad. `whole` is 1 if and only if `fault` is 0, each hart is closed, no number is missing, bad, doubtful or
/// alone, there is no stranger, and each byte belongs to a message.
///
/// The status is [`DONE`](crate::status::DONE), [`TOO_SMALL`](crate::status::TOO_SMALL),
/// [`OUT_OF_RANGE`](crate::status::OUT_OF_RANGE) where the format is none, [`MEMORY`](crate::status::MEMORY), or says
/// what is wrong with the pieces. All but the first two write nothing.
pub fn tracebench_salvage(
    alloc: Global,
    pieces: &[ImagePiece<'_>],
    harts: u16,
    capture: &[u8],
    format: u32,
    buffer: &mut [u8],
    wanted: &mut u64,
    ended: &mut TextEnd,
) -> u32
    ensures { OfPieces pieces.now (λ image. ReportsSalvage image harts capture.now format result wanted.old wanted.new
        ended.old ended.new buffer.old buffer.new) }
{
    let judged = judge_pieces(alloc, pieces);
    let salvaged = salvage_text(alloc, &judged, harts, capture, format);
    report_text(salvaged, buffer, wanted, ended)
}

/// What is salvaged of a capture, or why nothing is.
fn salvage_text(
    alloc: Global,
    image: &Judged<'_>,
    harts: u16,
    capture: &[u8],
    format: u32,
) -> Result<Written, Fault>
    ensures { IsSalvagedIn image.now harts capture.now format result }
{
    match layout_of(format) {
        Some(layout) => salvage_as(alloc, layout, image, harts_asked(harts), capture),
        None => Err(Fault::Range),
    }
}

/// What is salvaged of a capture in a layout, or why nothing is.
fn salvage_as(
    alloc: Global,
    layout: Layout,
    image: &Judged<'_>,
    asked: Option<u16>,
    capture: &[u8],
) -> Result<Written, Fault>
    ensures { IsSalvagedAs layout image.now asked capture.now result }
{
    let program = match image {
        Ok(program) => program,
        Err(why) => return Err(Fault::NoProgram(*why)),
    };
    let mut text = Vec::new(alloc);
    let written = write_salvaged(
        alloc,
        program,
        asked,
        HartRange::ALL,
        layout,
        capture,
        &NoProgress,
        &mut text,
    );
    match written {
        Ok(found) => {
            let end = end_of_found(&found);
            Ok(Written { text, end })
        }
        Err(_) => Err(Fault::Memory),
    }
}
