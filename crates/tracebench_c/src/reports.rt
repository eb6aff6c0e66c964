//! The texts that the program prints about a capture or about logs.

ghost use Rattle.std.specs.Prelude.{◌≡◌, ◌≢◌};
ghost use Rattle.ffi.specs.Compared.{ReportsCompare};
ghost use Rattle.ffi.specs.Dumped.{IsDumpHandedOut};
ghost use Rattle.ffi.specs.Explained.{ReportsExplain};
ghost use Rattle.ffi.specs.Images.{OfPieces};
ghost use Rattle.ffi.specs.Listed.{ReportsList, ReportsTreated};
ghost use Rattle.ffi.specs.Encoded.{ReportsMeasure};
ghost use Rattle.ffi.specs.Salvaged.{ReportsSalvage};
ghost use Rattle.ffi.specs.declared.status.TheConstants.{MEMORY};

use ffi::{DumpEnd, ExplainEnd, ImagePiece, LogPlace, TextEnd};
use std::alloc::Global;

/// Writes a capture as text to a buffer. See [`ffi::tracebench_dump`].
#[unsafe(no_mangle)]
pub extern "C" fn tracebench_dump(
    alloc: Global,
    capture: &[u8],
    buffer: &mut [u8],
    wanted: &mut u64,
    ended: &mut DumpEnd,
) -> u32
    ensures dumped { result ≢ MEMORY
        → IsDumpHandedOut capture.now result wanted.new ended.new buffer.old buffer.new }
    ensures memory { result ≡ MEMORY → (buffer.new ≡ buffer.old) × (wanted.new ≡ wanted.old) × (ended.new ≡ ended.old) }
{
    ffi::tracebench_dump(alloc, capture, buffer, wanted, ended)
}

/// Writes the listing of a capture to a buffer, as `tracebench list` prints it. See [`ffi::tracebench_list`].
#[unsafe(no_mangle)]
pub extern "C" fn tracebench_list(
    alloc: Global,
    pieces: &[ImagePiece<'_>],
    harts: u16,
    capture: &[u8],
    symbols: &[u8],
    format: u32,
    buffer: &mut [u8],
    wanted: &mut u64,
    ended: &mut TextEnd,
) -> u32
    ensures { OfPieces pieces.now (λ image. ReportsList image harts capture.now symbols.now format result wanted.old
        wanted.new ended.old ended.new buffer.old buffer.new) }
{
    ffi::tracebench_list(
        alloc, pieces, harts, capture, symbols, format, buffer, wanted, ended,
    )
}

/// Writes what salvaging does with each message of a capture. See [`ffi::tracebench_list_salvaged`].
#[unsafe(no_mangle)]
pub extern "C" fn tracebench_list_salvaged(
    alloc: Global,
    pieces: &[ImagePiece<'_>],
    harts: u16,
    capture: &[u8],
    symbols: &[u8],
    format: u32,
    buffer: &mut [u8],
    wanted: &mut u64,
    ended: &mut TextEnd,
) -> u32
    ensures { OfPieces pieces.now (λ image. ReportsTreated image harts capture.now symbols.now format result wanted.old
        wanted.new ended.old ended.new buffer.old buffer.new) }
{
    ffi::tracebench_list_salvaged(
        alloc, pieces, harts, capture, symbols, format, buffer, wanted, ended,
    )
}

/// Writes what is left of the logs of a capture to a buffer. See [`ffi::tracebench_salvage`].
#[unsafe(no_mangle)]
pub extern "C" fn tracebench_salvage(
    alloc: Global,
    pieces: &[ImagePiece<'_>],
    harts: u16,
    capture: &[u8],
    format: u32,
    buffer: &mut [u8],
    wanted: &mut u64,
    ended: &mut TextEnd,
) -> u32
    ensures { OfPieces pieces.now (λ image. ReportsSalvage image harts capture.now format result wanted.old wanted.new
        ended.old ended.new buffer.old buffer.new) }
{
    ffi::tracebench_salvage(alloc, pieces, harts, capture, format, buffer, wanted, ended)
}

/// Writes the table of what each hart's log costs to a buffer. See [`ffi::tracebench_measure`].
#[unsafe(no_mangle)]
pub extern "C" fn tracebench_measure(
    alloc: Global,
    pieces: &[ImagePiece<'_>],
    logs: &[u8],
    ends: &[u64],
    period: u16,
    mode: u32,
    buffer: &mut [u8],
    wanted: &mut u64,
    place: &mut LogPlace,
) -> u32
    ensures { OfPieces pieces.now (λ image. ReportsMeasure image logs.now ends.now period mode result wanted.old
        wanted.new place.old place.new buffer.old buffer.new) }
{
    ffi::tracebench_measure(
        alloc, pieces, logs, ends, period, mode, buffer, wanted, place,
    )
}

/// Writes how a capture compares with the logs of its harts to a buffer. See [`ffi::tracebench_compare`].
#[unsafe(no_mangle)]
pub extern "C" fn tracebench_compare(
    alloc: Global,
    pieces: &[ImagePiece<'_>],
    harts: u16,
    capture: &[u8],
    logs: &[u8],
    ends: &[u64],
    buffer: &mut [u8],
    wanted: &mut u64,
    ended: &mut TextEnd,
    place: &mut LogPlace,
) -> u32
    ensures { OfPieces pieces.now (λ image. ReportsCompare image harts capture.now logs.now ends.now result wanted.old
        wanted.new ended.old ended.new place.old place.new buffer.old buffer.new) }
{
    ffi::tracebench_compare(
        alloc, pieces, harts, capture, logs, ends, buffer, wanted, ended, place,
    )
}

/// Writes the lines that explain the first illegal row of a log. See [`ffi::tracebench_explain`].
#[unsafe(no_mangle)]
pub extern "C" fn tracebench_explain(
    alloc: Global,
    pieces: &[ImagePiece<'_>],
    log: &[u8],
    buffer: &mut [u8],
    wanted: &mut u64,
    ended: &mut ExplainEnd,
) -> u32
    ensures { OfPieces pieces.now (λ image. ReportsExplain image log.now result wanted.old wanted.new ended.new
        buffer.old buffer.new) }
{
    ffi::tracebench_explain(alloc, pieces, log, buffer, wanted, ended)
}
