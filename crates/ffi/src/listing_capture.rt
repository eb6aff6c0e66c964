//! The listings of a capture: what each message carries, or what salvaging does with it.

ghost use Rattle.std.specs.Prelude.{◌≡◌, IfErr, IfOk, Ok, option_map};
ghost use Rattle.ffi.specs.Images.{OfPieces};
ghost use Rattle.ffi.specs.Listed.{HasListing, HasTreated, IsTextBy, IsTextIn, ReportsList, ReportsTreated};
ghost use Rattle.ffi.specs.Listed.{format_of, list_end, symbols_in};
ghost use Rattle.ffi.specs.steps.Listing.{AreNotRead, HasAccount};

use crate::decoding::{stop_fault, stop_place};
use crate::fault::Fault;
use crate::images::{ImagePiece, Judged, judge_pieces};
use crate::salvaged::{end_of_found, harts_asked};
use crate::texts::{TextEnd, Written, first_unclosed, report_text};
use frames::{harts_counted, mode_of, start_of};
use listing::{Form, ListInput, Listed, list_capture};
use message::{HartRange, NoProgress};
use retire::WriteFault;
use rvclass::ProgramOver;
use salvage_reports::{TreatedCapture, find_salvaged, in_rows, write_treated};
use salvaging::treat_watched;
use std::alloc::Global;
use symbols::{Symbols, SymbolsFault};

/// Lines of text.
pub const TEXT: u32 = 0;
/// A table of CSV.
pub const CSV: u32 = 1;

/// Writes the listing of a capture to a buffer, as `tracebench list` prints it: a line for each message, with its
/// packet and the events that it settles. Places are named by the symbols, which are lines as `nm` prints them; where
/// there is no byte of symbols, they have no names. The harts are those that the header counts, or without a header
/// those below `harts`. The format is [`TEXT`] or [`CSV`].
///
/// The status is [`DONE`](crate::status::DONE), [`TOO_SMALL`](crate::status::TOO_SMALL),
/// [`OUT_OF_RANGE`](crate::status::OUT_OF_RANGE) where the format is none, [`MEMORY`](crate::status::MEMORY), or says
/// what is wrong with the pieces, or with the symbols. All but the first two write nothing.
pub fn tracebench_list(
    alloc: Global,
    pieces: &[ImagePiece<'_>],
    harts: u16,
    capture: &[u8],
    symbols: &[u8],
    format: u32,
    buffer: &mut [u8],
    wanted: &mut u64,
    ended: &mut TextEnd,
) -> u32
    ensures { OfPieces pieces.now (λ image. ReportsList image harts capture.now symbols.now format result wanted.old
        wanted.new ended.old ended.new buffer.old buffer.new) }
{
    let judged = judge_pieces(alloc, pieces);
    let account = Account::Decoded { harts };
    let listed = list_text(alloc, account, &judged, capture, symbols, format);
    report_text(listed, buffer, wanted, ended)
}

/// Writes what salvaging does with each message of a capture to a buffer, as `tracebench list --salvage` prints it: a
/// line for each message that is found among its bytes, with what it says and what is done with it, and one for each
/// run of bytes between. The messages and the harts are those of [`tracebench_salvage`](crate::tracebench_salvage), and
/// so is `ended`. Symbols and formats are those of [`tracebench_list`].
///
/// The status is [`DONE`](crate::status::DONE), [`TOO_SMALL`](crate::status::TOO_SMALL),
/// [`OUT_OF_RANGE`](crate::status::OUT_OF_RANGE) where the format is none, [`MEMORY`](crate::status::MEMORY), or says
/// what is wrong with the pieces, or with the symbols. All but the first two write nothing.
pub fn tracebench_list_salvaged(
    alloc: Global,
    pieces: &[ImagePiece<'_>],
    harts: u16,
    capture: &[u8],
    symbols: &[u8],
    format: u32,
    buffer: &mut [u8],
    wanted: &mut u64,
    ended: &mut TextEnd,
) -> u32
    ensures { OfPieces pieces.now (λ image. ReportsTreated image harts capture.now symbols.now format result wanted.old
        wanted.new ended.old ended.new buffer.old buffer.new) }
{
    let judged = judge_pieces(alloc, pieces);
    let account = Account::Salvaged {
        asked: harts_asked(harts),
    };
    let treated = list_text(alloc, account, &judged, capture, symbols, format);
    report_text(treated, buffer, wanted, ended)
}

/// What is said of each message.
#[derive(Clone, Copy)]
enum Account {
    /// What it carries, and the events that it settles. The harts are these where no header counts them.
    Decoded { harts: u16 },
    /// What salvaging does with it. This count of harts is asked for, if one is.
    Salvaged { asked: Option<u16> },
}

/// The text of a listing, or why there is none.
fn list_text(
    alloc: Global,
    account: Account,
    image: &Judged<'_>,
    capture: &[u8],
    symbols: &[u8],
    format: u32,
) -> Result<Written, Fault>
    ensures { IsTextIn image.now symbols.now format (HasAccount account capture.now) result }
{
    match format_of(format) {
        Some(format) => list_as(alloc, account, format, image, capture, symbols),
        None => Err(Fault::Range),
    }
}

/// The format of a number.
fn format_of(number: u32) -> Option<Form>
    ensures { result ≡ format_of number }
{
    match number {
        TEXT => Some(Form::Lines { rows: false }),
        CSV => Some(Form::Table),
        _ => None,
    }
}

/// The text of a listing in a format, or why there is none.
fn list_as(
    alloc: Global,
    account: Account,
    format: Form,
    image: &Judged<'_>,
    capture: &[u8],
    symbols: &[u8],
) -> Result<Written, Fault>
    ensures { IsTextBy image.now symbols.now (HasAccount account capture.now format) result }
{
    let program = match image {
        Ok(program) => program,
        Err(why) => return Err(Fault::NoProgram(*why)),
    };
    let symbols = match symbols_of(alloc, symbols) {
        Ok(symbols) => symbols,
        Err(why) => return Err(Fault::Symbols(why)),
    };
    match list_by(alloc, account, format, program, capture, symbols.as_ref()) {
        Ok(written) => Ok(written),
        Err(_) => Err(Fault::Memory),
    }
}

/// The symbols of bytes, if there are any.
fn symbols_of(alloc: Global, bytes: &[u8]) -> Result<Option<Symbols>, SymbolsFault>
    ensures read { IfOk result (λ symbols. symbols_in bytes.now ≡ Ok symbols) }
    ensures refused { IfErr result (AreNotRead bytes.now) }
{
    if bytes.is_empty() {
        return Ok(None);
    }
    let file = match Vec::from_slice(alloc, bytes) {
        Ok(file) => file,
        Err(_) => return Err(SymbolsFault::Memory),
    };
    match Symbols::new(alloc, file) {
        Ok(symbols) => Ok(Some(symbols)),
        Err(why) => Err(why),
    }
}

/// The text of a listing by a program in a format.
fn list_by(
    alloc: Global,
    account: Account,
    format: Form,
    program: &ProgramOver<'_>,
    capture: &[u8],
    symbols: Option<&Symbols>,
) -> Result<Written, WriteFault>
    ensures { IfOk result (λ written. HasAccount account capture.now format program.now
        (option_map (λ file. file.now) symbols.entry) written.text.items written.end) }
{
    match account {
        Account::Decoded { harts } => list_decoded(alloc, harts, format, program, capture, symbols),
        Account::Salvaged { asked } => treat_by(alloc, asked, format, program, capture, symbols),
    }
}

/// What each message of a capture carries, and the events that it settles, by a program in a format.
fn list_decoded<'x>(
    alloc: Global,
    harts: u16,
    format: Form,
    program: &'x ProgramOver<'x>,
    capture: &'x [u8],
    symbols: Option<&'x Symbols>,
) -> Result<Written, WriteFault>
    ensures { IfOk result (λ written. HasListing harts capture.now format program.now
        (option_map (λ file. file.now) symbols.entry) written.text.items written.end) }
{
    let input = ListInput {
        program,
        harts,
        only: HartRange::ALL,
        capture,
        symbols,
        form: format,
    };
    let mut listed_text = Vec::new(alloc);
    let listed = list_capture(alloc, &input, &mut listed_text, &NoProgress)?;
    let end = end_of(&listed);
    Ok(Written {
        text: listed_text,
        end,
    })
}

/// How a listing ends, in numbers.
fn end_of(listed: &Listed) -> TextEnd
    ensures { result ≡ list_end listed.now.closed.items listed.now.fault }
{
    let closed = listed.closed.as_slice();
    let harts = closed.len() as u64;
    let unclosed = first_unclosed(closed);
    TextEnd {
        harts,
        unclosed,
        place: stop_place(listed.fault),
        fault: stop_fault(listed.fault),
        whole: u32::from(listed.fault.is_none() && unclosed == harts),
    }
}

/// What salvaging does with each message of a capture by a program in a format.
fn treat_by(
    alloc: Global,
    asked: Option<u16>,
    format: Form,
    program: &ProgramOver<'_>,
    capture: &[u8],
    symbols: Option<&Symbols>,
) -> Result<Written, WriteFault>
    ensures { IfOk result (λ written. HasTreated asked capture.now format program.now
        (option_map (λ file. file.now) symbols.entry) written.text.items written.end) }
{
    let start = start_of(capture);
    let harts = harts_counted(asked, start.header, capture);
    let mode = mode_of(start.header);
    let found = find_salvaged(
        alloc,
        program,
        start,
        harts,
        HartRange::ALL,
        capture,
        &NoProgress,
    )?;
    let messages = found.frames.messages.as_slice();
    let treated = treat_watched(alloc, program, harts, mode, messages, &NoProgress)?;
    let rows = in_rows(alloc, format, messages, treated.as_slice())?;
    let all = TreatedCapture {
        header: start.header,
        only: HartRange::ALL,
        bytes: capture,
        treated: rows.as_slice(),
    };
    let mut text = Vec::new(alloc);
    write_treated(format, symbols, all, &mut text)?;
    let end = end_of_found(&found);
    Ok(Written { text, end })
}
