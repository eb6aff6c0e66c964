//! Texts that stand one after the other, and their legal logs.

ghost use Rattle.std.specs.Prelude.{◌≡◌, ◌<◌, ◌≤◌, IfErr, IfOk, length, option_map, take, vec_len};
ghost use Rattle.legalpath.specs.Legal.{Legal};
ghost use Rattle.legalpath.specs.ProgramLog.{program_log};
ghost use Rattle.retire.specs.Log.{most_rows};
ghost use Rattle.rvclass.specs.Fetch.{words_of};
ghost use Rattle.ffi.specs.Encoded.{IsLegalText, IsNoLegalText, last_end, text_at};

use crate::fault::Fault;
use legalpath::check;
use retire::{Event, read_log_from_slice};
use rvclass::ProgramOver;
use std::alloc::Global;

/// Where the text with this number starts: where the one before ends, and the first at the first byte.
fn start_of_text(ends: &[u64], place: usize) -> u64
    requires { place < length ends.now }
    ensures { result ≡ last_end 0 (take place ends.now) }
{
    if place == 0 { 0 } else { ends[place - 1] }
}

/// The text with this number, counted from 0. There is none where its end is before its start or past the texts.
pub(crate) fn text_at<'t>(texts: &'t [u8], ends: &[u64], place: usize) -> Option<&'t [u8]>
    requires { place < length ends.now }
    ensures { option_map (λ text. text.now) result ≡ text_at texts.now ends.now place }
{
    let start = start_of_text(ends, place);
    texts.get(start as usize..ends[place] as usize)
}

/// The events of the legal log of the text with this number, or that it is at fault and why. The program stays where it
/// is.
pub(crate) fn log_at(
    alloc: Global,
    program: &ProgramOver<'_>,
    texts: &[u8],
    ends: &[u64],
    place: usize,
) -> Result<Vec<Event>, (u64, Fault)>
    requires { place < length ends.now }
    ensures log { IfOk result (λ events. IsLegalText program.now (text_at texts.now ends.now place)
        (program_log program.now events.items)) }
    ensures legal { IfOk result (λ events. Legal (words_of program.now) events.items) }
    ensures short { IfOk result (λ events. vec_len events ≤ most_rows) }
    ensures fault { IfErr result (λ why. (why.0 ≡ place)
        × IsNoLegalText program.now (text_at texts.now ends.now place) why.1) }
{
    match legal_events(alloc, program, text_at(texts, ends, place)) {
        Ok(events) => Ok(events),
        Err(fault) => Err((place as u64, fault)),
    }
}

/// The events of the legal log of a text. The program stays where it is.
fn legal_events(
    alloc: Global,
    program: &ProgramOver<'_>,
    text: Option<&[u8]>,
) -> Result<Vec<Event>, Fault>
    ensures log { IfOk result (λ events. IsLegalText program.now (option_map (λ own. own.now) text.entry)
        (program_log program.now events.items)) }
    ensures legal { IfOk result (λ events. Legal (words_of program.now) events.items) }
    ensures short { IfOk result (λ events. vec_len events ≤ most_rows) }
    ensures fault { IfErr result (IsNoLegalText program.now (option_map (λ own. own.now) text.entry)) }
{
    let Some(text) = text else {
        return Err(Fault::Ends);
    };
    let events = read_log_from_slice(alloc, alloc, text)?;
    // This is called for its contract: the bytes of a program are an image.
    let _ = program.byte_count();
    match check(program, events.as_slice()) {
        Ok(()) => Ok(events),
        Err(why) => Err(Fault::Illegal(why)),
    }
}
