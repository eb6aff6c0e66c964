//! What a first pass over a capture finds of its harts.

ghost use Rattle.std.specs.Prelude.{◌+◌, ◌-◌, ◌^◌, ◌<◌, ◌≡◌, ◌≢◌, Err, IfErr, IfOk, min};
ghost use Rattle.command_inputs.specs.declared.fault.Fault.TheVariants as Fault;
ghost use Rattle.parallel_decode.specs.CaptureSurveyed.{IsCaptureSurvey};
ghost use Rattle.capture_commands.specs.Faults.{status_of};
ghost use Rattle.capture_commands.specs.Comparison.{end_of_stop};
ghost use Rattle.capture_commands.specs.steps.Surveyed.{IsSurveyed};
ghost use Rattle.rvclass.specs.Fetch.{words_of};

use crate::counting::begin_messages;
use crate::input::Input;
use crate::reason::Fault;
use crate::stopping::capture_fault;
use captures::CaptureFault;
use command_inputs::{Files, MessageProgress, Status};
use comparing::{HartCount, counts_of};
use message::HartRange;
use parallel_decode::{CaptureSurvey, Selection, survey_capture};
use std::alloc::{AllocError, Global};

/// Where the messages of each hart of a capture are, and where decoding stops.
#[derive(Drop)]
pub(crate) struct Surveyed<'b> {
    /// The bytes that the places are in.
    pub(crate) messages: &'b [u8],
    /// Where each hart's messages begin, as far as they are decoded.
    pub(crate) places: Vec<Vec<usize>>,
    /// Whether the closing packet of each hart was decoded.
    pub(crate) closed: Vec<bool>,
    /// How many messages of each hart there are before decoding stops.
    pub(crate) counts: Vec<HartCount>,
    /// Where decoding stops before the end, and why.
    pub(crate) stop: Option<(u64, CaptureFault)>,
}

/// Where the messages of the harts of an input are, and where decoding stops. How far they are worked through is shown,
/// where that is asked for. The only fault is that an allocation failed.
pub(crate) fn surveyed_of<'a, 'b, F: Files>(
    alloc: Global,
    progress: &MessageProgress<'_, F>,
    harts: u16,
    input: &Input<'_, '_, 'b>,
) -> Result<Surveyed<'b>, Fault<'a>>
    ensures fault { IfErr result (λ fault. fault ≡ Fault.Memory) }
    ensures found { IfOk result
        (IsSurveyed input.now.only (words_of input.now.program.now) harts input.now.bytes.now) }
    ensures no_memory { IfOk result (λ found. end_of_stop found.stop ≢ Err Fault.Memory) }
{
    let bytes = input.bytes;
    let found = show_survey(alloc, progress, harts, input)?;
    let survey = found.survey;
    let counts = counts_of(alloc, survey.places.len(), survey.fault, bytes)?;
    Ok(Surveyed {
        messages: found.messages,
        places: survey.places,
        closed: survey.closed,
        counts,
        stop: survey.fault,
    })
}

/// Where the messages of the harts of an input are, and how far they are decoded. How far they are worked through is
/// shown, where that is asked for. The error says that an allocation failed.
fn show_survey<'b, F: Files>(
    alloc: Global,
    progress: &MessageProgress<'_, F>,
    harts: u16,
    input: &Input<'_, '_, 'b>,
) -> Result<CaptureSurvey<'b, Global>, AllocError>
    ensures { IfOk result
        (IsCaptureSurvey input.now.only (words_of input.now.program.now) harts input.now.bytes.now) }
{
    begin_messages(progress, input.bytes);
    let capture = Selection {
        program: input.program,
        harts,
        range: input.only,
        bytes: input.bytes,
    };
    let found = survey_capture(alloc, &capture, progress);
    progress.end();
    found
}

/// How many of these harts there are below this count.
pub(crate) fn harts_below(range: HartRange, harts: usize) -> usize
    ensures count { result ≡ min (range.last + 1 - range.first) (harts - range.first) }
    ensures few { range.last < 2 ^ 64 }
{
    let first = usize::from(range.first);
    let end = usize::from(range.last) + 1;
    end.saturating_sub(first).min(harts.saturating_sub(first))
}

/// The fault at which decoding stops, if it does.
pub(crate) fn ended<'a>(stop: Option<(u64, CaptureFault)>) -> Result<(), Fault<'a>>
    ensures value { result ≡ end_of_stop stop }
    ensures never_refused { IfErr result (λ why. status_of why ≢ Status.Refused) }
{
    match stop {
        None => Ok(()),
        Some((number, why)) => Err(capture_fault(number, why)),
    }
}
