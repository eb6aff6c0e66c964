//! The first pass over a whole capture, with a header or without one, and with marks.

ghost use Rattle.std.specs.Prelude.{IfOk};
ghost use Rattle.rvclass.specs.Fetch.{words_of};
ghost use Rattle.parallel_decode.specs.CaptureMarked.{IsMarkedCaptureSurvey};

use crate::Selection;
use crate::body::body_of;
use crate::surveying::{MarkedSurvey, survey_side_by_side};
use message::ProgressSink;
use std::alloc::{AllocError, Global};
use std::thread::Threads;

/// What the first pass over a capture finds, with states of decoders on the way.
#[derive(Drop)]
pub struct MarkedCaptureSurvey<'b> {
    /// The bytes that the places of the survey are in: those after the header, or all where there is none.
    pub messages: &'b [u8],
    /// What the first pass finds in them.
    pub survey: MarkedSurvey,
}

/// Surveys the messages that a capture has of the harts in a range: as
/// [`survey_capture`](crate::survey_capture) does, with several harts side by side, and with marks, as
/// [`survey_side_by_side`] has them.
pub fn survey_capture_side_by_side<'b, R: Threads + Sync, V: ProgressSink>(
    alloc: Global,
    rt: &R,
    capture: &Selection<'_, 'b>,
    watch: &V,
) -> Result<MarkedCaptureSurvey<'b>, AllocError>
    ensures { IfOk result (IsMarkedCaptureSurvey capture.now.range (words_of capture.now.program.now) capture.now.harts
        capture.now.bytes.now) }
{
    let body = body_of(capture.harts, capture.bytes);
    let messages = Selection {
        harts: body.harts,
        bytes: body.bytes,
        ..*capture
    };
    let survey = survey_side_by_side(alloc, rt, &messages, body.announced, watch)?;
    Ok(MarkedCaptureSurvey {
        messages: body.bytes,
        survey: MarkedSurvey {
            fault: body.fault_or(survey.fault),
            ..survey
        },
    })
}
