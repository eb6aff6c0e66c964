//! The first pass over a whole capture, with a header or without one.

ghost use Rattle.std.specs.Prelude.{IfOk};
ghost use Rattle.parallel_decode.specs.CaptureSurveyed.{IsCaptureSurvey};
ghost use Rattle.rvclass.specs.Fetch.{words_of};

use crate::body::body_of;
use crate::indexing::{Survey, survey_messages};
use crate::selecting::Selection;
use message::ProgressSink;
use std::alloc::{AllocError, Allocator};

/// What the first pass over a capture finds.
#[derive(Drop)]
pub struct CaptureSurvey<'b, A: Allocator> {
    /// The bytes that the places of the survey are in: those after the header, or all where there is none.
    pub messages: &'b [u8],
    /// What the first pass finds in them.
    pub survey: Survey<A>,
}

/// Surveys the messages that a capture has of the harts in a range. `watch` is told of each message that is received or
/// passed over.
///
/// Where the header is cut short or bad, that is the fault, at message 0, and nothing is decoded of as many harts as
/// are asked for. The error says that an allocation failed.
pub fn survey_capture<'b, A: Allocator + Copy, V: ProgressSink>(
    alloc: A,
    capture: &Selection<'_, 'b>,
    watch: &V,
) -> Result<CaptureSurvey<'b, A>, AllocError>
    ensures { IfOk result (IsCaptureSurvey capture.now.range (words_of capture.now.program.now) capture.now.harts
        capture.now.bytes.now) }
{
    let body = body_of(capture.harts, capture.bytes);
    let messages = Selection {
        harts: body.harts,
        bytes: body.bytes,
        ..*capture
    };
    let survey = survey_messages(alloc, &messages, body.announced, watch)?;
    Ok(CaptureSurvey {
        messages: body.bytes,
        survey: Survey {
            places: survey.places,
            closed: survey.closed,
            fault: body.fault_or(survey.fault),
        },
    })
}
