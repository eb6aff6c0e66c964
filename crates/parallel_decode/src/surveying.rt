//! The first pass over a capture's messages, with marks.

ghost use Rattle.std.specs.Prelude.{◌≡◌, All, IfOk, None, Option, map};
ghost use Rattle.rvclass.specs.Fetch.{words_of};
ghost use Rattle.parallel_decode.specs.Marked.{IsMarkedSurvey};
ghost use Rattle.parallel_decode.specs.steps.Walked.{IsAttempt};

use crate::ahead::{Ahead, next_ahead};
use crate::hart::{HartEnd, Work};
use crate::lists::empty_lists;
use crate::parts::receive_harts;
use crate::walking::walk_over;
use crate::{Mark, Selection, survey_messages};
use captures::CaptureFault;
use message::{HartRange, NoProgress, ProgressSink};
use payload::Mode;
use std::alloc::{AllocError, Global};
use std::thread::Threads;

/// All harts together have at most about so many marks, of about 150 bytes each.
const MARKS: usize = 16_384;

/// What the first pass finds, with states of decoders on the way.
#[derive(Drop)]
pub struct MarkedSurvey {
    /// Where each hart's messages begin, as far as they are decoded. Those of a hart that is passed over are not.
    pub places: Vec<Vec<usize>>,
    /// Whether each hart's closing packet was decoded.
    pub closed: Vec<bool>,
    /// Each hart's marks, in order. There may be none.
    pub marks: Vec<Vec<Mark>>,
    /// Where decoding stops before the end, and why.
    pub fault: Option<(u64, CaptureFault)>,
}

/// What comes of receiving the harts side by side.
#[derive(Drop)]
pub(crate) enum Attempt {
    /// The survey.
    Surveyed(MarkedSurvey),
    /// A message is refused. It begins at this place or after it.
    RefusedAt(usize),
}

/// Surveys messages of the harts in a range, where the header announces this mode, if there is a header: as
/// [`survey_messages`] does, with several harts side by side, and with marks. A hart has a mark each time 65,536 events
/// or more were decoded since the last one, unless all harts together have too many.
///
/// `watch` is told of each message while their places are looked for, before one is decoded: at most once of each, also
/// of those after the fault.
pub fn survey_side_by_side<R: Threads + Sync, V: ProgressSink>(
    alloc: Global,
    rt: &R,
    messages: &Selection<'_, '_>,
    announced: Option<Mode>,
    watch: &V,
) -> Result<MarkedSurvey, AllocError>
    ensures { IfOk result (IsMarkedSurvey messages.now.range (words_of messages.now.program.now) messages.now.harts
        announced messages.now.bytes.now) }
{
    let work = Work {
        alloc,
        program: messages.program,
        announced,
        bytes: messages.bytes,
        most: MARKS / usize::from(messages.harts).max(1),
    };
    let harts = messages.harts;
    let range = messages.range;
    let refused = match survey_before(rt, &work, harts, range, work.bytes.len(), watch)? {
        Attempt::Surveyed(survey) => return Ok(survey),
        Attempt::RefusedAt(place) => place,
    };
    match survey_before(rt, &work, harts, range, refused, &NoProgress)? {
        Attempt::Surveyed(survey) => Ok(survey),
        Attempt::RefusedAt(_) => survey_in_turn(&work, harts, range),
    }
}

/// Surveys the messages that begin before this limit, or finds that one of them is refused.
fn survey_before<R: Threads + Sync, V: ProgressSink>(
    rt: &R,
    work: &Work<'_>,
    harts: u16,
    range: HartRange,
    limit: usize,
    watch: &V,
) -> Result<Attempt, AllocError>
    ensures { IfOk result (IsAttempt range (words_of work.now.program.now) harts work.now.announced
        work.now.bytes.now) }
{
    let walk = walk_over(work.alloc, harts, range, limit, work.bytes, watch)?;
    let ends = receive_harts(rt, work, walk.places.as_slice())?;
    if let Some(place) = first_refused(ends.as_slice()) {
        return Ok(Attempt::RefusedAt(place));
    }
    if ends.len() != walk.places.len() {
        return Ok(Attempt::RefusedAt(walk.place));
    }
    let fault = match next_ahead(work, harts, range, &walk)? {
        Ahead::End => None,
        Ahead::Fault(why) => Some((walk.passed, why)),
        Ahead::Received => return Ok(Attempt::RefusedAt(walk.place)),
    };
    let survey = survey_of(work.alloc, walk.places, ends, fault)?;
    Ok(Attempt::Surveyed(survey))
}

/// Where the first message is that is refused, if one is.
fn first_refused(ends: &[HartEnd]) -> Option<usize>
    ensures { result ≡ None → All (λ end. end.refused ≡ None) ends.now }
{
    let mut first = None;
    for end in ends {
        first = earlier(first, end.refused);
    }
    first
}

/// The lower of two places, if there is one.
fn earlier(one: Option<usize>, other: Option<usize>) -> Option<usize>
    ensures one { result ≡ None → one ≡ None }
    ensures other { result ≡ None → other ≡ None }
{
    match (one, other) {
        (Some(one), Some(other)) => Some(one.min(other)),
        (None, other) => other,
        (one, None) => one,
    }
}

/// The survey of harts whose messages begin at these places and are received.
fn survey_of(
    alloc: Global,
    places: Vec<Vec<usize>>,
    ends: Vec<HartEnd>,
    fault: Option<(u64, CaptureFault)>,
) -> Result<MarkedSurvey, AllocError>
    ensures places { IfOk result (λ survey. survey.places ≡ places) }
    ensures closed { IfOk result (λ survey. survey.closed.items ≡ map (λ end. end.own.closed) ends.items) }
    ensures marks { IfOk result (λ survey. survey.marks.items ≡ map (λ end. end.marks) ends.items) }
    ensures fault { IfOk result (λ survey. survey.fault ≡ fault) }
{
    let mut closed = Vec::new(alloc);
    let mut marks = Vec::new(alloc);
    for end in ends {
        closed.push(end.own.closed)?;
        marks.push(end.marks)?;
    }
    Ok(MarkedSurvey {
        places,
        closed,
        marks,
        fault,
    })
}

/// The survey in one thread, without a mark.
fn survey_in_turn(work: &Work<'_>, harts: u16, range: HartRange) -> Result<MarkedSurvey, AllocError>
    ensures { IfOk result (IsMarkedSurvey range (words_of work.now.program.now) harts work.now.announced
        work.now.bytes.now) }
{
    let messages = Selection {
        program: work.program,
        harts,
        range,
        bytes: work.bytes,
    };
    let survey = survey_messages(work.alloc, &messages, work.announced, &NoProgress)?;
    let marks = empty_lists(work.alloc, usize::from(harts))?;
    Ok(MarkedSurvey {
        places: survey.places,
        closed: survey.closed,
        marks,
        fault: survey.fault,
    })
}
