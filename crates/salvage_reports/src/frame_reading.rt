//! The messages of a damaged capture, found among its bytes.

ghost use Rattle.std.specs.Prelude.{◌≡◌, All, IfOk, OnOk, [], length};
ghost use Rattle.frames.specs.Search.{chosen, is_chosen};
ghost use Rattle.salvage_reports.specs.Frames.{AreFrames};
ghost use Rattle.salvage_reports.specs.steps.Reading.{AddsFrame, AddsOffset, AddsWhere};

use frames::{Span, Spans};
use message::{HartRange, Message};
use std::alloc::{AllocError, Global};

/// The messages of a capture's frames, and where they are.
#[derive(Drop)]
pub struct Frames {
    /// The messages, in the order of the capture.
    pub messages: Vec<Message>,
    /// Of each hart the offsets of its messages, in that order.
    pub offsets: Vec<Vec<usize>>,
    /// Whether there are bytes that belong to none.
    pub runs: bool,
}

/// So many empty lists of offsets.
fn empty_lists(alloc: Global, count: usize) -> Result<Vec<Vec<usize>>, AllocError>
    ensures count { IfOk result (λ lists. length lists.items ≡ count) }
    ensures empty { IfOk result (λ lists. All (λ list. list.items ≡ []) lists.items) }
{
    let mut lists = Vec::with_capacity(alloc, count)?;
    for _ in 0..count {
        lists.push_reserved(Vec::new(alloc));
    }
    Ok(lists)
}

/// Adds an offset to the list of its hart, if there is one.
fn add_offset(lists: &mut Vec<Vec<usize>>, hart: u16, offset: usize) -> Result<(), AllocError>
    ensures { OnOk result (AddsOffset hart offset lists.old.items lists.new.items) }
{
    match lists.get_mut(usize::from(hart)) {
        Some(list) => {
            list.reserve(1)?;
            list.push_reserved(offset);
            Ok(())
        }
        None => Ok(()),
    }
}

/// Adds the message of a frame, and its offset.
fn add_frame(frames: &mut Frames, offset: usize, message: Message) -> Result<(), AllocError>
    ensures { OnOk result (AddsFrame offset message frames.old frames.new) }
{
    add_offset(&mut frames.offsets, message.hart, offset)?;
    frames.messages.reserve(1)?;
    frames.messages.push_reserved(message);
    Ok(())
}

/// Adds what is at a place of the capture. A message of any hart but these is passed over.
fn add_span(frames: &mut Frames, only: HartRange, span: Span) -> Result<(), AllocError>
    ensures { OnOk result (AddsWhere (is_chosen only span) span frames.old frames.new) }
{
    match span {
        Span::Frame { offset, message } => {
            if only.selects(message.hart) {
                add_frame(frames, offset, message)?;
            }
        }
        Span::Bytes { .. } => {
            frames.runs = true;
        }
    }
    Ok(())
}

/// The messages of the frames among these spans whose harts are asked for, their offsets by their harts, of which there
/// are `harts` in all, and whether there are bytes that belong to no frame. Messages of other harts are passed over. An
/// error is returned only where an allocation fails. The memory grows with the messages and the harts.
pub fn frames_of(
    alloc: Global,
    only: HartRange,
    harts: u16,
    spans: Spans<'_>,
) -> Result<Frames, AllocError>
    ensures { IfOk result (AreFrames harts (chosen only spans.entry)) }
{
    let mut frames = Frames {
        messages: Vec::new(alloc),
        offsets: empty_lists(alloc, usize::from(harts))?,
        runs: false,
    };
    for span in spans {
        add_span(&mut frames, only, span)?;
    }
    Ok(frames)
}
