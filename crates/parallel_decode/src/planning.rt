//! Which stretches harts' messages are cut into.

ghost use Rattle.std.specs.Prelude.{ℕ, ◌++◌, List, IfOk, OnOk, Some};
ghost use Rattle.std.specs.declared.vec.Vec.{Vec as AnyVec};
ghost use Rattle.retire.specs.LogText.{log_text};
ghost use Rattle.retire.specs.declared.event.Event.{Event as AnyEvent};
ghost use Rattle.rvclass.specs.Words.{IsProgram, Words};
ghost use Rattle.parallel_decode.specs.EachHart.{hart_line};
ghost use Rattle.parallel_decode.specs.HartsText.{harts_text_of};
ghost use Rattle.parallel_decode.specs.Marks.{AreMarkedLogs};
ghost use Rattle.parallel_decode.specs.steps.Planning.{IsMarkedHart};
ghost use Rattle.parallel_decode.specs.steps.Stretches.{HaveText};

use crate::stretch::Stretch;
use crate::{Mark, selects_hart};
use decoder::Decoder;
use message::HartRange;
use std::alloc::{AllocError, Global};

/// The stretches of the harts in a range, in order: those of a hart end at its marks, and at the end of its messages.
pub(crate) fn stretches_of(
    alloc: Global,
    range: HartRange,
    places: &[Vec<usize>],
    marks: &[Vec<Mark>],
) -> Result<Vec<Stretch>, AllocError>
    ensures { (words : Words) (bytes : List ℕ) (logs : List (List AnyEvent)) → IsProgram words
        → AreMarkedLogs words bytes places.now marks.now logs
        → IfOk result (λ stretches. HaveText words bytes places.now stretches.items (harts_text_of range 0 logs)) }
{
    let mut stretches = Vec::new(alloc);
    for (hart, own) in places.iter().enumerate() {
        if selects_hart(range, hart) {
            match marks.get(hart) {
                Some(on_way) => {
                    let count = own.as_slice().len();
                    add_hart(&mut stretches, hart, count, on_way.as_slice())?
                }
                None => {}
            }
        }
    }
    Ok(stretches)
}

/// Adds the stretches of a hart that has so many messages, and these marks on the way through them.
fn add_hart(
    stretches: &mut Vec<Stretch>,
    hart: usize,
    count: usize,
    marks: &[Mark],
) -> Result<(), AllocError>
    ensures { (words : Words) (bytes : List ℕ) (places : List (AnyVec ℕ Global)) (log : List AnyEvent)
        (text : List ℕ) → IsMarkedHart words bytes places hart count marks.now log
        → HaveText words bytes places stretches.old.items text
        → OnOk result (HaveText words bytes places stretches.new.items (text ++ (hart_line hart ++ log_text log))) }
{
    let mut next = Stretch {
        hart,
        is_first: true,
        decoder: Decoder::new(),
        from: 0,
        to: count,
    };
    for mark in marks {
        next.to = mark.taken;
        stretches.push(next)?;
        next = Stretch {
            hart,
            is_first: false,
            decoder: mark.decoder,
            from: mark.taken,
            to: count,
        };
    }
    stretches.push(next)?;
    Ok(())
}
