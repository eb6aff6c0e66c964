//! The logs of harts, decoded in several threads.

ghost use Rattle.std.specs.Prelude.{◌≡◌, false, All, List, Err, OnOk};
ghost use Rattle.std.specs.Io.KnownBytes.{Appends};
ghost use Rattle.output.specs.Begun.{AppendsBeginning};
ghost use Rattle.retire.specs.declared.event.Event.{Event as AnyEvent};
ghost use Rattle.rvclass.specs.Fetch.{words_of};
ghost use Rattle.parallel_decode.specs.HartsText.{harts_text_of};
ghost use Rattle.parallel_decode.specs.Marks.{AreMarkedLogs};
ghost use Rattle.parallel_decode.specs.MarkedRows.{HaveMarkedLogs};

use crate::planning::stretches_of;
use crate::rounds::{SLOTS_A_THREAD, write_in_rounds};
use crate::sharing::Sharing;
use crate::slot::{Slot, slots_of};
use crate::stretch::Plan;
use crate::surveying::MarkedSurvey;
use crate::{RowBuffers, Selection};
use retire::WriteFault;
use std::alloc::Global;
use std::io::Write;
use std::marker::Brand;
use std::thread::Threads;

/// Writes the log of each hart in a range, after a line `hart H` with the hart's number. The messages are where a survey of
/// them says, and are decoded from its marks on, several stretches at once.
///
/// [`WriteFault::Memory`] comes before anything is written. Where the writer fails, what was written is a prefix of the
/// text. The writer is not flushed. The memory is about 130 KB and a buffer of text for each of two slots a thread, and that
/// of a mark for each mark.
pub fn write_harts_side_by_side<R: Threads + Sync, O: Write>(
    alloc: Global,
    rt: &R,
    sharing: Sharing,
    messages: &Selection<'_, '_>,
    survey: &MarkedSurvey,
    out: &mut O,
) -> Result<(), WriteFault>
    requires marked { HaveMarkedLogs (words_of messages.now.program.now) messages.now.bytes.now survey.now.places.items
        survey.now.marks.items }
    ensures text { (logs : List (List AnyEvent)) → AreMarkedLogs (words_of messages.now.program.now)
        messages.now.bytes.now survey.now.places.items survey.now.marks.items logs
        → OnOk result (Appends (O.contents out.old) (O.contents out.new) (harts_text_of messages.now.range 0 logs)) }
    ensures begun { (logs : List (List AnyEvent)) → AreMarkedLogs (words_of messages.now.program.now)
        messages.now.bytes.now survey.now.places.items survey.now.marks.items logs
        → AppendsBeginning (harts_text_of messages.now.range 0 logs) (O.contents out.old) (O.contents out.new) }
    ensures untouched { result ≡ Err WriteFault.Memory → out.new ≡ out.old }
{
    let mut rows = RowBuffers::new(alloc)?;
    let places = survey.places.as_slice();
    let stretches = stretches_of(alloc, messages.range, places, survey.marks.as_slice())?;
    let plan = Plan {
        program: messages.program,
        bytes: messages.bytes,
        places,
        stretches: stretches.as_slice(),
    };
    let slots = slots_for(
        alloc,
        sharing,
        messages.program.byte_count(),
        stretches.len(),
    );
    write_in_rounds::<Brand, R, O>(alloc, rt, plan, slots, &mut rows, out)
}

/// Two slots for each thread that decodes so many stretches, in a program of so many bytes. There are none where threads
/// gain nothing: with a single thread, of a single stretch, or in a program without bytes, in which no packet settles an
/// event. And there are none where an allocation fails.
fn slots_for(alloc: Global, sharing: Sharing, bytes: usize, stretches: usize) -> Vec<Slot>
    ensures { All (λ slot. slot.is_whole ≡ false) result.items }
{
    let threads = sharing.threads.min(stretches);
    if threads < 2 || bytes == 0 {
        return Vec::new(alloc);
    }
    match slots_of(alloc, threads.saturating_mul(SLOTS_A_THREAD), sharing.text) {
        Ok(slots) => slots,
        Err(_) => Vec::new(alloc),
    }
}
