//! Stretches whose texts are written one after the other.

ghost use Rattle.std.specs.Prelude.{◌≡◌, ◌+◌, ◌<◌, List, IfOk, length};
ghost use Rattle.retire.specs.declared.event.Event.{Event as AnyEvent};
ghost use Rattle.parallel_decode.specs.Put.{IsPut};
ghost use Rattle.parallel_decode.specs.steps.Putting.{PutsOn, PutsRest};
ghost use Rattle.parallel_decode.specs.steps.Stretches.{HavePart, HaveTexts, IsPartOf, head_if, stretch_text};

use crate::buffers::{RowBuffers, write_head};
use crate::stretch::{Plan, Stretch};
use crate::write_part;
use output::write_bytes;
use retire::WriteFault;
use std::io::Write;

/// Writes the text that the stretches from a place on add, in order.
pub(crate) fn write_stretches<O: Write>(
    plan: &Plan<'_>,
    from: usize,
    rows: &mut RowBuffers,
    out: &mut O,
) -> Result<(), WriteFault>
    requires { HaveTexts plan.now }
    ensures { PutsRest plan.now from result (O.contents out.old) (O.contents out.new) }
{
    for at in from..plan.stretches.len() {
        write_at(plan, at, rows, out)?;
    }
    Ok(())
}

/// Writes the text that the stretch at a place adds. Returns the place after it.
pub(crate) fn write_at<O: Write>(
    plan: &Plan<'_>,
    at: usize,
    rows: &mut RowBuffers,
    out: &mut O,
) -> Result<usize, WriteFault>
    requires sound { HaveTexts plan.now }
    requires within { at < length plan.now.stretches.now }
    ensures put { PutsOn plan.now at result (O.contents out.old) (O.contents out.new) }
    ensures next { IfOk result (λ next. next ≡ at + 1) }
{
    write_stretch(plan, &plan.stretches[at], rows, out)?;
    Ok(at + 1)
}

/// Writes the text that a stretch adds.
pub(crate) fn write_stretch<O: Write>(
    plan: &Plan<'_>,
    stretch: &Stretch,
    rows: &mut RowBuffers,
    out: &mut O,
) -> Result<(), WriteFault>
    requires { HavePart plan.now stretch.now }
    ensures { (part : List AnyEvent) → IsPartOf plan.now stretch.now part
        → IsPut result (O.contents out.old) (O.contents out.new) (stretch_text stretch.now part) }
{
    write_head_if(stretch.is_first, stretch.hart, rows, out)?;
    write_part(
        stretch.decoder,
        plan.program,
        plan.bytes,
        stretch.places(plan.places),
        rows,
        out,
    )
}

/// Writes bytes.
pub(crate) fn put<O: Write>(out: &mut O, bytes: &[u8]) -> Result<(), WriteFault>
    ensures { IsPut result (O.contents out.old) (O.contents out.new) bytes.now }
{
    write_bytes(out, bytes)?;
    Ok(())
}

/// Writes the line of a hart and the line of its log's header, if the hart's rows come next.
fn write_head_if<O: Write>(
    is_first: bool,
    hart: usize,
    rows: &mut RowBuffers,
    out: &mut O,
) -> Result<(), WriteFault>
    ensures { IsPut result (O.contents out.old) (O.contents out.new) (head_if is_first hart) }
{
    if is_first {
        write_head(hart, rows, out)
    } else {
        Ok(())
    }
}
