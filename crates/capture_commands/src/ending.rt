//! How the decoding of a capture ends a run.

ghost use Rattle.std.specs.Prelude.{◌≡◌, ◌≢◌, ◌&&◌, not};
ghost use Rattle.message.specs.Range.{selects};
ghost use Rattle.capture_commands.specs.Faults.{final_status};
ghost use Rattle.capture_commands.specs.Decoding.{end_of_capture_of};

use crate::reason::{CaptureReason, Fault};
use crate::stopping::capture_fault;
use captures::CaptureFault;
use command_inputs::Status;
use message::HartRange;
use parallel_decode::selects_hart;

/// How decoding of the harts in a range ended: at its fault, if there is one, or at the first of these harts whose
/// closing packet did not come.
pub(crate) fn ended_of<'a>(
    range: HartRange,
    fault: Option<(u64, CaptureFault)>,
    harts: &[bool],
) -> Result<Status, Fault<'a>>
    ensures value { result ≡ end_of_capture_of range fault harts.now }
    ensures never_refused { final_status result ≢ Status.Refused }
{
    if let Some((number, why)) = fault {
        return Err(capture_fault(number, why));
    }
    for (hart, closed) in harts.iter().enumerate() {
        if is_missed(range, hart, *closed) {
            return Err(Fault::Own(CaptureReason::Unclosed(hart)));
        }
    }
    Ok(Status::Whole)
}

/// Whether the closing packet of a hart is missed: the hart is one of those in the range, and is not closed.
fn is_missed(range: HartRange, hart: usize, closed: bool) -> bool
    ensures { result ≡ (selects range hart && not closed) }
{
    selects_hart(range, hart) && !closed
}
