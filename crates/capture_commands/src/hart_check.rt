//! Whether a capture has any of the harts that are asked for.

ghost use Rattle.std.specs.Prelude.{◌≡◌, ◌≢◌, IfErr};
ghost use Rattle.capture_commands.specs.Faults.{status_of};
ghost use Rattle.capture_commands.specs.CountedHarts.{HasHartBelow};
ghost use Rattle.capture_commands.specs.OnlyHarts.{HasHart, hart_at};
ghost use Rattle.command_inputs.specs.declared.fault.Fault.TheVariants as Fault;

use crate::lossy_decoding::harts_counted;
use crate::reason::{CaptureReason, Fault};
use command_inputs::Status;
use frames::{known_harts, start_of};
use message::HartRange;

/// Stops where a capture has none of these harts: its header counts no more than those before the first. Without a
/// valid header a capture has any hart below [`MOST_HARTS`](message::MOST_HARTS).
pub(crate) fn check_harts<'a>(harts: HartRange, capture: &[u8]) -> Result<(), Fault<'a>>
    ensures found { HasHart harts capture.now result }
    ensures never_refused { IfErr result (λ why. status_of why ≢ Status.Refused) }
    ensures no_memory { IfErr result (λ why. why ≢ Fault.Memory) }
{
    let start = start_of(capture);
    hart_below(harts, known_harts(start.header))
}

/// Stops where a capture has none of these harts: its header counts no more than those before the first. Without a
/// valid header a capture has any hart below `count`. Hart 0 is one of any capture.
pub(crate) fn check_harts_below<'a>(
    count: u16,
    harts: HartRange,
    capture: &[u8],
) -> Result<(), Fault<'a>>
    ensures found { HasHartBelow count harts capture.now result }
    ensures never_refused { IfErr result (λ why. status_of why ≢ Status.Refused) }
    ensures no_memory { IfErr result (λ why. why ≢ Fault.Memory) }
{
    let start = start_of(capture);
    hart_below(harts, harts_counted(count, start.header).max(1))
}

/// Stops where none of these harts is below this count.
pub(crate) fn hart_below<'a>(harts: HartRange, count: u16) -> Result<(), Fault<'a>>
    ensures value { result ≡ hart_at harts count }
    ensures never_refused { IfErr result (λ why. status_of why ≢ Status.Refused) }
    ensures no_memory { IfErr result (λ why. why ≢ Fault.Memory) }
{
    if harts.has_below(count) {
        Ok(())
    } else {
        Err(Fault::Own(CaptureReason::NoHart(harts)))
    }
}
