//! Which harts of SENT are asked for.

ghost use Rattle.std.specs.Prelude.{◌≡◌, ◌⊎◌, ◌≤◌, ◌+◌, Err, IfErr, IfOk, Ok, length, min};
ghost use Rattle.message.specs.Range.{has_below, selects};
ghost use Rattle.path_commands.specs.Audited.{IsReceivedOf};
ghost use Rattle.path_commands.specs.OnlyHarts.{HasHart, harts_among};
ghost use Rattle.command_inputs.specs.declared.fault.Fault.TheVariants as Fault;

use crate::reason::{Fault, PathReason};
use command_inputs::{Audit as Asked, Files, content_of};
use message::HartRange;

/// Reads RECEIVED, where SENT, which has so many harts, has one of those that are asked for.
pub(crate) fn received_of<'a, F: Files>(
    files: &mut F,
    asked: &Asked<'a>,
    harts: HartRange,
    count: usize,
) -> Result<Vec<u8>, Fault<'a>>
    ensures found { IfOk result
        (λ bytes. IsReceivedOf (F.content files.old) asked.now harts count (Ok bytes.items)) }
    ensures lacked { IfErr result (λ why. (why ≡ Fault.Memory)
        ⊎ IsReceivedOf (F.content files.old) asked.now harts count (Err why)) }
{
    check_hart(asked, harts, count)?;
    let bytes = content_of(files, asked.received)?;
    Ok(bytes)
}

/// Stops where SENT, which has so many harts, has none of those that are asked for.
pub(crate) fn check_hart<'a>(
    asked: &Asked<'a>,
    harts: HartRange,
    count: usize,
) -> Result<(), Fault<'a>>
    ensures { HasHart asked.now.sent asked.now.only harts count result }
{
    match asked.only {
        None => Ok(()),
        Some(_) if has_below(harts, count) => Ok(()),
        Some(_) => Err(Fault::Own(PathReason::NoHart(asked.sent, harts))),
    }
}

/// Whether one of these harts is below this count.
fn has_below(harts: HartRange, count: usize) -> bool
    ensures { result ≡ has_below harts count }
{
    usize::from(harts.first) < count && harts.first <= harts.last
}

/// Whether a hart is one of these.
pub(crate) fn is_among(harts: HartRange, hart: usize) -> bool
    ensures { result ≡ selects harts hart }
{
    usize::from(harts.first) <= hart && hart <= usize::from(harts.last)
}

/// The number after the last of these harts that is below this count.
pub(crate) fn past_among(harts: HartRange, count: usize) -> usize
    ensures past { result ≡ min count (harts.last + 1) }
    ensures within { result ≤ count }
{
    count.min(usize::from(harts.last) + 1)
}

/// How many of these harts are below this count.
pub(crate) fn count_among(harts: HartRange, count: usize) -> usize
    ensures { result ≡ length (harts_among harts count) }
{
    past_among(harts, count).saturating_sub(usize::from(harts.first))
}
