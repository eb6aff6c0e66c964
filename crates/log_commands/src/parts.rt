//! Parts of a capture, each with the messages of some harts' logs.

ghost use Rattle.std.specs.Prelude.{◌≡◌, ◌+◌, IfSome};
ghost use Rattle.log_commands.specs.Parts.{all_harts, asked_part, first_hart, most_logs};
ghost use Rattle.log_commands.specs.steps.Parts.{limit_of};

use crate::reason::{Fault, LogReason};
use command_inputs::{Encode, base_of};

/// How many logs there may be. The error is that there is no part that is asked for, that a base is no number, or
/// that the first hart is not one of all.
pub(crate) fn limit_of<'a>(asked: &Encode<'a>) -> Result<u16, Fault<'a>>
    ensures { result ≡ limit_of asked.now }
{
    check_part(asked)?;
    base_of(&asked.program)?;
    most_logs(asked)
}

/// Refuses a first hart without a count of all harts, and a count that is more than a capture of the version has.
fn check_part<'a>(asked: &Encode<'a>) -> Result<(), Fault<'a>>
    ensures { result ≡ asked_part asked.now.version asked.now.first asked.now.of }
{
    let Some(harts) = asked.of else {
        return match asked.first {
            Some(_) => Err(Fault::Own(LogReason::FirstAlone)),
            None => Ok(()),
        };
    };
    let most = asked.version.most_harts();
    if most < harts {
        return Err(Fault::Own(LogReason::ManyHarts(most)));
    }
    Ok(())
}

/// How many logs there may be, where the first of them is of one of all harts.
fn most_logs<'a>(asked: &Encode<'a>) -> Result<u16, Fault<'a>>
    ensures { result ≡ most_logs asked.now.version asked.now.first asked.now.of }
{
    let Some(harts) = asked.of else {
        return Ok(asked.version.most_harts());
    };
    let first = first_hart(asked);
    if first < harts {
        return Ok(harts - first);
    }
    Err(Fault::Own(LogReason::FirstHart(harts)))
}

/// The hart of the first log.
pub(crate) fn first_hart(asked: &Encode) -> u16
    ensures { result ≡ first_hart asked.now.first }
{
    asked.first.unwrap_or(0)
}

/// How many harts all parts have, where the logs are this many.
pub(crate) fn all_harts(asked: &Encode, logs: usize) -> usize
    ensures { result ≡ all_harts asked.now.of logs }
{
    match asked.of {
        Some(harts) => usize::from(harts),
        None => logs,
    }
}

/// The hart of the log at a place, where the log at place 0 is that of this hart. There is none where its number has
/// more than 16 bits.
pub(crate) fn hart_at(first: u16, place: usize) -> Option<u16>
    ensures { IfSome result (λ hart. hart ≡ first + place) }
{
    match u16::try_from(place) {
        Ok(place) => first.checked_add(place),
        Err(_) => None,
    }
}
