//! The harts that `--only` asks for.

ghost use Rattle.std.specs.Prelude.{◌≡◌, IfErr, IfOk, None, Some};
ghost use Rattle.command_inputs.specs.OnlyHarts.{IsOnly, asked_harts};
ghost use Rattle.command_inputs.specs.Order.{only_fault};

use crate::fault::Fault;
use message::{HartRange, range_of};

/// The harts that the argument of `--only` asks for, or all where there is none. Where it is no range of harts, the fault
/// is [`Fault::Only`].
pub fn harts_asked<'a, W>(only: Option<&str>) -> Result<HartRange, Fault<'a, W>>
    ensures found { IsOnly only.entry result }
    ensures some { IfOk result (λ _. only_fault {W = W} (asked_harts only.entry) ≡ None) }
    ensures none { IfErr result (λ why. only_fault (asked_harts only.entry) ≡ Some why) }
{
    match only {
        None => Ok(HartRange::ALL),
        Some(text) => match range_of(text) {
            Some(harts) => Ok(harts),
            None => Err(Fault::Only),
        },
    }
}
