//! The end of a line.

ghost use Rattle.std.specs.Prelude.{◌≡◌, ℕ, List, true, IfSome};
ghost use Rattle.std.specs.Option.{IsSomeAnd};
ghost use Rattle.retire.specs.PlainLog.{EndsLine};
ghost use Rattle.retire.specs.steps.PlainRow.{EndsLineIn};

/// What follows the end of a line at the front of a text. The end of the text ends a line only if its source has ended.
#[inline(always)]
pub(crate) fn line_end(text: &[u8], is_ended: bool) -> Option<&[u8]>
    ensures ends { IfSome result (λ r. EndsLineIn is_ended text.now r.now) }
    ensures reads { is_ended ≡ true → (rest : List ℕ) → EndsLine text.now rest → IsSomeAnd result (λ r. r.now ≡ rest) }
{
    match text {
        [b'\n', rest @ ..] => Some(rest),
        [b'\r', b'\n', rest @ ..] => Some(rest),
        [] => { if is_ended { Some(text) } else { None } }
        _ => None,
    }
}
