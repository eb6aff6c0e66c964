//! The search among the parts of a memory.

ghost use Rattle.std.specs.Prelude.{◌≡◌, ◌≤◌, length};
ghost use Rattle.rvclass.specs.steps.Parts.{AreKept};
ghost use Rattle.rvclass.specs.steps.Search.{IsCountUpTo};

use crate::part::Part;

/// The number of parts whose rank is at most this one. They are the first.
#[inline]
pub(crate) fn count_up_to(parts: &[Part<'_>], rank: u64) -> usize
    requires { AreKept parts.now }
    ensures bound { result ≤ length parts.now }
    ensures count { IsCountUpTo rank parts.now result }
{
    parts.partition_point(|part| part.rank <= rank)
}
