//! How many events are alike.

ghost use Rattle.std.specs.Prelude.{◌≡◌};
ghost use Rattle.bench.specs.Verdict.{count_alike};

use bench::{Verdict, compare};
use retire::Event;

/// How many events come before the first place where the lists differ or one of them has no event.
pub(crate) fn count_alike(decoded: &[Event], log: &[Event]) -> usize
    ensures { result ≡ count_alike decoded.now log.now }
{
    match compare(false, decoded, log) {
        Verdict::Differs(row) => (row as usize).saturating_sub(1),
        Verdict::Whole | Verdict::Beginning => decoded.len(),
    }
}
