//! What stopped a run.

ghost use Rattle.std.specs.Prelude.{◌≡◌, ◌≤◌, IfNone, IfSome, length};
ghost use Rattle.funnel.specs.Limits.{most_ports};
ghost use Rattle.bench.specs.Stopping.{IsFirst};
ghost use Rattle.bench.specs.steps.Stopping.{IsOfNone, IsSought, NamesFirst, is_sought};

use crate::outcome::HartOutcome;
use crate::stop::Stop;
use std::alloc::Allocator;

/// Which harts are looked for among those that are not closed.
#[derive(Clone, Copy)]
pub(crate) enum Sought {
    /// Those of which a payload was handed back.
    HandedBack,
    /// Those for which neither memory nor the thread was refused.
    Ended,
    /// All of them.
    Open,
}

/// Why some hart is not closed, where one is not. A payload that was handed back comes before a channel that ended, and
/// that before memory or a thread that was refused.
pub(crate) fn stop_of<A: Allocator>(harts: &[HartOutcome<A>], handed_back: &[bool]) -> Option<Stop>
    requires { (length harts.now ≡ length handed_back.now) × (length harts.now ≤ most_ports) }
    ensures { NamesFirst harts.now handed_back.now result }
{
    if let Some(hart) = first(harts, handed_back, Sought::HandedBack) {
        return Some(Stop::HandedBack(hart));
    }
    if let Some(hart) = first(harts, handed_back, Sought::Ended) {
        return Some(Stop::Ended(hart));
    }
    match first(harts, handed_back, Sought::Open) {
        Some(hart) => Some(Stop::Memory(hart)),
        None => None,
    }
}

/// The first hart that is looked for.
fn first<A: Allocator>(
    harts: &[HartOutcome<A>],
    handed_back: &[bool],
    sought: Sought,
) -> Option<u16>
    requires { (length harts.now ≡ length handed_back.now) × (length harts.now ≤ most_ports) }
    ensures some { IfSome result (IsFirst (IsSought sought harts.now handed_back.now)) }
    ensures none { IfNone result (IsOfNone (IsSought sought harts.now handed_back.now)) }
{
    for hart in 0..harts.len() {
        if is_sought(&harts[hart], handed_back[hart], sought) {
            return Some(hart as u16);
        }
    }
    None
}

/// Whether a hart is looked for.
fn is_sought<A: Allocator>(came: &HartOutcome<A>, back: bool, sought: Sought) -> bool
    ensures { result ≡ is_sought sought came.now back }
{
    match sought {
        Sought::HandedBack => !came.closed && back,
        Sought::Ended => !came.closed && !came.refused,
        Sought::Open => !came.closed,
    }
}
