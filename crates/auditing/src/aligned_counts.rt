//! What is counted of harts.

ghost use Rattle.std.specs.Prelude.{◌≡◌, ◌<◌, ◌*◌, ◌+◌, ℕ, not};
ghost use Rattle.std.specs.List.{count_by};
ghost use Rattle.auditing.specs.Counted.{counts_of, total_of};
ghost use Rattle.auditing.specs.steps.Summing.{HasFew, HasRoom, with_hart};

use crate::Alignment;
use std::alloc::Allocator;

/// What is counted of a hart.
#[derive(Clone, Copy, Debug, PartialEq, Eq)]
pub struct HartCounts {
    /// How many of its messages were sent.
    pub sent: u64,
    /// How many came.
    pub came: u64,
    /// How many that were sent are lost.
    pub lost: u64,
    /// How many that came are extra.
    pub extra: u64,
    /// Whether nothing is lost and nothing is extra.
    pub whole: bool,
}

/// The sums of what is counted of harts, and whether all are whole.
#[derive(Clone, Copy, Debug)]
pub struct AlignedTotal {
    /// How many messages were sent.
    pub sent: u128,
    /// How many came.
    pub came: u128,
    /// How many that were sent are lost.
    pub lost: u128,
    /// How many that came are extra.
    pub extra: u128,
    /// Whether all harts are whole.
    pub whole: bool,
}

/// How many of these flags are not set.
fn unset(flags: &[bool]) -> u64
    ensures { result ≡ count_by not flags.now }
{
    flags.iter().filter(|flag| !**flag).count() as u64
}

/// What is counted of a hart with this alignment.
pub fn counts_of<A: Allocator>(own: &Alignment<A>) -> HartCounts
    ensures { result ≡ counts_of own.now }
{
    let lost = unset(own.sent());
    let extra = unset(own.came());
    HartCounts {
        sent: own.sent().len() as u64,
        came: own.came().len() as u64,
        lost,
        extra,
        whole: lost == 0 && extra == 0,
    }
}

/// The sums with one hart more.
fn total_with<A: Allocator>(total: AlignedTotal, own: &Alignment<A>) -> AlignedTotal
    requires { HasRoom total }
    ensures sums { result ≡ with_hart total own.now }
    ensures few { (harts : ℕ) → HasFew harts total → HasFew (harts + 1) result }
{
    let counts = counts_of(own);
    AlignedTotal {
        sent: total.sent + u128::from(counts.sent),
        came: total.came + u128::from(counts.came),
        lost: total.lost + u128::from(counts.lost),
        extra: total.extra + u128::from(counts.extra),
        whole: total.whole && counts.whole,
    }
}

/// What is counted of all harts.
pub fn total_of<A: Allocator>(all: &[Alignment<A>]) -> AlignedTotal
    ensures { result ≡ total_of all.now }
{
    let mut total = AlignedTotal {
        sent: 0,
        came: 0,
        lost: 0,
        extra: 0,
        whole: true,
    };
    for hart in 0..all.len() {
        total = total_with(total, &all[hart]);
    }
    total
}
