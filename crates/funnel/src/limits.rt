//! How many harts a funnel serves, how many messages it holds, and how many a hart sends.

ghost use Rattle.std.specs.Prelude.{◌≡◌};
ghost use Rattle.funnel.specs.Limits.{limit_fault};

use crate::fault::OpenFault;
use message::MOST_CAPACITY;

/// The most ports of a channel.
pub const MOST_PORTS: u16 = 64;

/// The most messages that a hart sends.
pub(crate) const MOST_MESSAGES: u64 = 1 << 32;

/// Why a funnel with this many harts and this capacity is refused, where up to `most` harts are allowed: the first
/// fault of these numbers, or `None` where there is none. No memory is taken.
pub fn opening_fault(most: u16, harts: usize, capacity: u32) -> Option<OpenFault>
    ensures { result ≡ limit_fault most harts capacity }
{
    if harts == 0 {
        return Some(OpenFault::NoHarts);
    }
    if harts > usize::from(most) {
        return Some(OpenFault::TooManyHarts);
    }
    if capacity == 0 || capacity > MOST_CAPACITY {
        return Some(OpenFault::Capacity);
    }
    None
}
