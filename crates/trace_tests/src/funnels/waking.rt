//! A port that waits while the funnel is full is called at the low-water mark.
//!
//! A port that no one calls looks for a free place again by itself, 10 ms later. So a payload that a sleeping port
//! sends sooner shows that the port was called. The rounds in which it does are counted. On a loaded machine a port
//! that is called may go on only after 10 ms in some rounds, and in a few it may find a free place before it ever
//! sleeps. A port that is never called sends sooner only in those few.

use super::calling::calls_all;
use super::made::SENT;

/// How many messages the funnel holds.
pub(crate) const CAPACITY: u32 = 8;

/// How many of them are taken down to the low-water mark.
const DEPTH: u64 = 4;

/// How many milliseconds a port that no one calls sleeps at least.
pub(crate) const LONGEST: u128 = 10;

/// How many rounds there are at most.
pub(crate) const ROUNDS: u64 = 500;

/// In how many of them the ports have to be called. No more rounds come then.
pub(crate) const ENOUGH: u64 = 10;

#[test]
fn a_port_is_called_at_the_mark(rt: HostRuntime) {
    calls_all(&rt, 1, DEPTH, SENT);
}
