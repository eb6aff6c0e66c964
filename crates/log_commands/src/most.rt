//! How many rows a log may have.

ghost use Rattle.std.specs.Prelude.{◌≡◌};
ghost use Rattle.log_commands.specs.Most.{most_of};

use retire::{MOST_LONG_ROWS, MOST_ROWS};

/// The most rows of a log: of long ones, if these are asked for, or else of others.
pub(crate) fn most_of(long: bool) -> u32
    ensures { result ≡ most_of long }
{
    if long { MOST_LONG_ROWS } else { MOST_ROWS }
}
