//! How many rows a log may have.

ghost use Rattle.std.specs.Prelude.{◌≡◌};
ghost use Rattle.retire.specs.Log.{too_many};

use crate::fault::LogFault;

/// The most rows of a log, where no more are asked for.
pub const MOST_ROWS: u32 = 16_777_216;

/// The most rows of a log that may be long.
pub const MOST_LONG_ROWS: u32 = 4_294_967_295;

/// The fault of a row past the limit.
pub(crate) fn too_many(most: u32) -> LogFault
    ensures { result ≡ too_many most }
{
    if most == MOST_ROWS {
        LogFault::TooLong
    } else {
        LogFault::LongerThan(most)
    }
}
