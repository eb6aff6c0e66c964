//! Why nothing is sent at all.

ghost use Rattle.std.specs.Prelude.{Some};
ghost use Rattle.bench.specs.SetupText.{setup_text};

use std::error::Error;
use std::fmt;

/// Why nothing is sent at all. Where several apply, the first of them is returned.
#[derive(Clone, Copy, Debug, PartialEq, Eq)]
pub enum Setup {
    /// There is no log.
    NoHarts,
    /// There are more logs than the funnel serves harts.
    TooManyHarts,
    /// The capacity is not 1 to 65,536 messages.
    Capacity,
    /// The period is 0.
    Period,
    /// Memory that is for no single hart was refused.
    Memory,
}

impl fmt::Display for Setup {
    ghost output = { λ setup. Some (setup_text setup) };

    fn fmt<W: fmt::Write>(&self, f: &mut fmt::Formatter<W>) -> fmt::Result {
        f.write_str(match *self {
            Setup::NoHarts => "no harts",
            Setup::TooManyHarts => "too many harts",
            Setup::Capacity => "capacity is not 1 to 65536",
            Setup::Period => "period is 0",
            Setup::Memory => "out of memory",
        })
    }
}

impl Error for Setup {}
