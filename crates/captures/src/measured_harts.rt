//! The sources of harts' measures.

ghost use Rattle.std.specs.Prelude.{◌≡◌, ◌≤◌, ◌<◌, All, List, Some, length, slice_get};
ghost use Rattle.captures.specs.Bounds.{AreWithin, most_counted};
ghost use Rattle.captures.specs.Measures.{measures_of_each};
ghost use Rattle.captures.specs.declared.measures.Measures.{Measures as AnyMeasures};
ghost use Rattle.captures.specs.steps.LogsAt.{LogsAt};

use crate::log_measures::measure_log;
use crate::measures::Measures;
use legalpath::LegalLog;
use payload::Mode;
use std::alloc::{Allocator, Global};
use std::marker::Model;

/// Harts that are measured, one after another.
pub(crate) trait Harts {
    /// The measures of each.
    ghost each: { Self → List AnyMeasures };

    /// How many harts there are.
    fn count(&self) -> usize
        ensures { result ≡ length (each self.now) };

    /// The measures of the hart of this number.
    fn measures(&self, hart: usize) -> Measures
        requires { hart < length (each self.now) }
        ensures value { slice_get (each self.now) hart ≡ Some result }
        ensures few { AreWithin most_counted result };
}

/// Harts whose measures are given.
#[derive(Drop)]
pub(crate) struct Measured<'a> {
    pub(crate) each: &'a [Measures],
}

impl<'a> Model for Measured<'a> {
    ghost Value = { List AnyMeasures };

    ghost view = { λ harts. harts.each.now };

    ghost invariant = { λ harts. All (AreWithin most_counted) harts.each.now };
}

impl<'a> Harts for Measured<'a> {
    ghost each = { λ harts. harts };

    fn count(&self) -> usize {
        self.each.len()
    }

    fn measures(&self, hart: usize) -> Measures {
        let each = self.each;
        each[hart]
    }
}

/// Harts whose logs are measured, each when its measures are asked for.
#[derive(Drop)]
pub(crate) struct Logged<'l, 'p, A: Allocator = Global> {
    pub(crate) logs: &'l [LegalLog<'p, A>],
    pub(crate) period: u16,
    pub(crate) mode: Mode,
}

impl<'l, 'p, A: Allocator> Model for Logged<'l, 'p, A> {
    ghost Value = { LogsAt };

    ghost view = { λ harts. record { logs = harts.logs.now; period = harts.period; mode = harts.mode } };

    ghost invariant = { λ harts. 1 ≤ harts.period };
}

impl<'l, 'p, A: Allocator> Harts for Logged<'l, 'p, A> {
    ghost each = { λ harts. measures_of_each harts.period harts.mode harts.logs };

    fn count(&self) -> usize {
        self.logs.len()
    }

    fn measures(&self, hart: usize) -> Measures {
        let logs = self.logs;
        measure_log(&logs[hart], self.period, self.mode)
    }
}
