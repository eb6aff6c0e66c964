//! The harts from one to another.

ghost use Rattle.std.specs.Prelude.{◌≡◌, Some};
ghost use Rattle.message.specs.Range.{has_below, selects};
ghost use Rattle.message.specs.Text.{range_text};

use std::fmt;

/// The harts from one to another, both among them. Its text is `A to B`, in decimal.
#[derive(Clone, Copy)]
pub struct HartRange {
    /// The first of them.
    pub first: u16,
    /// The last of them. Where it is below the first, there are none.
    pub last: u16,
}

impl HartRange {
    /// All harts that a message may be of.
    pub const ALL: HartRange = HartRange {
        first: 0,
        last: u16::MAX,
    };

    /// Whether a hart is one of them.
    pub fn selects(self, hart: u16) -> bool
        ensures { result ≡ selects self hart }
    {
        self.first <= hart && hart <= self.last
    }

    /// Whether one of them is below this count of harts.
    pub fn has_below(self, harts: u16) -> bool
        ensures { result ≡ has_below self harts }
    {
        self.first < harts && self.first <= self.last
    }
}

impl fmt::Display for HartRange {
    ghost output = { λ range. Some (range_text range) };

    fn fmt<W: fmt::Write>(&self, f: &mut fmt::Formatter<W>) -> fmt::Result {
        write!(f, "{} to {}", self.first, self.last)
    }
}
