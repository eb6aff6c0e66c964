//! Stretches of harts' messages.

ghost use Rattle.std.specs.Prelude.{◌≡◌, ◌-◌, drop, take};
ghost use Rattle.parallel_decode.specs.steps.Stretches.{LiesIn};

use decoder::Decoder;
use rvclass::ProgramOver;

/// Messages of a hart, one after the other.
#[derive(Clone, Copy)]
pub(crate) struct Stretch {
    /// The hart, a place in the list of harts.
    pub(crate) hart: usize,
    /// Whether they are the hart's first messages.
    pub(crate) is_first: bool,
    /// The decoder that has the packets of the messages before them.
    pub(crate) decoder: Decoder,
    /// How many messages of the hart come before them.
    pub(crate) from: usize,
    /// How many messages of the hart come before their end.
    pub(crate) to: usize,
}

impl Stretch {
    /// Where its messages begin, by where those of each hart do.
    pub(crate) fn places<'p>(&self, places: &'p [Vec<usize>]) -> &'p [usize]
        requires { LiesIn places.now self.now }
        ensures { (lies : LiesIn places.now self.now)
            → result.now ≡ take (self.now.to - self.now.from) (drop self.now.from lies.own.items) }
    {
        let own = places[self.hart].as_slice();
        &own[self.from..self.to]
    }
}

/// What is decoded and written, stretch by stretch.
#[derive(Clone, Copy)]
pub(crate) struct Plan<'a> {
    pub(crate) program: &'a ProgramOver<'a>,
    /// The messages.
    pub(crate) bytes: &'a [u8],
    /// Where those of each hart begin.
    pub(crate) places: &'a [Vec<usize>],
    /// The stretches, in the order of their texts.
    pub(crate) stretches: &'a [Stretch],
}
