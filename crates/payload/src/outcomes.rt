//! The outcomes of branches.
ghost use Rattle.std.specs.Prelude.{◌≡◌, ◌^◌, ◌<◌, ◌≤◌, Bool, List, [], ◌∷◌, ◌++◌, ◌==◌, length, slice_get};
ghost use Rattle.payload.specs.Limits.{most_outcomes};
ghost use Rattle.payload.specs.Outcomes.{outcomes_in_map, map_width, map_of};
ghost use Rattle.payload.specs.OutcomesInverse.{length_outcomes, map_outcomes};

use std::marker::Model;

/// The most outcomes of branches that a packet reports: those of a full branch map.
pub const MOST_OUTCOMES: usize = 31;

/// Up to 31 outcomes of branches, the oldest first: true is taken.
#[derive(Clone, Copy, Debug, PartialEq, Eq)]
#[tactic(auto, using(crate::specs::OutcomesInverse::map_outcomes, crate::specs::OutcomesInverse::length_outcomes))]
pub struct Outcomes {
    map: u32,
    count: u32,
}

impl Model for Outcomes {
    ghost Value = { List Bool };

    ghost view = { λ o. outcomes_in_map o.count o.map };

    ghost inverse = { λ l. record { map = map_of l; count = length l } };

    ghost inverse_ok = { λ o h i. record {
      map = map_outcomes o.count o.map h.1 i;
      count = length_outcomes o.count o.map i;
    } };

    ghost invariant = { λ o. (o.count ≤ most_outcomes) × (o.map < 2 ^ o.count) };
}

impl Outcomes {
    /// No outcomes.
    pub fn new() -> Self
        ensures { result ≡ [] }
    {
        Outcomes { map: 0, count: 0 }
    }

    /// Adds the outcome of a younger branch.
    pub fn push(&mut self, taken: bool)
        requires { length self.old < most_outcomes }
        ensures { self.new ≡ self.old ++ taken ∷ [] }
    {
        self.map += u32::from(!taken) << self.count;
        self.count += 1;
    }

    /// How many outcomes there are, 0 to 31.
    pub fn len(&self) -> usize
        ensures value { result ≡ length self.now }
        ensures few { result ≤ most_outcomes }
    {
        self.count as usize
    }

    /// Whether there are none.
    pub fn is_empty(&self) -> bool
        ensures { result ≡ (length self.now == 0) }
    {
        self.count == 0
    }

    /// The outcome of the branch at a place, counted from 0 for the oldest; None where there is no such branch.
    pub fn get(&self, i: usize) -> Option<bool>
        ensures { result ≡ slice_get self.now i }
    {
        if i < self.count as usize {
            Some((self.map >> i) & 1 == 0)
        } else {
            None
        }
    }

    /// The outcomes in the `count` bits of a branch map, the oldest in the lowest bit: 0 is a taken branch. There are 0
    /// to 31, and the map has no bit above them.
    pub fn of_map(count: u32, map: u32) -> Self
        requires few { count ≤ most_outcomes }
        requires below { map < 2 ^ count }
        ensures { result ≡ outcomes_in_map count map }
    {
        Outcomes { map, count }
    }

    /// The branch map: the oldest outcome in the lowest bit, 0 for a taken branch. It has as many bits as there are
    /// outcomes.
    pub fn map(&self) -> u32
        ensures value { result ≡ map_of self.now }
        ensures below { result < 2 ^ length self.now }
    {
        self.map
    }
}

impl Default for Outcomes {
    fn default() -> Self
        ensures { result ≡ [] }
    {
        Outcomes::new()
    }
}

/// How many bits the branch map of this count of outcomes has.
pub(crate) fn map_width(count: usize) -> u32
    requires { count ≤ most_outcomes }
    ensures value { result ≡ map_width count }
    ensures some { 1 ≤ result }
    ensures few { result ≤ most_outcomes }
    ensures room { count ≤ result }
{
    match count {
        0..2 => 1,
        2..4 => 3,
        4..8 => 7,
        8..16 => 15,
        _ => 31,
    }
}
