//! How many requests came, and which one is refused or held back.

use crate::hold::Hold;
use std::cell::Cell;

/// Counts requests, one of which is refused or held back.
#[derive(Drop)]
pub(crate) struct Count {
    /// The number of that request; the first one has number 0.
    pub(crate) place: u64,
    /// How many requests came.
    pub(crate) made: Cell<u64>,
    /// What holds it back; `None` where it is refused.
    pub(crate) hold: Option<Hold>,
}

impl Count {
    /// Counts a request, and returns whether it is refused. Where it is held back, it is so here.
    pub(crate) fn refuses(&self) -> bool {
        let number = self.made.get();
        self.made.set(number.saturating_add(1));
        if number != self.place {
            return false;
        }
        match &self.hold {
            Some(hold) => {
                hold.wait();
                false
            }
            None => true,
        }
    }
}
