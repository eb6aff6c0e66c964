//! What a run had to give, and what it gave.

use cases::Case;
use std::alloc::Global;

/// A status, what is printed and what is reported.
pub(crate) type Outcome<'a> = (u64, &'a [u8], &'a [u8]);

/// The first thing of a run that is not as it has to be: what was wanted, and what came. Both are empty where all is.
#[derive(Drop)]
pub(crate) struct Verdict {
    pub(crate) wanted: Case,
    pub(crate) came: Case,
}

/// Appends bytes: a text as it is displayed for debugging, others in hexadecimal.
fn put_bytes(text: &Case, bytes: &[u8]) {
    match str::from_utf8(bytes) {
        Ok(utf8) => text.put_debug(utf8),
        Err(_) => text.put_digits(bytes),
    }
}

/// Appends an outcome.
fn put_outcome(text: &Case, outcome: Outcome<'_>) {
    let (status, written, reported) = outcome;
    text.put_filled("status #, printed ", &[status]);
    put_bytes(text, written);
    text.put(", reported ");
    put_bytes(text, reported);
}

impl Verdict {
    /// All is as it has to be.
    pub(crate) fn new(alloc: Global) -> Verdict {
        Verdict {
            wanted: Case::new(alloc, ""),
            came: Case::new(alloc, ""),
        }
    }

    /// A run that an output ended at one of its calls, or at none where that is 0, has to end so.
    pub(crate) fn ends(&mut self, call: usize, wanted: Outcome<'_>, came: Outcome<'_>) {
        if wanted == came || !self.wanted.has_nothing() {
            return;
        }
        put_outcome(&self.wanted, wanted);
        if call > 0 {
            let call = [call as u64];
            self.came
                .put_filled("at call # of the output that fails ", &call);
        }
        put_outcome(&self.came, came);
    }

    /// A count of something has to be at least and at most so large.
    pub(crate) fn counts(&mut self, what: &str, (least, most): (u64, u64), came: u64) {
        if (least <= came && came <= most) || !self.wanted.has_nothing() {
            return;
        }
        self.wanted.put_filled("# to # ", &[least, most]);
        self.wanted.put(what);
        self.came.put_shown(came);
    }
}
