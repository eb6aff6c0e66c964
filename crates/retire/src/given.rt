//! The bytes that a source gave, which only clauses read.

ghost use Rattle.std.specs.Prelude.{◌≡◌, ◌++◌, ℕ, List, []};
ghost use Rattle.std.specs.Borrow.{ftrue};

use std::marker::{Model, PhantomData};

/// The bytes that a source gave so far. They take no memory, and no code reads them.
///
/// A type that implements [`Source`](crate::Source) over calls of which nothing is known keeps one of these, and puts
/// into it what each call gave.
#[derive(Drop)]
pub struct Given {
    marker: PhantomData<u8>,
    pub ghost bytes: { List ℕ },
}

impl Model for Given {
    ghost also_owns = { λ _. ftrue };
}

impl Given {
    /// No bytes.
    pub fn new() -> Given
        ensures { result.bytes ≡ [] }
    {
        Given {
            marker: PhantomData,
        }
    }

    /// Appends bytes to those that were given.
    pub fn put(&mut self, _bytes: &[u8])
        ensures { self.new.bytes ≡ self.old.bytes ++ _bytes.now }
    {}
}
