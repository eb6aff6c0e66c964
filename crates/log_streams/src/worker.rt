//! Threads that read logs side by side.

ghost use Rattle.std.specs.Prelude.{All, ℕ, Result};
ghost use Rattle.log_streams.specs.declared.stop.Stop.{Stop as AnyStop};

use crate::entry::Entry;
use std::thread::{Threads, join};

/// Reads some of the logs that threads share.
pub(crate) trait Worker<X> {
    /// This may be made of the log at this place, or nothing for this reason.
    ghost Allows: { Self → ℕ → Result X AnyStop → Type 0 };

    /// Reads logs until none is left. The first thread also reads those that are read one after another.
    fn work(&self, is_first: bool) -> Vec<Entry<X>>
        ensures { All (λ entry. Allows self.now entry.place entry.made) result.items };
}

/// What this many threads make, this one among them.
pub(crate) fn entries_of<R: Threads + Sync, X: Send + Drop, W: Worker<X> + Sync>(
    rt: &R,
    worker: &W,
    threads: usize,
) -> Vec<Entry<X>>
    ensures { All (λ entry. W.Allows worker.now entry.place entry.made) result.items }
{
    if threads < 2 {
        return worker.work(true);
    }
    let fewer = threads - 1;
    let (mut found, mut others) = join(
        rt,
        move || -> Vec<Entry<X>>
            ensures { All (λ entry. W.Allows worker.entry.now entry.place entry.made) result.items }
        { worker.work(false) },
        move || -> Vec<Entry<X>>
            ensures { All (λ entry. W.Allows worker.entry.now entry.place entry.made) result.items }
        { entries_of(rt, worker, fewer) },
    );
    let _ = others.append(&mut found);
    others
}
