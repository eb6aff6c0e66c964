//! What was made, in the order of the logs.

ghost use Rattle.std.specs.Prelude.{◌≡◌, [], All, Err, IfErr, IfOk, None, length};
ghost use Rattle.log_streams.specs.steps.Places.{AreAllowedFrom, AreTaken};

use crate::entry::Entry;
use crate::stop::Stop;
use crate::worker::Worker;
use retire::LogFault;
use std::alloc::{AllocError, Global};

/// A list in which nothing is known of so many logs.
fn none_known<X: Drop>(
    alloc: Global,
    count: usize,
) -> Result<Vec<Option<Result<X, Stop>>>, AllocError>
    ensures count { IfOk result (λ all. length all.items ≡ count) }
    ensures none { IfOk result (λ all. All (λ one. one ≡ None) all.items) }
{
    let mut all = Vec::new(alloc);
    for _ in 0..count {
        all.push(None)?;
    }
    Ok(all)
}

/// What was made of each log, by its place. Nothing may be known of some.
pub(crate) fn by_place<X: Drop, W: Worker<X>>(
    alloc: Global,
    _worker: &W,
    count: usize,
    entries: Vec<Entry<X>>,
) -> Result<Vec<Option<Result<X, Stop>>>, AllocError>
    requires { All (λ entry. W.Allows _worker.now entry.place entry.made) entries.items }
    ensures count { IfOk result (λ all. length all.items ≡ count) }
    ensures allowed { IfOk result (λ all. AreAllowedFrom (W.Allows _worker.now) 0 all.items) }
{
    let mut all = match none_known(alloc, count) {
        Ok(all) => all,
        Err(why) => return Err(why),
    };
    for entry in entries {
        let Entry { place, made } = entry;
        if place < all.len() {
            all[place] = Some(made);
        }
    }
    Ok(all)
}

/// Moves what was made of the logs into a list that is empty at first, up to the first of which nothing was made.
pub(crate) fn take_made<X: Drop>(
    all: Vec<Option<Result<X, Stop>>>,
    made: &mut Vec<X>,
) -> Result<(), Stop>
    requires { made.old.items ≡ [] }
    ensures { AreTaken all.items made.new.items result }
{
    for one in all {
        match one {
            Some(Ok(thing)) => {
                if made.push(thing).is_err() {
                    return Err(Stop::Unread(LogFault::Memory));
                }
            }
            Some(Err(why)) => return Err(why),
            None => return Err(Stop::Unread(LogFault::Memory)),
        }
    }
    Ok(())
}
