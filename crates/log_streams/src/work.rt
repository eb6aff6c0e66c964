//! What a thread does.

ghost use Rattle.log_streams.specs.steps.Allowed.{AreEntries, MayBeMadeIn};

use crate::Files;
use crate::entry::Entry;
use crate::file_at::FileAt;
use crate::one_log::made_of_file;
use crate::places::Places;
use crate::task::LogTask;
use crate::worker::Worker;
use rvclass::ProgramOver;
use std::alloc::Global;
use std::sync::atomic::{AtomicUsize, Ordering};

/// What threads share that read logs side by side.
#[derive(Drop)]
pub(crate) struct Work<'w, 'a, F, T> {
    pub(crate) alloc: Global,
    pub(crate) files: &'w F,
    pub(crate) program: &'w ProgramOver<'w>,
    pub(crate) most: u32,
    pub(crate) task: &'w T,
    pub(crate) paths: &'w [&'a str],
    pub(crate) places: &'w Places,
    /// How many of the logs in regular files were taken.
    pub(crate) taken: &'w AtomicUsize,
    /// The least place of a log of which nothing is made. It is more than each place where there is none.
    pub(crate) end: &'w AtomicUsize,
}

impl<F: Files + Sync, X: Send + Drop, T: LogTask<X> + Sync> Worker<X> for Work<'_, '_, F, T>
where
    F::Reader: Send,
    T::State: Send,
{
    ghost Allows = { λ work place made.
        MayBeMadeIn T.Makes T.MakesOfIllegal T.MayRefuse F.content F.Gives work place made };

    fn work(&self, is_first: bool) -> Vec<Entry<X>> {
        let mut entries = Vec::new(self.alloc);
        if is_first {
            read_others(self, &mut entries);
        }
        read_regular(self, &mut entries);
        entries
    }
}

/// Reads the logs that are not in regular files, one after another, up to the first of which nothing is made.
fn read_others<F: Files, X: Drop, T: LogTask<X>>(
    work: &Work<'_, '_, F, T>,
    entries: &mut Vec<Entry<X>>,
)
    requires { AreEntries T.Makes T.MakesOfIllegal T.MayRefuse F.content F.Gives work.now entries.old.items }
    ensures { AreEntries T.Makes T.MakesOfIllegal T.MayRefuse F.content F.Gives work.now entries.new.items }
{
    for place in &work.places.others {
        if !read_log(work, *place, entries) {
            return;
        }
    }
}

/// Reads logs in regular files, each of which no other thread has taken.
fn read_regular<F: Files, X: Drop, T: LogTask<X>>(
    work: &Work<'_, '_, F, T>,
    entries: &mut Vec<Entry<X>>,
)
    requires { AreEntries T.Makes T.MakesOfIllegal T.MayRefuse F.content F.Gives work.now entries.old.items }
    ensures { AreEntries T.Makes T.MakesOfIllegal T.MayRefuse F.content F.Gives work.now entries.new.items }
{
    for _ in 0..work.places.regular.len() {
        let next = work.taken.fetch_add(1, Ordering::SeqCst);
        let Some(place) = work.places.regular.get(next) else {
            return;
        };
        if !read_log(work, *place, entries) {
            return;
        }
    }
}

/// Reads the log at a place, unless nothing is made of one before it, and returns whether something is made of it.
fn read_log<F: Files, X: Drop, T: LogTask<X>>(
    work: &Work<'_, '_, F, T>,
    place: usize,
    entries: &mut Vec<Entry<X>>,
) -> bool
    requires { AreEntries T.Makes T.MakesOfIllegal T.MayRefuse F.content F.Gives work.now entries.old.items }
    ensures { AreEntries T.Makes T.MakesOfIllegal T.MayRefuse F.content F.Gives work.now entries.new.items }
{
    if place > work.end.load(Ordering::SeqCst) || entries.reserve(1).is_err() {
        return false;
    }
    let Some(path) = work.paths.get(place) else {
        return false;
    };
    let at = FileAt {
        files: work.files,
        path,
    };
    let made = made_of_file(work.alloc, at, work.program, work.most, work.task, place);
    let is_made = made.is_ok();
    if !is_made {
        work.end.fetch_min(place, Ordering::SeqCst);
    }
    let _ = entries.push(Entry { place, made });
    is_made
}
