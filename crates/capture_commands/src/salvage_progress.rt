//! Showing how far salvaging is.

use command_inputs::{Files, MessageProgress};
use message::ProgressSink;
use salvage_reports::WatchSalvage;

/// Shows how far the messages of a capture's frames are salvaged, where that is asked for, as the first of so many
/// rounds over them. That is ended where there is no other round, or this one failed.
#[derive(Drop)]
pub(crate) struct SalvageProgress<'a, 'f, F> {
    pub(crate) progress: &'a MessageProgress<'f, F>,
    pub(crate) rounds: u64,
}

impl<F: Files> ProgressSink for SalvageProgress<'_, '_, F> {
    fn note(&self, messages: usize) {
        self.progress.note(messages);
    }
}

impl<F: Files> WatchSalvage for SalvageProgress<'_, '_, F> {
    fn begun(&self, messages: usize) {
        self.progress
            .begin((messages as u64).saturating_mul(self.rounds));
    }

    fn ended(&self, has_failed: bool) {
        if self.rounds < 2 || has_failed {
            self.progress.end();
        }
    }
}
