//! Showing how far the first pass over a capture's messages is.

use command_inputs::{Files, MessageProgress};
use message::ProgressSink;
use parallel_decode::WatchSurvey;

/// Shows how far the first pass over a capture's messages is, where that is asked for, and ends that with the pass.
#[derive(Drop)]
pub(crate) struct SurveyProgress<'a, 'f, F> {
    pub(crate) progress: &'a MessageProgress<'f, F>,
}

impl<F: Files> ProgressSink for SurveyProgress<'_, '_, F> {
    fn note(&self, messages: usize) {
        self.progress.note(messages);
    }
}

impl<F: Files> WatchSurvey for SurveyProgress<'_, '_, F> {
    fn surveyed(&self) {
        self.progress.end();
    }
}
