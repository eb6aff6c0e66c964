//! How far files are read and messages are worked through, on a terminal.

use log_streams::Files;
use message::ProgressSink;

/// Begins to show how far the files at these paths are read, where that is asked for.
pub fn begin_progress<F: Files>(files: &F, is_asked: bool, paths: &[&str]) {
    if is_asked {
        files.begin_progress(paths);
    }
}

/// How far the messages of a capture are worked through. Files may show it, where that is asked for.
#[derive(Drop)]
pub struct MessageProgress<'a, F> {
    files: &'a F,
    is_asked: bool,
}

impl<'a, F: Files> MessageProgress<'a, F> {
    /// These files may show it, where that is asked for.
    pub fn new(files: &'a F, is_asked: bool) -> MessageProgress<'a, F> {
        MessageProgress { files, is_asked }
    }

    /// Whether it is asked for. Only then need the messages be counted for [`begin`](MessageProgress::begin).
    pub fn is_asked(&self) -> bool {
        self.is_asked
    }

    /// Begins to show it, of so many messages, where that is asked for.
    pub fn begin(&self, total: u64) {
        if self.is_asked {
            self.files.begin_messages(total);
        }
    }

    /// Ends what [`begin`](MessageProgress::begin) began, and takes away what was shown.
    pub fn end(&self) {
        if self.is_asked {
            self.files.end_progress();
        }
    }
}

impl<F: Files> ProgressSink for MessageProgress<'_, F> {
    fn note(&self, messages: usize) {
        if self.is_asked {
            self.files.note_messages(messages as u64);
        }
    }
}
