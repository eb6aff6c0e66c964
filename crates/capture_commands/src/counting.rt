//! How many messages there are to work through.

use command_inputs::{Files, MessageProgress};
use frames::{Span, spans_of, start_of};
use message::Messages;

/// Begins to show how far the messages of a capture are worked through, where that is asked for.
pub(crate) fn begin_messages<F: Files>(progress: &MessageProgress<'_, F>, capture: &[u8]) {
    if progress.is_asked() {
        progress.begin(messages_in(capture));
    }
}

/// How many messages a capture has before the first place where there is no complete message. There are none where its
/// header is cut short or bad.
pub(crate) fn messages_in(capture: &[u8]) -> u64 {
    let mut messages = Messages::new(capture);
    if messages.header().is_err() {
        return 0;
    }
    // A message has a byte at least.
    let most = capture.len() as u64;
    for count in 0..most {
        match messages.next() {
            Ok(Some(_)) => {}
            _ => return count,
        }
    }
    most
}

/// How many messages are found among the bytes of a capture that may be damaged.
pub(crate) fn frames_in(capture: &[u8]) -> u64 {
    let mut count = 0u64;
    for span in spans_of(capture, start_of(capture).header) {
        if matches!(span, Span::Frame { .. }) {
            count = count.saturating_add(1);
        }
    }
    count
}
