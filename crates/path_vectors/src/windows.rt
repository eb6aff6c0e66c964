//! What a window of SENT finds of messages that come (`live`).

ghost use Rattle.std.specs.Prelude.{None, true};

use crate::audits::messages_in;
use crate::paths::by_of;
use cases::Case;
use live::{Judged, SentMessage, SentSource, SourceFault, Window, look};
use message::Message;
use std::collections::VecDeque;

/// The messages of SENT that are left.
#[derive(Drop)]
pub(crate) struct Listed {
    pub(crate) left: VecDeque<Message>,
}

impl SentSource for Listed {
    ghost left = { λ own. record { known = true; messages = own.left.items; ending = None } };

    fn next(&mut self) -> Result<Option<Message>, SourceFault> {
        match self.left.pop_front() {
            Some(message) => Ok(Some(message)),
            None => Ok(None),
        }
    }
}

/// Appends a message's hart and number, and what becomes of it.
fn put_line(case: &Case, message: &Message, text: &str) {
    case.put_shown(message.hart);
    case.put(".");
    case.put_shown(message.number);
    case.put(text);
}

/// The front goes on over so many messages. Appends those that are given up and did not come.
fn pass(case: &Case, window: &mut Window, count: usize) {
    for _ in 0..count {
        match window.pass() {
            Some(
                SentMessage {
                    message,
                    came: false,
                },
            ) => put_line(case, &message, " lost\n"),
            _ => {}
        }
    }
}

/// Looks up a message that came, and appends what becomes of it.
fn take(case: &Case, window: &mut Window, message: &Message) {
    match window.judge(message) {
        Judged::TooLate => put_line(case, message, " too late\n"),
        Judged::Undecided => put_line(case, message, " undecided\n"),
        Judged::Found { finding, ahead } => {
            if !finding.is_plain() {
                put_line(case, message, " ");
                case.put_debug(finding);
                case.put("\n");
            }
            pass(case, window, ahead);
        }
    }
}

/// What becomes of each message that came, by a window of those that were sent.
pub(crate) fn window(case: &Case) {
    let count = case.small("window", 0);
    let harts = case.small("harts", 2);
    let by = by_of(case);
    let window = Window::new(case.alloc, u32::from(count), harts, by);
    let Some(mut window) = case.granted(window) else {
        return;
    };
    let left = VecDeque::from_vec(messages_in(case, "sent"));
    let mut sent = Listed { left };
    for message in &messages_in(case, "came") {
        let looked = look(&mut window, &mut sent, message.hart, message.number);
        case.read(looked);
        take(case, &mut window, message);
    }
    case.put_filled("held #", &[window.held() as u64]);
}
