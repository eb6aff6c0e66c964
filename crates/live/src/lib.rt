//! What a path does while it runs: the live audit, which keeps no more of SENT than a window.
//!
//! An audit compares the messages that a path was given, SENT, with those that came out of it, RECEIVED. A live audit reads
//! both side by side, and each once. The front is the furthest message of SENT that came. What is looked at is in view: N
//! messages of SENT before the front and N after it, over all harts. A message that came is looked up there. What it is
//! found to be is an [`auditing::Finding`]; below the view it is too late, and beyond it undecided. A message of SENT that
//! leaves the view is given up, and lost if it did not come.
//!
//! [`LiveAudit`] is what is held of both. [`LiveAudit::take`] takes the messages of RECEIVED one after the other, each an
//! [`Arrived`], and [`LiveAudit::end`] ends the audit. They read SENT from a [`SentSource`], and hand each line to a
//! [`LiveLines`] as soon as it is decided. Payloads are compared by their bytes, or by the packets that they unpack to. A
//! [`LiveRows`] counts the lines by hart.
//!
//! Where RECEIVED is bytes, which may be damaged, a [`Received`] holds those that are looked at, as many as its size at most.
//! [`LiveAudit::next_received`] returns the next message that is taken, or the next run of bytes between messages, by what
//! is in view; SENT is read on for that.
//!
//! [`Window`] is what is held of SENT: at most 2N + 1 messages, in memory that [`Window::new`] takes once.
//! [`Window::judge`] looks a message of RECEIVED up, and takes it. As long as [`Window::wants`] says so, the next message of
//! SENT has to be read first, by [`Window::read`]; [`look`] does so from a source. [`Window::pass`] moves the front by one
//! message, and returns the one that is given up.
#![tactic(auto)]

mod arrived;
mod fault;
mod giving;
mod held;
mod judged;
mod laws;
mod lines;
mod live_audit;
mod looking;
mod numbers;
mod places;
mod received;
mod received_seen;
mod received_taking;
mod rows;
mod run;
mod slots;
mod source;
mod standing;
mod waiting;
mod window;

pub use arrived::Arrived;
pub use fault::{LookFault, ReadFault, ReceivedFault, SourceFault};
pub use held::SentMessage;
pub use judged::Judged;
pub use laws::{
    calls_hand_over_live_audits, calls_read_all_of_received, framed_messages_are_taken,
    live_audits_are_bounded, live_audits_find_the_same, live_rows_add_up,
    untrue_messages_leave_the_front, views_are_bounded, whole_live_is_whole,
};
pub use lines::LiveLines;
pub use live_audit::LiveAudit;
pub use looking::look;
pub use received::Received;
pub use rows::{LiveRow, LiveRows};
pub use source::SentSource;
pub use standing::Standing;
pub use window::{MOST_WINDOW, Window};
