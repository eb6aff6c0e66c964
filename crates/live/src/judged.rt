//! What becomes of a message that is looked up.

use auditing::Finding;

/// What becomes of a message of RECEIVED that is looked up.
#[derive(Clone, Copy)]
pub enum Judged {
    /// SENT's message with its hart and number is given up: the message is below the view.
    TooLate,
    /// It is beyond the view: nothing is known of it yet.
    Undecided,
    /// It is in view.
    Found {
        /// What is found of it.
        finding: Finding,
        /// How many messages the front goes on by: those after it up to this one; 0 if this one is not after it, is changed
        /// or is a repeat.
        ahead: usize,
    },
}
