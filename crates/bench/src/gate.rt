//! What a caller does round each send.

use std::sync::Wait;

/// What a caller does round each send of a run, in the thread of the hart that sends. It may wait for another thread.
pub trait Gate: Sync {
    /// Comes before the hart tries to send the message of this number.
    fn before_send<R: Wait>(&self, rt: &R, hart: u16, number: u64);

    /// Comes after it sent that message.
    fn after_send<R: Wait>(&self, rt: &R, hart: u16, number: u64);
}

/// A gate that does nothing.
#[derive(Clone, Copy)]
pub struct Open;

impl Gate for Open {
    fn before_send<R: Wait>(&self, _rt: &R, _hart: u16, _number: u64) {}

    fn after_send<R: Wait>(&self, _rt: &R, _hart: u16, _number: u64) {}
}
