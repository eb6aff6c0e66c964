//! What is listed, and how.

use crate::form::Form;
use message::HartRange;
use rvclass::ProgramOver;
use std::alloc::{Allocator, Global};
use symbols::Symbols;

/// A capture, the program that its harts ran, and which of its messages are listed in which form.
#[derive(Drop)]
pub struct ListInput<'a, S: Allocator = Global> {
    /// The program.
    pub program: &'a ProgramOver<'a>,
    /// How many harts there are, where the capture has no header that counts them.
    pub harts: u16,
    /// The harts whose messages are listed. Those of all others are passed over.
    pub only: HartRange,
    /// The bytes of the capture.
    pub capture: &'a [u8],
    /// What places are named by, if that is given.
    pub symbols: Option<&'a Symbols<S>>,
    /// The form of the listing.
    pub form: Form,
}
