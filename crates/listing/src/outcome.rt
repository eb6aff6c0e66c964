//! What is found in a capture that is listed.

use captures::CaptureFault;
use std::alloc::{Allocator, Global};

/// What was found in a capture that was listed.
#[derive(Drop)]
pub struct Listed<A: Allocator = Global> {
    /// Whether the closing packet of each hart was decoded.
    pub closed: Vec<bool, A>,
    /// Where decoding stopped before the end: at which message, counted from 0 over all harts, and why. At a header
    /// that is cut short or bad the number is 0.
    pub fault: Option<(u64, CaptureFault)>,
}
