//! The allocator.

use crate::count::Count;
use crate::hold::Hold;
use std::alloc::{AllocError, Allocator};
use std::cell::Cell;
use std::sync::Arc;
use std::sync::atomic::AtomicU64;

/// An allocator that refuses one request for memory, or holds it back, and hands all others on to another allocator.
///
/// Collections hold a `&` to it. A list makes a request for its first capacity and at each growth. The contract is that
/// of any allocator. No contract says which request is refused or held back, since a cell holds the count.
#[derive(Drop)]
pub struct Refusing<B: Allocator> {
    inner: B,
    count: Count,
}

impl<B: Allocator> Refusing<B> {
    /// An allocator over another one. It refuses the request with this number; the first request has number 0.
    pub fn new(inner: B, refused: u64) -> Refusing<B> {
        Refusing {
            inner,
            count: Count {
                place: refused,
                made: Cell::new(0),
                hold: None,
            },
        }
    }

    /// An allocator over another one. It refuses no request, and holds the one with this number back until `count`, which
    /// other threads add to, is `wanted` or more, a second or more at most; then it lets other threads go on for a
    /// while, in which the count may pass what is wanted.
    pub fn holding(inner: B, held: u64, count: Arc<AtomicU64>, wanted: u64) -> Refusing<B> {
        Refusing {
            inner,
            count: Count {
                place: held,
                made: Cell::new(0),
                hold: Some(Hold {
                    count,
                    wanted,
                    seen: Cell::new(None),
                }),
            },
        }
    }

    /// How many requests came, the refused one among them.
    pub fn requests(&self) -> u64 {
        self.count.made.get()
    }

    /// Whether a request was refused.
    pub fn has_refused(&self) -> bool {
        self.count.hold.is_none() && self.count.made.get() > self.count.place
    }

    /// What the count was when the request that was held back was granted; `None` before.
    pub fn seen(&self) -> Option<u64> {
        match &self.count.hold {
            Some(hold) => hold.seen.get(),
            None => None,
        }
    }
}

unsafe impl<B: Allocator> Allocator for Refusing<B> {
    ghost dealloc_token = { λ heap ty ptr. B.dealloc_token heap.inner ty ptr };

    fn allocate(&self, size: usize, align: usize) -> Result<*mut u8, AllocError> {
        if self.count.refuses() {
            return Err(AllocError);
        }
        self.inner.allocate(size, align)
    }

    unsafe fn deallocate(&self, ptr: *mut u8, size: usize, align: usize) {
        self.inner.deallocate(ptr, size, align);
    }
}
