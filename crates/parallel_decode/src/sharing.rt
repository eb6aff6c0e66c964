//! How threads share the decoding of a capture.

use side_by_side::processors;
use std::thread::Threads;

/// How threads share the decoding of a capture. It changes nothing about what is written.
#[derive(Clone, Copy)]
pub struct Sharing {
    /// How many threads decode at once. Where there are fewer than 2, the calling thread decodes all.
    pub threads: usize,
    /// For how many bytes of text a buffer has space. There are two buffers for each thread. The calling thread decodes a
    /// stretch whose text is longer.
    pub text: usize,
}

impl Sharing {
    /// As many threads as the machine has processors, and buffers for the rows of 131,072 retirements.
    pub fn of<R: Threads>(rt: &R) -> Sharing {
        Sharing {
            threads: processors(rt),
            text: 3 << 20,
        }
    }
}
