//! A symbol, by the place of its name.

/// Where the name of a symbol is in the bytes of its file.
#[derive(Clone, Copy)]
pub(crate) struct Entry {
    /// The symbol's address.
    pub(crate) address: u64,
    /// The place of the name's first byte.
    pub(crate) start: usize,
    /// The number of the name's bytes.
    pub(crate) length: usize,
}
