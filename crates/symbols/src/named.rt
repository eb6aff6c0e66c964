//! What a place is named.

/// What a place is named by a symbol.
#[derive(Clone, Copy)]
pub struct Named<'a> {
    /// The symbol's name, as in the file.
    pub name: &'a [u8],
    /// How many bytes the place is above the symbol's address.
    pub distance: u64,
}
