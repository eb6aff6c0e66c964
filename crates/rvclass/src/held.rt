//! Bytes that are owned or borrowed.

ghost use Rattle.std.specs.Prelude.{◌≡◌};
ghost use Rattle.rvclass.specs.steps.HeldBytes.{held_bytes};

/// The bytes of a piece: owned, or borrowed for `'b`.
#[derive(Drop)]
pub(crate) enum Held<'b> {
    /// They are owned.
    Owned(Vec<u8>),
    /// They are borrowed.
    Borrowed(&'b [u8]),
}

impl<'b> Held<'b> {
    /// The bytes.
    #[inline(always)]
    pub(crate) fn bytes(&self) -> &[u8]
        ensures { result.now ≡ held_bytes self.now }
    {
        match self {
            Held::Owned(bytes) => bytes,
            Held::Borrowed(bytes) => bytes,
        }
    }
}
