//! What fields the lines of a text have.

/// What fields the lines of a text have. The first line decides.
#[derive(Clone, Copy)]
pub(crate) enum Form {
    /// A hart, a number and bytes.
    Numbered,
    /// A hart and bytes. The lines of each hart are numbered from 0 on.
    Counted,
}
