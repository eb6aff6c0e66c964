//! The file at a path.

/// The file at a path.
#[derive(Drop)]
pub(crate) struct FileAt<'w, F> {
    pub(crate) files: &'w F,
    pub(crate) path: &'w str,
}
