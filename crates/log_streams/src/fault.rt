//! Why a file gives no bytes.

use thiserror::Error;

/// Why a file gives no bytes.
#[derive(Clone, Copy, Debug, Error)]
pub enum FileFault {
    /// There is no such file, or it was not read to its end.
    #[error("cannot be read")]
    CannotRead,
    /// An allocation failed.
    #[error("out of memory")]
    Memory,
}
