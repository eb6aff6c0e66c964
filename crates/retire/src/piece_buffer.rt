//! The buffers of a piece of a log.

ghost use Rattle.std.specs.Prelude.{◌≡◌, ◌<◌, IfErr, vec_len};

use crate::fault::LogFault;
use std::alloc::Global;

/// How many bytes are read at once, and how many are held at least before rows are read of them.
const PIECE_BYTES: usize = 32_768;

/// The fewest bytes that are read at once.
const ROOM_BYTES: usize = 4_096;

/// The buffers of a piece, which can be allocated before it is known what is read.
#[derive(Drop)]
pub struct PieceBuffer {
    pub(crate) room: Vec<u8>,
    pub(crate) held: Vec<u8>,
    pub(crate) spare: Vec<u8>,
    pub(crate) size: usize,
    ghost some: { 0 < vec_len room },
}

impl PieceBuffer {
    /// Allocates the buffers of a piece of 32,768 bytes. [`LogFault::Memory`] means that allocation
    /// failed.
    pub fn new(global: Global) -> Result<PieceBuffer, LogFault>
        ensures { IfErr result (λ fault. fault ≡ LogFault.Memory) }
    {
        PieceBuffer::of_size(global, PIECE_BYTES)
    }

    /// Allocates the buffers of a piece of so many bytes: rows are read as soon as so many are held. A call of the source
    /// may give more, up to 4,096. [`LogFault::Memory`] means that allocation
    /// failed.
    pub fn of_size(global: Global, size: usize) -> Result<PieceBuffer, LogFault>
        ensures { IfErr result (λ fault. fault ≡ LogFault.Memory) }
    {
        let mut room = Vec::new(global);
        let Ok(held) = Vec::with_capacity(global, size.saturating_mul(2)) else {
            return Err(LogFault::Memory);
        };
        let Ok(spare) = Vec::with_capacity(global, size) else {
            return Err(LogFault::Memory);
        };
        if room.resize(size.max(ROOM_BYTES), 0).is_err() {
            return Err(LogFault::Memory);
        }
        Ok(PieceBuffer {
            room,
            held,
            spare,
            size,
        })
    }
}
