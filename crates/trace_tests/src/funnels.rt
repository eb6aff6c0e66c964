//! Channels over threads, and allocations that fail. A channel in one thread is a case of `channel_vectors`.

mod allocations;
mod calling;
mod made;
mod room;
mod waking;
mod workers;
