//! Messages where an allocation, a read or a write fails.

mod allocations;
mod devices;
