//! The library for C: each call of [`ffi`] is exported with its contract.
//!
//! A static library exports what stands in it, and nothing of the libraries below, so each call is a function here too.
//! `include/tracebench.h` declares the calls as C sees them, and says what a caller owes.
#![tactic(auto)]

pub mod checking;
pub mod decoding;
pub mod encoding;
pub mod generating;
pub mod messages;
pub mod paths;
pub mod reports;
