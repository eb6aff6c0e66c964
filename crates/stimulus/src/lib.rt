//! Stimulus: programs, logs and captures that a number gives, for a path whose owner has no core.
//!
//! [`image_of`] returns the image of a program that a seed draws for a [`Mix`]. A [`Hart`] runs any program, draws what
//! the program leaves open, and gives its events one at a time, at most 4,294,967,295; whatever is drawn, they are a legal
//! log. A [`Walk`] gives the same events without an end, and its [`WalkState`] is what it keeps from one event to the next.
//! [`write_log`] writes such a log, and [`write_capture`] the messages of many harts, mixed as a path sees them. A
//! [`Mixing`] mixes messages that are there already in the same way. The draws are those of `docs/FORMATS.md`, so the same
//! numbers give the same bytes. No list grows with the run.
#![tactic(auto)]

mod capturing;
mod hart;
mod image;
mod logging;
mod mix;
mod mixing;
mod order;
mod sender;
mod walk;
mod words;

pub use capturing::{Capture, write_capture};
pub use hart::Hart;
pub use image::{IMAGE_SIZE, image_of};
pub use logging::{Log, write_log};
pub use mix::Mix;
pub use mixing::Mixing;
pub use walk::{Walk, WalkState};
