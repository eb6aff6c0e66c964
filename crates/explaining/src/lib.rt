//! Why a row of a log is illegal, in lines of text: what is at the row, or at the row before, and what may be there.
//! The facts are those that `legalpath` checks by. No call allocates.
//!
//! [`explain`] is handed the complete log, and [`explain_row`] the row and the row before alone.
#![tactic(auto)]

mod code;
mod elf_image;
mod following;
mod laws;
mod line;
mod ranges;
mod retirement;
mod standing;
mod trap;
mod writing;

pub use laws::texts_list_what_is_legal;
pub use writing::{explain, explain_row};
