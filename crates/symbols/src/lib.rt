//! The names of a program's places, by the symbols of a file that has them in lines as `nm` prints them.
#![tactic(auto)]

mod entry;
mod fault;
mod line;
mod named;
mod reading;
mod search;
mod symbols;
mod writing;

pub use fault::SymbolsFault;
pub use named::Named;
pub use symbols::{MOST_BYTES, Symbols};
pub use writing::{write_name, write_symbol};
