//! The subcommands of `tracebench` over logs: [`check`] checks them, [`encode`] writes their messages, [`measure`]
//! counts what these cost, [`replay`] and [`bench`] send them through the funnel and report what is received of them.
//! [`generate`] makes logs, their image and captures of them from a seed.
//!
//! Each but `generate` reads a base, an image with its further pieces, and logs, in this order. Each ends at the first
//! fault.
#![tactic(auto)]

mod benching;
mod checking;
mod counting;
mod encoding;
mod generating;
mod laws;
mod legal_logs;
mod made;
mod measures;
mod most;
mod parts;
mod reason;
mod replaying;
mod reporting;
mod rooms;

pub use benching::{bench, bench_logs};
pub use checking::check;
pub use encoding::encode;
pub use generating::generate;
pub use laws::{all_logs_are_one_part, mixed_messages_are_the_same, parts_are_joined};
pub use measures::measure;
pub use reason::{Fault, LogReason, Stray};
pub use replaying::replay;
