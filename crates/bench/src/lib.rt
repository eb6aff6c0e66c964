//! The bench: it sends logs of harts through the funnel, decodes what arrives, and reports whether both are the same.
//!
//! [`Config`] says how harts send and what is kept; [`Outcome`] is what was decoded of each hart. [`replay`] sends logs
//! through the funnel in one thread, by a schedule; [`run`] and [`run_on`] send each log from a thread of its own, with
//! a [`Gate`] round each send. A [`Collector`] decodes the messages that are taken out of the funnel, and [`report`]
//! writes the outcome as text.
#![tactic(auto)]

mod collecting;
mod config;
mod gate;
mod gathering;
mod hart_line;
mod laws;
mod outcome;
mod plan;
mod replaying;
mod reporting;
mod running;
mod sender;
mod setup;
mod starting;
mod stop;
mod stopping;
mod verdict;
mod worker;

pub use collecting::{CollectFault, Collector};
pub use config::Config;
pub use funnel::Turn;
pub use gate::{Gate, Open};
pub use hart_line::ComparedHart;
pub use laws::turns_let_beginnings_through;
pub use outcome::{HartOutcome, Outcome};
pub use replaying::replay;
pub use reporting::{is_whole, report, write_report, write_result};
pub use running::{run, run_in_rooms, run_on};
pub use setup::Setup;
pub use stop::Stop;
pub use verdict::{Verdict, compare};
