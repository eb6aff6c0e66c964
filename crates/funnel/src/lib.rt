//! The funnel between the harts and the one decoder: a queue of bounded length that all harts share.
//!
//! [`Core`] is that queue in one thread: [`Core::offer`] puts a hart's message at its back, [`Core::take`] takes the
//! front one. A list of [`Turn`]s says in which order harts send and messages are taken, and [`read_schedule`] reads it
//! from a text. The contract of [`every_state_is_lawful`] says what holds of each hart's messages, in whatever order
//! harts send and messages are taken.
//!
//! [`open`] makes a channel with a [`Port`] for each hart, which sends, and an [`Outlet`], which takes; each may be in
//! a thread of its own. A finished port leaves a [`Receipt`], which the outlet settles.
#![tactic(auto)]

mod fault;
mod laws;
mod limits;
mod low_water;
mod opening;
mod outlet;
mod port;
mod queue;
mod reading;
mod receipt;
mod rule;
mod schedule_fault;
mod turn;
mod word;

pub use fault::{Ended, OpenFault, SendFault};
pub use laws::{every_state_is_lawful, live_channel_is_the_machine};
pub use limits::{MOST_PORTS, opening_fault};
pub use opening::open;
pub use outlet::Outlet;
pub use port::Port;
pub use queue::Core;
pub use reading::read_schedule;
pub use receipt::{Receipt, Settled};
pub use schedule_fault::ScheduleFault;
pub use turn::Turn;
