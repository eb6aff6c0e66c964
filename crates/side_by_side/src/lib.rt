//! Work on several jobs side by side, over the processors that there are.
//!
//! [`results`] returns the result of each job, in order, as one thread would that does one job after the other. It may
//! start a thread for each job, so it is called with at most as many as [`part_count`] returns: some for each of the
//! [`processors`], where work can be cut anywhere, or else one.
//! [`drop_side_by_side`] drops several values that take much memory.
#![tactic(auto)]

mod dropping;
mod task;

pub use dropping::{LARGE, drop_side_by_side};
pub use task::{Task, part_count, processors, results};
