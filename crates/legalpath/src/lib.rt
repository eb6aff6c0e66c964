//! Which logs are legal: the events of a log against the program that ran, row by row. What may
//! retire, and where control goes on, is as the RISC-V Unprivileged ISA and the Privileged
//! Architecture say; the types of retirements are the E-Trace specification's. No call takes memory.
#![tactic(auto)]

mod checking;
mod fault;
mod judging;
mod laws;
mod legal_log;
mod next;
mod path_check;

pub use checking::check;
pub use fault::{PathFault, Why};
pub use judging::{greatest_after, may_retire_at, may_stand_at};
pub use laws::{logs_split_and_join, reasons_name_illegal_rows, retirements_lead_to_one_place};
pub use legal_log::LegalLog;
pub use next::{Next, leads, successor};
pub use path_check::PathCheck;
