//! Logs in files, read side by side, each a piece at a time, and checked as they are read.
//!
//! [`made_of_logs`] is handed the paths of logs and a [`LogTask`], which makes something of the events of each log. This
//! crate keeps no list of a log's events, and of its text one piece, or the longest record.
//!
//! [`Files`] is a place from which files are read as a whole, or opened as a [`FileReader`] and read some bytes at a
//! time.
#![tactic(auto)]

mod entry;
mod fault;
mod file_at;
mod files;
mod illegal_row;
mod in_order;
mod judging;
mod logs_fault;
mod made;
mod one_log;
mod places;
mod reader;
mod reading;
mod side_by_side_logs;
mod stop;
mod task;
mod watched;
mod work;
mod worker;

pub use fault::FileFault;
pub use files::Files;
pub use illegal_row::IllegalRow;
pub use logs_fault::LogsFault;
pub use made::MadeLogs;
pub use reader::FileReader;
pub use side_by_side_logs::made_of_logs;
pub use stop::Stop;
pub use task::LogTask;
