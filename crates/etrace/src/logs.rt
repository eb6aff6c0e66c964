//! Programs, the logs of what harts retired of them, and which logs are legal.

pub use explaining::{explain, explain_row};
pub use isa::is_privilege;
pub use legalpath::{
    LegalLog, Next, PathCheck, PathFault, Why, check, greatest_after, leads, may_retire_at,
    may_stand_at, successor,
};
pub use retire::{
    Event, ITYPE_NOT_TAKEN, ITYPE_OTHER, ITYPE_TAKEN, ITYPE_TRAP_RETURN, ITYPE_UNINFERABLE,
    LOG_ROOM, LogFault, MOST_ROWS, WriteFault, number, read_log, read_log_from_slice, write_log,
    write_log_in,
};
pub use rvclass::{Class, Instruction, PieceFault, Program, ProgramFault, ProgramOver, Return};
