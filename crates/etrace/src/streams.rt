//! Logs as streams: read, checked and handed on a piece at a time, so that no list holds all events of a log.

pub use log_streams::{
    FileFault, FileReader, Files, IllegalRow, LogTask, LogsFault, MadeLogs, Stop, made_of_logs,
};
pub use retire::{
    Given, LogReader, MOST_LONG_ROWS, PieceBuffer, ReaderSource, Source, SourceFault,
};
