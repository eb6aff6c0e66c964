//! What is left of harts' logs where messages are lost, and what became of the messages that went through a path.

pub use auditing::{
    AlignedTotal, Alignment, Audit, Exchanged, Fate, Finding, HartCounts, HartRow, KnownPayloads,
    Line, Lost, LostRuns, RunLengths, SentFault, SentPayloads, Tally, aligned, aligned_harts,
    arrival_lines, counts_of, lines_by_hart, run_lengths, total_of,
};
pub use frames::{BorrowedMessage, BorrowedSpan, GuidedScan, Sent, Sight, is_framed};
pub use losses::{HartPieces, LossyFault, Part, collect_lossy, collect_watched};
pub use payload::{By, known, same};
