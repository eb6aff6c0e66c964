//! The funnel between harts and decoder, replays by a schedule and runs over threads through it, and their report; a
//! capture that is compared with logs.

pub use bench::{
    CollectFault, Collector, ComparedHart, Config, Gate, HartOutcome, Open, Outcome, Setup, Stop,
    Verdict, compare, is_whole, replay, report, run, run_in_rooms, run_on, write_report,
};
pub use comparing::{
    Comparing, ExplainedHart, Explaining, HartCount, NearRows, RowSource, SourceMessage,
    SourcedHart, SourcingFault, counts_of, sources_of, write_explained,
};
pub use funnel::{
    Core, Ended, MOST_PORTS, OpenFault, Outlet, Port, Receipt, ScheduleFault, SendFault, Settled,
    Turn, open, opening_fault, read_schedule,
};
pub use message::MOST_CAPACITY;
