//! What only a subcommand that reads logs stops at.

ghost use Rattle.std.specs.Prelude.{◌≡◌, Some, refl};
ghost use Rattle.log_commands.specs.FaultText.{log_reason_text, stray_text};
ghost use Rattle.log_commands.specs.Faults.{log_reason_status, schedule_fault, unsent_fault};

use bench::Setup;
use command_inputs::{Reason, Status};
use funnel::ScheduleFault;
use std::fmt;
use std::fmt::Display;

/// Why a subcommand that reads logs stops.
pub type Fault<'a> = command_inputs::Fault<'a, LogReason>;

/// An option of `generate` that is given and does not go with what is made.
#[derive(Clone, Copy)]
pub enum Stray {
    /// `--hart`, which goes with a log.
    Hart,
    /// `--events`, which goes with a log.
    Events,
    /// `--harts`, which goes with a capture, as the others do.
    Harts,
    /// `--messages`.
    Messages,
    /// `--period`.
    Period,
    /// `--full`.
    Full,
    /// `--v1`.
    VersionOne,
    /// `--burst`.
    Burst,
}

/// What only a subcommand that reads or makes logs stops at.
#[derive(Clone, Copy)]
pub enum LogReason {
    /// The text of the schedule is no schedule.
    Schedule(ScheduleFault),
    /// The schedule has more than 134,217,728 bytes.
    LargeSchedule,
    /// Nothing is sent through the funnel. A command line that `cli` reads leads to no such fault.
    Unsent(Setup),
    /// A first hart is given, and no count of all harts.
    FirstAlone,
    /// More harts are counted than this many, the most that a capture of the version has.
    ManyHarts(u16),
    /// The first log is of a hart that is not below this many, the count of all harts.
    FirstHart(u16),
    /// The argument is the name of nothing that is made.
    Product,
    /// The argument is the name of no mix.
    Mix,
    /// An option is given that does not go with what is made.
    Stray(Stray),
}

/// What is said of an option that does not go with what is made.
fn stray_text(option: Stray) -> &'static str
    ensures { result.now ≡ stray_text option }
{
    match option {
        Stray::Hart => "--hart goes with log alone",
        Stray::Events => "--events goes with log alone",
        Stray::Harts => "--harts goes with capture alone",
        Stray::Messages => "--messages goes with capture alone",
        Stray::Period => "--period goes with capture alone",
        Stray::Full => "--full goes with capture alone",
        Stray::VersionOne => "--v1 goes with capture alone",
        Stray::Burst => "--burst goes with capture alone",
    }
}

impl fmt::Display for LogReason {
    ghost output = { λ why. Some (log_reason_text why) };

    fn fmt<W: fmt::Write>(&self, f: &mut fmt::Formatter<W>) -> fmt::Result {
        match self {
            LogReason::Schedule(why) => write!(f, "schedule: {why}"),
            LogReason::LargeSchedule => f.write_str("schedule: larger than 134217728 bytes"),
            LogReason::Unsent(why) => why.fmt(f),
            LogReason::FirstAlone => f.write_str("--first needs --of"),
            LogReason::ManyHarts(most) => write!(f, "more than {most} harts"),
            LogReason::FirstHart(harts) => write!(f, "first hart is not below {harts}"),
            LogReason::Product => f.write_str("what is made is not one of image, log, capture"),
            LogReason::Mix => f.write_str(
                "mix is not one of mixed, branches, jumps, traps, longest, straight",
            ),
            LogReason::Stray(option) => f.write_str(stray_text(*option)),
        }
    }
}

impl Reason for LogReason {
    ghost text = { log_reason_text };

    ghost status = { log_reason_status };

    fn status(&self) -> Status {
        Status::Refused
    }

    ghost shown = { λ why. refl };
}

/// Why a text is no schedule.
pub(crate) fn of_schedule<'a>(why: ScheduleFault) -> Fault<'a>
    ensures { result ≡ schedule_fault why }
{
    match why {
        ScheduleFault::Memory => Fault::Memory,
        _ => Fault::Own(LogReason::Schedule(why)),
    }
}

/// Why nothing is sent.
pub(crate) fn of_setup<'a>(why: Setup) -> Fault<'a>
    ensures { result ≡ unsent_fault why }
{
    match why {
        Setup::Memory => Fault::Memory,
        _ => Fault::Own(LogReason::Unsent(why)),
    }
}
