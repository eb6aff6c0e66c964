//! Messages of SENT are given up, and the lines that are left are handed over.

ghost use Rattle.std.specs.Prelude.{◌≡◌, ◌^◌, ◌≤◌, length};
ghost use Rattle.live.specs.Auditing.{runs_in};
ghost use Rattle.live.specs.Live.{State, gives, gives_all};
ghost use Rattle.live.specs.Runs.{run_lines};
ghost use Rattle.live.specs.steps.Giving.{AreCounted, IsCounted, IsGiven, open_lines, waiting_lines, written_lines};

use crate::arrived::Arrived;
use crate::held::SentMessage;
use crate::lines::LiveLines;
use crate::run::Run;
use auditing::Finding;
use std::alloc::Allocator;
use std::collections::VecDeque;

/// Tells the line of the numbers of a run that lack one, if there are any.
fn tell_run<L: LiveLines>(run: Run, hart: u16, lines: &mut L)
    ensures { L.Told lines.old (run_lines hart run) lines.new }
{
    match run.lost() {
        Some(lost) => lines.missing(hart, lost),
        None => {}
    }
}

/// Tells the line of a run, if it is written.
fn tell_written<L: LiveLines>(run: Run, hart: u16, came: bool, lines: &mut L)
    ensures { L.Told lines.old (written_lines hart run came) lines.new }
{
    if run.is_written(came) {
        tell_run(run, hart, lines);
    }
}

/// A message of SENT is given up.
pub(crate) fn give<A: Allocator, L: LiveLines>(
    runs: &mut Vec<Run, A>,
    slot: &SentMessage,
    lines: &mut L,
)
    ensures given { (state : State) → runs_in runs.old.items ≡ state.runs → IsCounted (length runs.old.items) slot.now
        → IsGiven (λ told. L.Told lines.old told lines.new) (gives state slot.now) runs.new.items }
    ensures count { length runs.new.items ≡ length runs.old.items }
{
    lines.given_up(slot);
    let Some(own) = runs.get_mut(usize::from(slot.message.hart)) else {
        return;
    };
    let run = own.with(slot.message.number, slot.came);
    *own = run.left(slot.came);
    tell_written(run, slot.message.hart, slot.came, lines);
}

/// These messages of SENT are given up, one after the other.
pub(crate) fn give_all<A: Allocator, L: LiveLines>(
    slots: &VecDeque<SentMessage, A>,
    runs: &mut Vec<Run, A>,
    lines: &mut L,
)
    ensures given { (state : State) → runs_in runs.old.items ≡ state.runs → AreCounted (length runs.old.items) slots.now.items
        → IsGiven (λ told. L.Told lines.old told lines.new) (gives_all state slots.now.items) runs.new.items }
    ensures count { length runs.new.items ≡ length runs.old.items }
{
    for place in 0..slots.len() {
        if let Some(slot) = slots.get(place) {
            give(runs, slot, lines);
        }
    }
}

/// What waits is a stranger.
pub(crate) fn tell_waiting<L: LiveLines>(waiting: &[Option<Arrived>], lines: &mut L)
    ensures { L.Told lines.old (waiting_lines waiting.now) lines.new }
{
    for waiting in waiting.iter() {
        if let Some(one) = waiting {
            lines.decided(one, Finding::Stranger, None);
        }
    }
}

/// Tells the lines of the runs that go on. There are at most 65,536 harts.
pub(crate) fn tell_runs<L: LiveLines>(runs: &[Run], lines: &mut L)
    ensures { length runs.now ≤ 2 ^ 16 → L.Told lines.old (open_lines runs.now) lines.new }
{
    for (hart, run) in runs.iter().enumerate() {
        if let Ok(hart) = u16::try_from(hart) {
            tell_run(*run, hart, lines);
        }
    }
}
