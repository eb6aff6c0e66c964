//! Which log is legal, and the first illegal row of one that is not.

ghost use Rattle.std.specs.Prelude.{◌≡◌, ◌↔◌, ◌+◌, ◌-◌, ◌≤◌, ◌^◌, All, length, IfOk, IsOk, IfErr, OnOk};
ghost use Rattle.retire.specs.Is64Bit.{Is64Bit};
ghost use Rattle.retire.specs.Log.{most_rows};
ghost use Rattle.rvclass.specs.Fetch.{words_of};
ghost use Rattle.legalpath.specs.FirstFault.{IsFirstFault};
ghost use Rattle.legalpath.specs.steps.Judging as judging;
ghost use Rattle.legalpath.specs.Legal.{Legal};

use crate::fault::PathFault;
use crate::judging::{Left, judge, left_at_start};
use retire::Event;
use rvclass::ProgramOver;

/// Checks that a log is legal for a program: each event is right by itself, and each may follow the
/// one before. Any event that is right by itself may be the first.
///
/// The error names the first illegal row, and of the reasons that apply to it the first in the order
/// of [`Why`](crate::Why).
pub fn check(program: &ProgramOver, log: &[Event]) -> Result<(), PathFault>
    requires { length log.now ≤ most_rows }
    ensures legal { IsOk result ↔ Legal (words_of program.now) log.now }
    ensures first { IfErr result (λ fault. IsFirstFault (words_of program.now) log.now fault) }
    ensures numbers { OnOk result (All Is64Bit log.now) }
{
    match judge_all(program, left_at_start(), 0, log) {
        Ok(_) => Ok(()),
        Err(fault) => Err(fault),
    }
}

/// Checks events one after the other, up to the first fault. `left` is what the event before the first of them allows,
/// and `rows` how many rows come before theirs. Returns what the last event allows to follow it.
#[inline(never)]
pub(crate) fn judge_all(
    program: &ProgramOver,
    left: Left,
    rows: u32,
    log: &[Event],
) -> Result<Left, PathFault>
    requires few { rows + length log.now ≤ 2 ^ 32 - 1 }
    requires below { left.greatest ≤ 3 }
    ensures value { result ≡ judging.judge_all (words_of program.now) left (rows + 1) log.now }
    ensures below { IfOk result (λ next. next.greatest ≤ 3) }
    ensures numbers { OnOk result (All Is64Bit log.now) }
{
    let mut now = left;
    for (i, event) in log.iter().enumerate() {
        match judge(program, now, event) {
            Ok(next) => now = next,
            Err(why) => {
                return Err(PathFault {
                    row: rows + i as u32 + 1,
                    why,
                });
            }
        }
    }
    Ok(now)
}
