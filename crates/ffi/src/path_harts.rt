//! What is found of each hart of SENT.

ghost use Rattle.std.specs.Prelude.{◌≡◌, ◌<◌, ◌^◌, ◌++◌, IfOk, List, OnOk, length, map};
ghost use Rattle.auditing.specs.Audits.{Audits as IsAudit};
ghost use Rattle.auditing.specs.Known.{known_all};
ghost use Rattle.message.specs.declared.message.Message.{Message as AnyMessage};
ghost use Rattle.ffi.specs.AuditedAll.{all_lost, all_rows, lost_reported};

use crate::path_numbers::{HartRowNumbers, LostRun, row_reported};
use auditing::{Audit, LostRuns};
use std::alloc::{AllocError, Global};

/// What is found of each hart.
pub(crate) fn rows_of(alloc: Global, path: &Audit<'_>) -> Result<Vec<HartRowNumbers>, AllocError>
    ensures { (sent received : List AnyMessage) → IsAudit sent received path.now → length received < 2 ^ 64
        → IfOk result (λ rows. rows.items
        ≡ all_rows (known_all path.now.by sent) (known_all path.now.by received) (length path.now.harts)) }
{
    let mut rows = Vec::with_capacity(alloc, path.harts())?;
    for hart in 0..path.harts() {
        rows.push(row_reported(path.row(hart)))?;
    }
    Ok(rows)
}

/// The longest runs of numbers of each hart that were lost.
pub(crate) fn lost_of(alloc: Global, path: &Audit<'_>) -> Result<Vec<LostRun>, AllocError>
    ensures { (sent received : List AnyMessage) → IsAudit sent received path.now
        → IfOk result (λ lost. lost.items
        ≡ all_lost (known_all path.now.by sent) (known_all path.now.by received) (length path.now.harts)) }
{
    let mut lost = Vec::new(alloc);
    for hart in 0..path.harts() {
        add_lost(path.lost(hart), hart, &mut lost)?;
    }
    Ok(lost)
}

/// Adds the longest runs of numbers of a hart that were lost.
pub(crate) fn add_lost(
    runs: LostRuns<'_>,
    hart: usize,
    lost: &mut Vec<LostRun>,
) -> Result<(), AllocError>
    ensures { OnOk result (lost.new.items ≡ lost.old.items ++ map (lost_reported hart) runs.entry) }
{
    let mut left = runs;
    while let Some(run) = left.next() {
        lost.push(LostRun {
            first: run.first,
            last: run.last,
            hart: hart as u64,
        })?;
    }
    Ok(())
}
