//! What workers sent, collected and settled.

ghost use Rattle.std.specs.Prelude.{ℕ, ◌≡◌, ◌≤◌, All, Contains, List, length, slice_get, Some, true};
ghost use Rattle.legalpath.specs.ProgramLog.{ProgramLog};
ghost use Rattle.message.specs.OfHart.{of_hart};
ghost use Rattle.bench.specs.Stopping.{LacksPayloads};
ghost use Rattle.bench.specs.Working.{AreNotAll, CarryFirst};
ghost use Rattle.bench.specs.declared.config.Config.{Config as AnyConfig};
ghost use Rattle.bench.specs.steps.Gathering.{AreGathered, IsWorkerOf, harts_of};

use crate::collecting::Collector;
use crate::gate::Gate;
use crate::plan::Plan;
use crate::worker::{Payloads, Work, Worker};
use funnel::Outlet;
use std::alloc::Allocator;
use std::sync::Wait;
use std::thread::Threads;

/// Takes messages in until the closing ones of `running` harts came, or the channel ended.
pub(crate) fn collect<A: Allocator + Copy, R: Wait>(
    rt: &R,
    running: usize,
    collector: &mut Collector<'_, '_, A>,
    outlet: &mut Outlet,
)
    ensures gathered { (config : AnyConfig) (logs : List ProgramLog) (started : List ℕ)
        → AreGathered config logs started outlet.old.taken collector.old
        → AreGathered config logs started outlet.new.taken collector.new }
    ensures outlet { outlet.new ≡ record outlet.old { taken = outlet.new.taken } }
    ensures keep { collector.new.keep ≡ collector.old.keep }
{
    let mut left = running;
    for _ in rt.forever() {
        if left == 0 {
            break;
        }
        let Some(closing) = collect_one(rt, collector, outlet) else {
            break;
        };
        left -= usize::from(closing);
    }
}

/// Takes one message in, and returns whether it closes its hart's trace; `None` where the channel ended.
fn collect_one<A: Allocator + Copy, R: Wait>(
    rt: &R,
    collector: &mut Collector<'_, '_, A>,
    outlet: &mut Outlet,
) -> Option<bool>
    ensures gathered { (config : AnyConfig) (logs : List ProgramLog) (started : List ℕ)
        → AreGathered config logs started outlet.old.taken collector.old
        → AreGathered config logs started outlet.new.taken collector.new }
    ensures outlet { outlet.new ≡ record outlet.old { taken = outlet.new.taken } }
    ensures keep { collector.new.keep ≡ collector.old.keep }
{
    let Ok(message) = outlet.take(rt) else {
        return None;
    };
    let closing = message.payload.is_closing();
    let _ = collector.take_in(message);
    Some(closing)
}

/// Joins the workers and settles their receipts. Notes at each hart's place whether a payload of the hart was handed
/// back.
pub(crate) fn settle_all<S: Payloads, A: Allocator, G: Gate, R: Threads>(
    plan: &Plan<'_, G, R>,
    workers: Vec<Worker<S>, A>,
    handed_back: &mut [bool],
    outlet: &mut Outlet,
)
    requires workers { All (IsWorkerOf S.at outlet.old.funnel plan.now.config plan.now.logs.now) workers.items }
    requires count { length plan.now.logs.now ≤ length handed_back.old }
    requires none { (hart : ℕ) → ¬ (slice_get handed_back.old hart ≡ Some true) }
    ensures outlet { outlet.new ≡ outlet.old }
    ensures carried { (hart : ℕ) (log : ProgramLog) → slice_get plan.now.logs.now hart ≡ Some log
        → Contains (harts_of workers.items) hart
        → CarryFirst plan.now.config.period plan.now.config.mode log (of_hart hart outlet.old.taken) }
    ensures count { length handed_back.new ≡ length handed_back.old }
    ensures lacks { (hart : ℕ) → slice_get handed_back.new hart ≡ Some true
        → LacksPayloads plan.now.config.period plan.now.config.mode plan.now.logs.now outlet.old.taken hart }
{
    let mut workers = workers;
    while let Some(worker) = workers.pop() {
        let (hart, back) = settle(plan.rt, worker, outlet);
        handed_back[usize::from(hart)] = back;
    }
}

/// Joins a worker and settles its receipt. Returns its hart, and whether a payload was handed back.
fn settle<S: Payloads, R: Threads>(rt: &R, worker: Worker<S>, outlet: &mut Outlet) -> (u16, bool)
    requires { worker.promise.port.value.funnel ≡ outlet.old.funnel }
    ensures outlet { outlet.new ≡ outlet.old }
    ensures hart { result.0 ≡ worker.promise.port.value.hart }
    ensures carried { CarryFirst (S.at worker.promise.source.value).period (S.at worker.promise.source.value).mode
        (S.at worker.promise.source.value).log (of_hart worker.promise.port.value.hart outlet.old.taken) }
    ensures lacks { result.1 ≡ true → AreNotAll (S.at worker.promise.source.value).period
        (S.at worker.promise.source.value).mode (S.at worker.promise.source.value).log
        (of_hart worker.promise.port.value.hart outlet.old.taken) }
{
    let Work {
        receipt,
        handed_back,
    } = worker.join(rt);
    let settled = outlet.settle(receipt);
    (settled.hart, handed_back)
}
