//! The workers of all harts.

ghost use Rattle.std.specs.Prelude.{ℕ, ◌≡◌, ◌≤◌, All, [], length, slice_get, Some, vec_capacity};
ghost use Rattle.legalpath.specs.ProgramLog.{ProgramLog};
ghost use Rattle.funnel.specs.Ends.{AreNewPorts};
ghost use Rattle.funnel.specs.Limits.{most_ports};
ghost use Rattle.bench.specs.Collected.{HasCollected};
ghost use Rattle.bench.specs.steps.Gathering.{AreGathered, IsWorkerOf, harts_of};

use crate::collecting::Collector;
use crate::gate::Gate;
use crate::plan::Plan;
use crate::worker::{LogPayloads, Worker, start};
use encoder::Source;
use funnel::{Outlet, Port};
use std::alloc::Allocator;
use std::sync::Wait;
use std::thread::Scope;

/// Starts the worker of each hart, the last first. Where the thread of a worker is refused, the collector notes it.
pub(crate) fn start_all<'s, E, A: Allocator + Copy, G: Gate, R: Wait + Sync>(
    scope: &Scope<'s, E>,
    plan: &Plan<'s, G, R>,
    ports: Vec<Port>,
    mut workers: Vec<Worker<LogPayloads<'s>>, A>,
    collector: &mut Collector<'_, '_, A>,
    outlet: &Outlet,
) -> Vec<Worker<LogPayloads<'s>>, A>
    requires period { 1 ≤ plan.now.config.period }
    requires count { length plan.now.logs.now ≤ most_ports }
    requires ports { AreNewPorts outlet.now.funnel (length plan.now.logs.now) ports.items }
    requires room { (length plan.now.logs.now ≤ vec_capacity workers) × (workers.items ≡ []) }
    requires own { collector.old.logs ≡ plan.now.logs.now }
    requires begun { (hart : ℕ) (log : ProgramLog) → slice_get plan.now.logs.now hart ≡ Some log
        → HasCollected plan.now.config.period plan.now.config.mode log 0 hart collector.old }
    ensures workers { All (IsWorkerOf (λ payloads. payloads.source) outlet.now.funnel plan.now.config plan.now.logs.now)
        result.items }
    ensures gathered { AreGathered plan.now.config plan.now.logs.now (harts_of result.items) [] collector.new }
    ensures keep { collector.new.keep ≡ collector.old.keep }
{
    let mut ports = ports;
    while let Some(port) = ports.pop() {
        let hart = ports.len();
        let log = &plan.logs[hart];
        let source = LogPayloads {
            source: Source::new(log, plan.config.period, plan.config.mode),
        };
        let most = log.events().len() + 2;
        match start(scope, plan, hart as u16, port, source, most) {
            Some(worker) => workers.push_reserved(worker),
            None => collector.refuse(hart as u16),
        }
    }
    workers
}
