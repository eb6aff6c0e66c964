//! Logs through the funnel over threads.

ghost use Rattle.std.specs.Prelude.{◌≡◌, ◌≤◌, [], IfErr, IfOk, None, Some, Err, OnErr, length};
ghost use Rattle.funnel.specs.Ends.{AreNewPorts};
ghost use Rattle.funnel.specs.Limits.{most_ports};
ghost use Rattle.bench.specs.Beginnings.{AreBeginnings, AreCarried, AreThoseTaken, CameThrough, LackSomeTaken};
ghost use Rattle.bench.specs.Setting.{setup_fault};
ghost use Rattle.bench.specs.Stopping.{IfHandedBack, LacksPayloads, NamesOpen, NoRefusedIsClosed};
ghost use Rattle.bench.specs.steps.Running.{IsRun};
ghost use Rattle.bench.specs.declared.setup.Setup.{Setup as AnySetup};

use crate::collecting::Collector;
use crate::config::Config;
use crate::gate::Gate;
use crate::gathering::{collect, settle_all};
use crate::outcome::Outcome;
use crate::plan::Plan;
use crate::replaying::fault_of;
use crate::setup::Setup;
use crate::starting::start_all;
use crate::stopping::stop_of;
use funnel::{MOST_PORTS, Outlet, Port, open};
use legalpath::LegalLog;
use retire::Event;
use std::alloc::{AllocError, Allocator, Global};
use std::sync::Wait;
use std::thread;
use std::thread::{Scope, Threads};

/// Sends the payloads of logs through a funnel, each log's from a thread of its own, and decodes in the caller's thread
/// what is taken out of the funnel. It opens the funnel at the capacity of the configuration, and then does as
/// [`run_on`].
///
/// Each send waits for the gate, and while the funnel is full. The caller's thread takes messages until the closing
/// message came of every hart whose thread was started, or the channel ended. Where memory or its thread is refused for
/// a hart, the others go on.
///
/// The stop names a hart that is not closed. Of several reasons the first of these is named: a payload was handed back;
/// the channel ended; memory or a thread was refused. Of several harts with that reason the first is named.
///
/// The funnel takes its memory from `global`, and all else is taken from `alloc`. A fault says why nothing is sent at
/// all: the count of logs, the capacity or the period, in this order and before memory is taken, or an allocation that
/// failed and is for no single hart.
pub fn run<A: Allocator + Copy, G: Gate, R: Threads + Wait + Sync>(
    alloc: A,
    global: Global,
    logs: &[LegalLog<'_>],
    config: Config,
    gate: &G,
    rt: &R,
) -> Result<Outcome<A>, Setup>
    ensures beginnings { IfOk result (λ outcome. AreBeginnings config logs.now outcome.harts.items) }
    ensures stop { IfOk result (λ outcome. NamesOpen outcome.stop outcome.harts.items) }
    ensures refused_harts { IfOk result (λ outcome. NoRefusedIsClosed outcome.harts.items) }
    ensures refused { (fault : AnySetup) → setup_fault most_ports (length logs.now) config ≡ Some fault
        → result ≡ Err fault }
    ensures memory { setup_fault most_ports (length logs.now) config ≡ None
        → IfErr result (λ fault. fault ≡ Setup.Memory) }
{
    match run_in_rooms(alloc, global, logs, config, gate, rt, Vec::new(alloc)) {
        Ok((outcome, _)) => Ok(outcome),
        Err(fault) => Err(fault),
    }
}

/// The same, with lists that were allocated before: `rooms` has one for the events of hart 0, one for those of hart 1,
/// and so on, as far as it goes. The memory of a list is used again, and its content is dropped. More memory than it
/// has is taken as in [`run`]. Beside the outcome the outlet is returned, out of which all was taken.
///
/// A machine may hand out memory only when it is first written, one page after another. If the memory of the lists was
/// written before, by several threads, the run waits for no page.
pub fn run_in_rooms<A: Allocator + Copy, G: Gate, R: Threads + Wait + Sync>(
    alloc: A,
    global: Global,
    logs: &[LegalLog<'_>],
    config: Config,
    gate: &G,
    rt: &R,
    rooms: Vec<Vec<Event, A>, A>,
) -> Result<(Outcome<A>, Outlet), Setup>
    ensures beginnings { IfOk result (λ ran. AreBeginnings config logs.now ran.0.harts.items) }
    // The channel holds as many messages as is asked for. As many messages of each hart were decoded as were taken out
    // of it, unless memory or its thread was refused for it. They carry the first payloads of its log.
    ensures through { IfOk result (λ ran. CameThrough config logs.now ran.1 ran.0.harts.items) }
    ensures stop { IfOk result (λ ran. NamesOpen ran.0.stop ran.0.harts.items) }
    ensures refused_harts { IfOk result (λ ran. NoRefusedIsClosed ran.0.harts.items) }
    ensures refused { (fault : AnySetup) → setup_fault most_ports (length logs.now) config ≡ Some fault
        → result ≡ Err fault }
    ensures memory { setup_fault most_ports (length logs.now) config ≡ None
        → IfErr result (λ fault. fault ≡ Setup.Memory) }
{
    let (ports, outlet) = match ends_of(global, logs.len(), config) {
        Ok(ends) => ends,
        Err(fault) => return Err(fault),
    };
    let mut outlet = outlet;
    let plan = Plan {
        logs,
        config,
        gate,
        rt,
    };
    match run_plan(alloc, plan, ports, &mut outlet, rooms) {
        Ok(outcome) => Ok((outcome, outlet)),
        Err(_) => Err(Setup::Memory),
    }
}

/// The same over the ends of a funnel that was opened for as many harts and through which nothing was sent. The period
/// is 1 or more; the configuration's capacity is not looked at.
///
/// An error comes where an allocation fails that is for no single hart. Then nothing is taken out of the funnel, and the
/// ports are dropped.
pub fn run_on<A: Allocator + Copy, G: Gate, R: Threads + Wait + Sync>(
    alloc: A,
    logs: &[LegalLog<'_>],
    config: Config,
    gate: &G,
    ports: Vec<Port>,
    outlet: &mut Outlet,
    rt: &R,
) -> Result<Outcome<A>, AllocError>
    requires period { 1 ≤ config.period }
    requires ports { AreNewPorts outlet.old.funnel (length logs.now) ports.items }
    requires outlet { (outlet.old.taken ≡ []) × (outlet.old.made ≡ length logs.now) }
    requires count { length logs.now ≤ most_ports }
    ensures beginnings { IfOk result (λ outcome. AreBeginnings config logs.now outcome.harts.items) }
    // As many messages of each hart were decoded as were taken, unless memory or its thread was refused for it.
    ensures taken { IfOk result (λ outcome. AreThoseTaken config logs.now outlet.new.taken outcome.harts.items) }
    // They carry the first payloads of the hart's log, unless memory or its thread was refused for it.
    ensures carried { IfOk result (λ outcome. AreCarried config logs.now outlet.new.taken outcome.harts.items) }
    // If memory or its thread was refused for a hart, and messages of it were taken, fewer were decoded.
    ensures lacks { IfOk result (λ outcome. LackSomeTaken outlet.new.taken outcome.harts.items) }
    ensures stop { IfOk result (λ outcome. NamesOpen outcome.stop outcome.harts.items) }
    ensures refused_harts { IfOk result (λ outcome. NoRefusedIsClosed outcome.harts.items) }
    // Where the stop says that a payload was handed back, not all payloads of that hart's log were taken.
    ensures handed_back { IfOk result (λ outcome.
        IfHandedBack (LacksPayloads config.period config.mode logs.now outlet.new.taken) outcome.stop) }
    ensures untouched { OnErr result (outlet.new ≡ outlet.old) }
    ensures funnel { outlet.new ≡ record outlet.old { taken = outlet.new.taken } }
{
    let plan = Plan {
        logs,
        config,
        gate,
        rt,
    };
    run_plan(alloc, plan, ports, outlet, Vec::new(alloc))
}

/// The ends of a new funnel for this many harts, or why nothing is sent at all.
fn ends_of(global: Global, harts: usize, config: Config) -> Result<(Vec<Port>, Outlet), Setup>
    ensures ports { IfOk result (λ ends. AreNewPorts ends.1.funnel harts ends.0.items) }
    ensures outlet { IfOk result
        (λ ends. (ends.1.taken ≡ []) × (ends.1.made ≡ harts) × (ends.1.room ≡ config.capacity)) }
    ensures limits { IfOk result (λ ends. (1 ≤ config.period) × (harts ≤ most_ports)) }
    ensures refused { (fault : AnySetup) → setup_fault most_ports harts config ≡ Some fault → result ≡ Err fault }
    ensures memory { setup_fault most_ports harts config ≡ None → IfErr result (λ fault. fault ≡ Setup.Memory) }
{
    if let Some(fault) = fault_of(MOST_PORTS, harts, config) {
        return Err(fault);
    }
    match open(global, harts as u16, config.capacity) {
        Ok(ends) => Ok(ends),
        Err(_) => Err(Setup::Memory),
    }
}

/// Runs what is planned over the ends of a funnel, with lists for the events of harts.
fn run_plan<A: Allocator + Copy, G: Gate, R: Threads + Wait + Sync>(
    alloc: A,
    plan: Plan<'_, G, R>,
    ports: Vec<Port>,
    outlet: &mut Outlet,
    rooms: Vec<Vec<Event, A>, A>,
) -> Result<Outcome<A>, AllocError>
    requires period { 1 ≤ plan.config.period }
    requires ports { AreNewPorts outlet.old.funnel (length plan.logs.now) ports.items }
    requires outlet { (outlet.old.taken ≡ []) × (outlet.old.made ≡ length plan.logs.now) }
    requires count { length plan.logs.now ≤ most_ports }
    ensures { IsRun plan.entry.config plan.entry.logs.now outlet.old outlet.new result }
{
    let Plan {
        logs,
        config,
        gate,
        rt,
    } = plan;
    let (outcome, back) = thread::scope(
        thread::scope_env(),
        rt,
        move |scope| -> (Result<Outcome<A>, AllocError>, &mut Outlet)
            requires { (1 ≤ config.period) × AreNewPorts outlet.now.funnel (length logs.now) ports.items
                × (outlet.now.taken ≡ []) × (outlet.now.made ≡ length logs.now) × (length logs.now ≤ most_ports) }
            ensures same { result.1.ghost_name ≡ outlet.entry.ghost_name }
            ensures runs { IsRun config logs.entry.now outlet.entry.now result.1.now result.0 }
        {
            let plan = Plan {
                logs,
                config,
                gate,
                rt,
            };
            let outcome = conduct(scope, &plan, alloc, ports, outlet, rooms);
            (outcome, outlet)
        },
    );
    let _ = back;
    outcome
}

/// Starts the workers, collects what they send, and settles their receipts.
fn conduct<'s, E, A: Allocator + Copy, G: Gate, R: Threads + Wait + Sync>(
    scope: &Scope<'s, E>,
    plan: &Plan<'s, G, R>,
    alloc: A,
    ports: Vec<Port>,
    outlet: &mut Outlet,
    rooms: Vec<Vec<Event, A>, A>,
) -> Result<Outcome<A>, AllocError>
    requires period { 1 ≤ plan.now.config.period }
    requires ports { AreNewPorts outlet.old.funnel (length plan.now.logs.now) ports.items }
    requires outlet { (outlet.old.taken ≡ []) × (outlet.old.made ≡ length plan.now.logs.now) }
    requires count { length plan.now.logs.now ≤ most_ports }
    ensures { IsRun plan.now.config plan.now.logs.now outlet.old outlet.new result }
{
    let mut collector = Collector::new(alloc, plan.logs, plan.config.keep)?;
    collector.take_rooms(rooms);
    let mut handed_back = Vec::from_elem(alloc, false, plan.logs.len())?;
    let workers = Vec::with_capacity(alloc, plan.logs.len())?;
    let workers = start_all(scope, plan, ports, workers, &mut collector, outlet);
    collect(plan.rt, workers.len(), &mut collector, outlet);
    settle_all(plan, workers, handed_back.as_mut_slice(), outlet);
    let mut outcome = collector.finish();
    outcome.stop = stop_of(outcome.harts.as_slice(), handed_back.as_slice());
    Ok(outcome)
}
