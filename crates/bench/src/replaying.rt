//! Logs through a funnel in one thread, by a schedule of turns.

ghost use Rattle.std.specs.Prelude.{ℕ, ◌≡◌, ◌≤◌, All, List, Some, None, Err, IfErr, IfOk, length, map};
ghost use Rattle.legalpath.specs.ProgramLog.{IsLegalLog, ProgramLog};
ghost use Rattle.payload.specs.declared.mode.Mode.{Mode};
ghost use Rattle.encoder.specs.Payloads.{payloads};
ghost use Rattle.funnel.specs.Limits.{limit_fault};
ghost use Rattle.message.specs.Version.{most_harts};
ghost use Rattle.message.specs.declared.header.Version.TheVariants.{Two};
ghost use Rattle.funnel.specs.Machine.{Funnel, after_turn, take_front};
ghost use Rattle.funnel.specs.declared.turn.Turn.TheVariants as turn;
ghost use Rattle.bench.specs.Beginnings.{AreBeginnings, AreThoseTaken, LackSome, NamesRefused};
ghost use Rattle.bench.specs.Replayed.{replayed};
ghost use Rattle.bench.specs.Setting.{setup_fault};
ghost use Rattle.bench.specs.declared.setup.Setup.{Setup as AnySetup};
ghost use Rattle.bench.specs.steps.Sending.{AreSending};
ghost use Rattle.bench.specs.steps.Taking.{CameUnlessRefused, IsFrontNext, IsReady, LacksSome, NamesRefusedHart};

use crate::collecting::{CollectFault, Collector};
use crate::config::Config;
use crate::outcome::Outcome;
use crate::sender::{Sender, senders_of};
use crate::setup::Setup;
use crate::stop::Stop;
use funnel::{Core, OpenFault, Turn, opening_fault};
use legalpath::LegalLog;
use message::MOST_HARTS;
use std::alloc::Allocator;

/// Sends the messages of logs through a funnel and decodes those that are taken out of it, in the order of the turns.
///
/// A turn that cannot act changes nothing. A turn of a hart cannot act where the funnel is full, the hart has no
/// message left, or there is no such hart. A collecting turn cannot act where the funnel is empty. The turns may end
/// before all messages are taken. The only stop is [`Stop::Memory`]. Nothing more of that hart is decoded then, and the
/// others go on.
pub fn replay<A: Allocator + Copy, B: Allocator>(
    alloc: A,
    logs: &[LegalLog<'_, B>],
    config: Config,
    turns: &[Turn],
) -> Result<Outcome<A>, Setup>
    ensures beginnings { IfOk result (λ outcome. AreBeginnings config logs.now outcome.harts.items) }
    // As many messages of each hart were decoded as were taken, unless an allocation for it failed.
    ensures taken { IfOk result (λ outcome. AreThoseTaken config logs.now
        (replayed config.period config.mode config.capacity logs.now turns.now).taken outcome.harts.items) }
    ensures lacks { IfOk result (λ outcome. LackSome
        (replayed config.period config.mode config.capacity logs.now turns.now).taken outcome.harts.items) }
    ensures stop { IfOk result (λ outcome. NamesRefused outcome.stop outcome.harts.items) }
    ensures refused { (fault : AnySetup) → setup_fault (most_harts Two) (length logs.now) config ≡ Some fault
        → result ≡ Err fault }
    ensures memory { setup_fault (most_harts Two) (length logs.now) config ≡ None
        → IfErr result (λ fault. fault ≡ Setup.Memory) }
{
    if let Some(fault) = fault_of(MOST_HARTS, logs.len(), config) {
        return Err(fault);
    }
    let mut core = match Core::new(alloc, logs.len() as u16, config.capacity) {
        Ok(core) => core,
        Err(_) => return Err(Setup::Memory),
    };
    let mut senders = match senders_of(alloc, logs, config.period, config.mode) {
        Ok(senders) => senders,
        Err(_) => return Err(Setup::Memory),
    };
    let mut collector = match Collector::new(alloc, logs, config.keep) {
        Ok(collector) => collector,
        Err(_) => return Err(Setup::Memory),
    };
    let mut stop = None;
    for turn in turns {
        match *turn {
            Turn::Hart(hart) => send(&mut core, &mut senders, hart),
            Turn::Collect => collect(&mut core, &mut collector, &mut stop),
        }
    }
    let mut outcome = collector.finish();
    outcome.stop = stop;
    Ok(outcome)
}

/// The first fault of a count of logs, which may be `most` or fewer, and of this configuration; `None` where there is
/// none.
pub(crate) fn fault_of(most: u16, logs: usize, config: Config) -> Option<Setup>
    ensures fault { result ≡ setup_fault most logs config }
    ensures harts { result ≡ None → logs ≤ most }
    ensures limits { result ≡ None → limit_fault most logs config.capacity ≡ None }
    ensures period { result ≡ None → 1 ≤ config.period }
{
    match opening_fault(most, logs, config.capacity) {
        Some(OpenFault::NoHarts) => Some(Setup::NoHarts),
        Some(OpenFault::TooManyHarts) => Some(Setup::TooManyHarts),
        Some(OpenFault::Capacity) => Some(Setup::Capacity),
        Some(OpenFault::Memory) => Some(Setup::Memory),
        None if config.period == 0 => Some(Setup::Period),
        None => None,
    }
}

/// The turn of a hart: it sends its next message, where it has one and the funnel is not full.
fn send<A: Allocator, C: Allocator, B: Allocator>(
    core: &mut Core<A>,
    senders: &mut Vec<Sender<'_, '_, B>, C>,
    hart: u16,
)
    requires known { length senders.old.items ≡ core.old.harts }
    ensures sent { (period : ℕ) (mode : Mode) (logs : List ProgramLog) (state : Funnel) → All IsLegalLog logs
        → AreSending period mode core.old.capacity logs state core.old senders.old.items
        → AreSending period mode core.old.capacity logs
        (after_turn core.old.capacity (map (payloads period mode) logs) (turn.Hart hart) state) core.new
        senders.new.items }
{
    let place = usize::from(hart);
    if place >= senders.len() {
        return;
    }
    if core.is_full() {
        return;
    }
    let Some(message) = senders[place].next(hart) else {
        return;
    };
    match core.offer(message) {
        Ok(()) => {}
        Err(_) => unreachable!(),
    }
}

/// The turn of the collector: it takes the front message and decodes it, where there is one. Where an allocation for it
/// fails, the stop names its hart.
fn collect<A: Allocator + Copy, B: Allocator>(
    core: &mut Core<A>,
    collector: &mut Collector<'_, '_, A, B>,
    stop: &mut Option<Stop>,
)
    requires ready { IsReady core.old.queue collector.old }
    ensures core { (state : Funnel) → state.queue ≡ core.old.queue
        → core.new ≡ record core.old { queue = (take_front state).queue } }
    ensures keep { collector.new.keep ≡ collector.old.keep }
    ensures taken { (period : ℕ) (mode : Mode) (logs : List ProgramLog) (state : Funnel) → state.queue ≡ core.old.queue
        → IsFrontNext period mode logs state.taken state.queue
        → CameUnlessRefused period mode logs state.taken collector.old
        → CameUnlessRefused period mode logs (take_front state).taken collector.new }
    ensures lacks { (period : ℕ) (mode : Mode) (logs : List ProgramLog) (state : Funnel) → state.queue ≡ core.old.queue
        → IsFrontNext period mode logs state.taken state.queue
        → CameUnlessRefused period mode logs state.taken collector.old
        → LacksSome state.taken collector.old → LacksSome (take_front state).taken collector.new }
    ensures names { NamesRefusedHart stop.old collector.old → NamesRefusedHart stop.new collector.new }
{
    let Some(message) = core.take() else {
        return;
    };
    let hart = message.hart;
    match collector.take_in(message) {
        Ok(()) => {}
        Err(CollectFault::Memory) => *stop = Some(Stop::Memory(hart)),
        Err(_) => unreachable!(),
    }
}
