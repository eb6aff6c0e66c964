//! The worker of a hart, which sends its log's payloads.

ghost use Rattle.std.specs.Prelude.{ℕ, ◌≡◌, [], IfSome, false, slice_get, true};
ghost use Rattle.legalpath.specs.ProgramLog.{ProgramLog};
ghost use Rattle.payload.specs.declared.mode.Mode.{Mode};
ghost use Rattle.encoder.specs.Payloads.{payloads};
ghost use Rattle.encoder.specs.SourceAt.{IsAt, SourceAt, number_behind};
ghost use Rattle.funnel.specs.Ends.{after_sending};
ghost use Rattle.bench.specs.Working.{IsWork};

use crate::gate::Gate;
use crate::plan::Plan;
use encoder::Source;
use funnel::{Port, Receipt};
use payload::Payload;
use std::snapshot::Snapshot;
use std::sync::Wait;
use std::thread::{Promise, PromisedHandle, Scope};

/// What a worker returns.
#[derive(Drop)]
pub(crate) struct Work {
    /// What its port leaves.
    pub(crate) receipt: Receipt,
    /// Whether the port gave a payload back. It does so only where the channel handed the message back, since no source
    /// gives a payload after its closing one.
    pub(crate) handed_back: bool,
}

/// Payloads of a log, one at a time, which a worker sends.
///
/// The promise of a thread's closure can speak of a type parameter, and not of a type with lifetimes: hence this trait.
pub(crate) trait Payloads: Send + Drop {
    ghost at: { Self → SourceAt };

    /// The next payload, where there is one.
    fn next(&mut self) -> Option<Payload>
        ensures given { (period number : ℕ) (mode : Mode) (log : ProgramLog)
            → IsAt period mode log number (Self.at self.old)
            → result ≡ slice_get (payloads period mode log) number }
        ensures goes_on { (period number : ℕ) (mode : Mode) (log : ProgramLog)
            → IsAt period mode log number (Self.at self.old)
            → IsAt period mode log (number_behind number result) (Self.at self.new) };
}

/// The payloads of a log, for as long as a run lasts.
///
/// A call whose type argument names several lifetimes is not covered by the borrow checker where its signature names
/// `'static`, as that of a log does: hence one lifetime.
#[derive(Drop)]
pub(crate) struct LogPayloads<'s> {
    pub(crate) source: Source<'s, 's>,
}

impl<'s> Payloads for LogPayloads<'s> {
    ghost at = { λ payloads. payloads.source };

    fn next(&mut self) -> Option<Payload> {
        self.source.next()
    }
}

/// What a worker promises: the receipt of its port. What was sent through it carries the first payloads of the worker's
/// log, and not all of them where a payload was handed back.
#[derive(Drop)]
pub(crate) struct Sending<S> {
    pub(crate) port: Snapshot<Port>,
    pub(crate) source: Snapshot<S>,
}

impl<S: Payloads> Promise<Work> for Sending<S> {
    ghost use Rattle.bench.specs.Working.{IsWork};

    ghost kept_by = { λ p w. IsWork (S.at p.source.value).period (S.at p.source.value).mode p.port.value
        (S.at p.source.value).log w.receipt w.handed_back };
}

/// A worker that was started.
pub(crate) type Worker<S> = PromisedHandle<Work, Sending<S>>;

/// Starts the worker of a hart, which sends at most `most` payloads; `None` where the thread was refused.
pub(crate) fn start<'s, E, S: Payloads + 's, G: Gate, R: Wait + Sync>(
    scope: &Scope<'s, E>,
    plan: &Plan<'s, G, R>,
    hart: u16,
    port: Port,
    source: S,
    most: usize,
) -> Option<Worker<S>>
    requires { ((S.at source).number ≡ 0) × (port.sent ≡ []) }
    ensures { IfSome result (λ w. (w.promise.port.value ≡ port) × (w.promise.source.value ≡ source)) }
{
    let (rt, gate) = (plan.rt, plan.gate);
    let promise = Sending {
        port: Snapshot::of(&port),
        source: Snapshot::of(&source),
    };
    scope
        .spawn_with(
            promise,
            move || -> Work
                requires { ((S.at source).number ≡ 0) × (port.sent ≡ []) }
                ensures { IsWork (S.at source).period (S.at source).mode port (S.at source).log result.receipt
                    result.handed_back }
            { send_all(rt, gate, hart, port, source, most) },
        )
        .ok()
}

/// Sends the payloads of a source through a port, at most `most`, and until the channel hands one back.
fn send_all<S: Payloads, G: Gate, R: Wait>(
    rt: &R,
    gate: &G,
    hart: u16,
    port: Port,
    source: S,
    most: usize,
) -> Work
    requires { ((S.at source).number ≡ 0) × (port.sent ≡ []) }
    ensures { IsWork (S.at source).period (S.at source).mode port (S.at source).log result.receipt result.handed_back }
{
    let mut port = port;
    let mut source = source;
    let mut handed_back = false;
    for number in 0..most {
        let Some(payload) = source.next() else {
            break;
        };
        if !send_one(rt, gate, hart, number as u64, &mut port, payload) {
            handed_back = true;
            break;
        }
    }
    Work {
        receipt: port.finish(),
        handed_back,
    }
}

/// Sends a payload with the gate round it, and returns whether the channel took it.
fn send_one<G: Gate, R: Wait>(
    rt: &R,
    gate: &G,
    hart: u16,
    number: u64,
    port: &mut Port,
    payload: Payload,
) -> bool
    ensures sent { result ≡ true → port.new ≡ after_sending port.old payload }
    ensures refused { result ≡ false → port.new ≡ port.old }
{
    gate.before_send(rt, hart, number);
    if port.send(rt, payload).is_err() {
        return false;
    }
    gate.after_send(rt, hart, number);
    true
}
