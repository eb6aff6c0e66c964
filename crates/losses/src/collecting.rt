//! From the messages of several harts to what is left of each hart's log.

ghost use Rattle.std.specs.Prelude.{ℕ, ◌≡◌, ◌⊎◌, List, IsOk, IfErr, IfOk, MatchResult, OnOk, length};
ghost use Rattle.rvclass.specs.Fetch.{words_of};
ghost use Rattle.legalpath.specs.ProgramLog.{ProgramLog};
ghost use Rattle.payload.specs.declared.mode.Mode.{Mode as AnyMode};
ghost use Rattle.message.specs.Accepted.{newcomers};
ghost use Rattle.message.specs.Lossy.{accepting_lossy, harts_after_lossy};
ghost use Rattle.losses.specs.Collected.{AreCollected};
ghost use Rattle.losses.specs.Losses.{AreOfLogs};
ghost use Rattle.losses.specs.Stops.{AreAcceptedLossy, CollectingStopsBy};
ghost use Rattle.losses.specs.DescribedParts.{AreDescribed};
ghost use Rattle.losses.specs.steps.Collecting.{AreEnded, IsNotCollected, IsNotTaken};
ghost use Rattle.losses.specs.steps.Taking.{CollectsMessage, HasCollected, HasEachHart, IsNewCollection};

use crate::fault::LossyFault;
use crate::hart_trace::HartTrace;
use crate::part::HartPieces;
use decoder::DecodeFault;
use message::{Demux, Message, NoProgress, ProgressSink};
use payload::Mode;
use rvclass::ProgramOver;
use std::alloc::{AllocError, Allocator};

/// The fault for a message at this place whose packet the decoder refuses with this fault.
fn fault_at(place: usize, fault: DecodeFault) -> LossyFault
    ensures fault { IsNotTaken place result }
    ensures either { (result ≡ LossyFault.Memory) ⊎ (result ≡ LossyFault.Decode place fault) }
{
    match fault {
        DecodeFault::Memory => LossyFault::Memory,
        why => LossyFault::Decode(place, why),
    }
}

/// What is collected of several harts.
#[derive(Drop)]
struct Collection<A: Allocator> {
    demux: Demux<A>,
    /// What is under way of each hart.
    traces: Vec<HartTrace<A>, A>,
    /// What is left of each hart's log so far.
    pieces: Vec<HartPieces<A>, A>,
}

impl<A: Allocator + Copy> Collection<A> {
    /// Nothing is collected of the harts below `harts`.
    fn new(alloc: A, harts: u16) -> Result<Collection<A>, AllocError>
        ensures { IfOk result (IsNewCollection harts) }
    {
        let count = usize::from(harts);
        let demux = Demux::new(alloc, harts)?;
        let mut traces = Vec::with_capacity(alloc, count)?;
        let mut pieces = Vec::with_capacity(alloc, count)?;
        for _ in 0..count {
            let trace = HartTrace::new(alloc);
            let parts = Vec::new(alloc);
            let closed = false;
            traces.push_reserved(trace);
            pieces.push_reserved(HartPieces { parts, closed });
        }
        Ok(Collection {
            demux,
            traces,
            pieces,
        })
    }

    /// Takes the message at this place.
    fn take(
        &mut self,
        alloc: A,
        program: &ProgramOver,
        mode: Mode,
        place: usize,
        message: &Message,
    ) -> Result<(), LossyFault>
        requires { HasEachHart self.old }
        ensures each_hart { HasEachHart self.new }
        ensures expected { self.new.demux ≡ harts_after_lossy self.old.demux message.now }
        ensures accepted { OnOk result (IsOk (accepting_lossy self.old.demux message.now)) }
        ensures fault { IfErr result (λ fault. IsNotCollected self.old.demux message.now place fault) }
        ensures takes { CollectsMessage program.now mode message.now self.old self.new result }
    {
        let taken = match self.demux.accept_lossy(message) {
            Ok(taken) => taken,
            Err(why) => return Err(LossyFault::Demux(place, why)),
        };
        let hart = usize::from(message.hart);
        let pieces = &mut self.pieces[hart];
        match self.traces[hart].take(alloc, program, mode, &taken, &mut pieces.parts) {
            Ok(()) => {}
            Err(fault) => return Err(fault_at(place, fault)),
        }
        pieces.closed = taken.0.is_closing();
        Ok(())
    }
}

/// Collects the messages of the harts below `harts` one after the other, up to the first fault. The stretches under way
/// are not ended.
fn take_all<A: Allocator + Copy, V: ProgressSink>(
    alloc: A,
    program: &ProgramOver,
    harts: u16,
    mode: Mode,
    messages: &[Message],
    watch: &V,
) -> Result<Collection<A>, LossyFault>
    ensures { MatchResult result (HasCollected program.now mode harts messages.now)
        (CollectingStopsBy (words_of program.now) mode harts messages.now) }
{
    let mut collection = Collection::new(alloc, harts)?;
    for (place, message) in messages.iter().enumerate() {
        collection.take(alloc, program, mode, place, message)?;
        watch.note(1);
    }
    Ok(collection)
}

/// Ends the stretch of each hart.
fn end_all<A: Allocator + Copy>(
    alloc: A,
    traces: &mut Vec<HartTrace<A>, A>,
    pieces: &mut Vec<HartPieces<A>, A>,
) -> Result<(), AllocError>
    requires { length traces.old.items ≡ length pieces.old.items }
    ensures { OnOk result (AreEnded traces.old.items pieces.old.items pieces.new.items) }
{
    for hart in 0..pieces.len() {
        traces[hart].end_stretch(alloc, &mut pieces[hart].parts)?;
    }
    Ok(())
}

/// Collects what is left of the logs of several harts where messages are lost. The logs are of this program. The parts
/// of each hart are the stretches of its log that the messages still settle, and the gaps where numbers are missing.
///
/// The harts are those below `harts`. The messages of different harts may come in any order. The numbers of one hart's
/// messages rise and are below 2^63; numbers may be missing. A message that repeats a number of its hart, or is late,
/// is refused. `mode` is the mode of a hart whose packet that opens the trace is lost.
///
/// A stretch without an event is left out. A gap says how many numbers are missing before a run of consecutive numbers;
/// where none is missing, it is left out. Messages lost at the end make no gap: they show only as a hart that is not
/// closed.
pub fn collect_lossy<A: Allocator + Copy>(
    alloc: A,
    program: &ProgramOver,
    harts: u16,
    mode: Mode,
    messages: &[Message],
) -> Result<Vec<HartPieces<A>, A>, LossyFault>
    // Of the messages of legal logs, of which some are lost: each hart's parts are those of its log, and the only fault
    // is that an allocation failed.
    ensures parts { (period : ℕ) (own : ℕ → AnyMode) (logs : List ProgramLog) → AreOfLogs program.now period mode own
        logs messages.now
        → length logs ≡ harts
        → IfOk result (λ pieces. AreCollected program.now period own logs messages.now pieces.items) }
    ensures memory { (period : ℕ) (own : ℕ → AnyMode) (logs : List ProgramLog) → AreOfLogs program.now period mode own
        logs messages.now
        → length logs ≡ harts → IfErr result (λ fault. fault ≡ LossyFault.Memory) }

    // Of any messages.
    ensures count { IfOk result (λ pieces. length pieces.items ≡ harts) }
    ensures accepted { OnOk result (AreAcceptedLossy (newcomers harts) messages.now) }
    ensures described { IfOk result (λ pieces. AreDescribed (words_of program.now) mode messages.now pieces.items) }
    ensures stops { IfErr result (λ fault. CollectingStopsBy (words_of program.now) mode harts messages.now fault) }
{
    collect_watched(alloc, program, harts, mode, messages, &NoProgress)
}

/// Collects what is left of logs as [`collect_lossy`] does, and tells `watch` of each message that is taken.
pub fn collect_watched<A: Allocator + Copy, V: ProgressSink>(
    alloc: A,
    program: &ProgramOver,
    harts: u16,
    mode: Mode,
    messages: &[Message],
    watch: &V,
) -> Result<Vec<HartPieces<A>, A>, LossyFault>
    // Of the messages of legal logs, of which some are lost: each hart's parts are those of its log, and the only fault
    // is that an allocation failed.
    ensures parts { (period : ℕ) (own : ℕ → AnyMode) (logs : List ProgramLog) → AreOfLogs program.now period mode own
        logs messages.now
        → length logs ≡ harts
        → IfOk result (λ pieces. AreCollected program.now period own logs messages.now pieces.items) }
    ensures memory { (period : ℕ) (own : ℕ → AnyMode) (logs : List ProgramLog) → AreOfLogs program.now period mode own
        logs messages.now
        → length logs ≡ harts → IfErr result (λ fault. fault ≡ LossyFault.Memory) }

    // Of any messages.
    ensures count { IfOk result (λ pieces. length pieces.items ≡ harts) }
    ensures accepted { OnOk result (AreAcceptedLossy (newcomers harts) messages.now) }
    ensures described { IfOk result (λ pieces. AreDescribed (words_of program.now) mode messages.now pieces.items) }
    ensures stops { IfErr result (λ fault. CollectingStopsBy (words_of program.now) mode harts messages.now fault) }
{
    let collection = take_all(alloc, program, harts, mode, messages, watch)?;
    let mut traces = collection.traces;
    let mut pieces = collection.pieces;
    end_all(alloc, &mut traces, &mut pieces)?;
    Ok(pieces)
}
