//! From any messages of several harts to what is left of each hart's log.

ghost use Rattle.std.specs.Prelude.{ℕ, ◌≡◌, All, IfOk, List, length};
ghost use Rattle.rvclass.specs.Fetch.{words_of};
ghost use Rattle.legalpath.specs.ProgramLog.{ProgramLog};
ghost use Rattle.payload.specs.declared.mode.Mode.{Mode as AnyMode};
ghost use Rattle.losses.specs.Collects.{GivesPieces};
ghost use Rattle.losses.specs.declared.part.HartPieces.{HartPieces as AnyPieces};
ghost use Rattle.salvaging.specs.FromLogs.{AreFromLogs};
ghost use Rattle.salvaging.specs.LogsSalvaged.{AreLogsSalvaged};
ghost use Rattle.salvaging.specs.LossyParts.{AreCollectedToo};
ghost use Rattle.salvaging.specs.Salvaged.{IsSalvaged};
ghost use Rattle.salvaging.specs.steps.Arrivals.{HaveNumbers, HavePlaces, arrivals_in};
ghost use Rattle.salvaging.specs.steps.Distributing.{AreSalvagedOf};

use crate::distributing::{distribute, strangers};
use crate::hart::salvage_hart;
use crate::received::ReceivedMessage;
use crate::salvaged::{Salvaged, SalvagedHart};
use decoder::StraightRuns;
use message::{Message, NoProgress, ProgressSink};
use payload::Mode;
use rvclass::ProgramOver;
use std::alloc::{AllocError, Allocator};
use std::mem;

/// Salvages what is left of each hart, whose messages these are. Each list is taken out, so that it is dropped before
/// the next hart's packets are decoded.
fn salvage_each<A: Allocator + Copy, V: ProgressSink>(
    alloc: A,
    program: &ProgramOver,
    mode: Mode,
    lists: &mut Vec<Vec<ReceivedMessage<'_>, A>, A>,
    watch: &V,
) -> Result<Vec<SalvagedHart<A>, A>, AllocError>
    requires numbers { All (λ list. HaveNumbers (arrivals_in list.items)) lists.old.items }
    requires places { All (λ list. HavePlaces (arrivals_in list.items)) lists.old.items }
    ensures { IfOk result (λ harts. AreSalvagedOf (words_of program.now) mode lists.old.items harts.items) }
{
    let mut lines = StraightRuns::new(alloc, program);
    let mut harts = Vec::with_capacity(alloc, lists.len())?;
    for hart in 0..lists.len() {
        let came = mem::replace(&mut lists[hart], Vec::new(alloc));
        harts.push_reserved(salvage_hart(alloc, program, &mut lines, mode, came, watch)?);
    }
    Ok(harts)
}

/// Salvages what any messages leave of the logs of several harts. Messages may be lost, repeated, out of order,
/// damaged, or of no hart. The logs are of this program.
///
/// The harts are those below `harts`. `mode` is the mode of a hart whose packet that opens the trace is not used. What
/// is salvaged of a hart depends only on its own messages and on `mode`, but for which of several faults a decoder
/// returns.
///
/// A stretch without an event is left out. A gap says how many numbers did not come or are doubtful; after the last
/// number that came there is no gap. Where a packet that closes the trace has used numbers above it, and no stretch
/// begins there, the hart ends at the lowest such packet, and what is above it stands alone or is bad.
///
/// An error is returned only where an allocation fails, and then nothing is kept. The time grows with the messages and
/// their events. Once the decoder refuses a packet, it also grows with the image, by a table of 4 bytes for each of its
/// bytes, which lets a walk of which nothing comes take few steps: before that one may take as many as 32 times half of
/// the image's bytes. Where messages did not come in the order of their numbers, it also grows with the logarithm of
/// how many a hart has.
pub fn salvage<A: Allocator + Copy>(
    alloc: A,
    program: &ProgramOver,
    harts: u16,
    mode: Mode,
    messages: &[Message],
) -> Result<Salvaged<A>, AllocError>
    // Of messages of legal logs, in any order and each any number of times.
    ensures logs { (period : ℕ) (own : ℕ → AnyMode) (logs : List ProgramLog)
        → AreFromLogs program.now period mode own logs messages.now → length logs ≡ harts
        → IfOk result (λ salvaged. AreLogsSalvaged program.now period own logs messages.now salvaged) }

    // Of messages of which `losses::collect_lossy` returns pieces, with as many harts and the same mode: the same
    // parts, none of them bad or doubtful, and the same flags. No message is a copy, far, late or a stranger.
    ensures collected { (pieces : List (AnyPieces A)) → GivesPieces program.now harts mode messages.now pieces
        → IfOk result (AreCollectedToo pieces) }

    // Of any messages.
    ensures salvaged { IfOk result (IsSalvaged (words_of program.now) mode harts messages.now) }
{
    salvage_watched(alloc, program, harts, mode, messages, &NoProgress)
}

/// Salvages what any messages leave of logs as [`salvage`] does, and tells `watch` of each message once it is decoded:
/// hart after hart, and of the strangers at last.
pub fn salvage_watched<A: Allocator + Copy, V: ProgressSink>(
    alloc: A,
    program: &ProgramOver,
    harts: u16,
    mode: Mode,
    messages: &[Message],
    watch: &V,
) -> Result<Salvaged<A>, AllocError>
    // Of messages of legal logs, in any order and each any number of times.
    ensures logs { (period : ℕ) (own : ℕ → AnyMode) (logs : List ProgramLog)
        → AreFromLogs program.now period mode own logs messages.now → length logs ≡ harts
        → IfOk result (λ salvaged. AreLogsSalvaged program.now period own logs messages.now salvaged) }

    // Of messages of which `losses::collect_lossy` returns pieces, with as many harts and the same mode: the same
    // parts, none of them bad or doubtful, and the same flags. No message is a copy, far, late or a stranger.
    ensures collected { (pieces : List (AnyPieces A)) → GivesPieces program.now harts mode messages.now pieces
        → IfOk result (AreCollectedToo pieces) }

    // Of any messages.
    ensures salvaged { IfOk result (IsSalvaged (words_of program.now) mode harts messages.now) }
{
    // From this call the proof learns that the program is sound.
    let _ = program.base();
    let mut lists = distribute(alloc, harts, messages)?;
    let salvaged = salvage_each(alloc, program, mode, &mut lists, watch)?;
    let all = Salvaged {
        harts: salvaged,
        strangers: strangers(harts, messages),
    };
    watch.note(all.strangers);
    Ok(all)
}
