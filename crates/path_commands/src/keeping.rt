//! SENT, by the payloads of its harts.

ghost use Rattle.std.specs.Prelude.{◌≡◌, ◌⊎◌, ℕ, Err, IfErr, IfOk, List, Ok};
ghost use Rattle.message.specs.declared.message.Message.{Message as AnyMessage};
ghost use Rattle.auditing.specs.Sent.{IsSent, harts_of};
ghost use Rattle.command_inputs.specs.Found.{IsRead};
ghost use Rattle.path_commands.specs.Audited.{IsSentOf};
ghost use Rattle.path_commands.specs.Sides.{IsFoundSent, by_packets};
ghost use Rattle.path_commands.specs.declared.reason.PathReason.{PathReason as AnyReason};
ghost use Rattle.path_commands.specs.steps.Matching.{KeepsSent};
ghost use Rattle.command_inputs.specs.declared.fault.Fault.TheVariants as Fault;

use crate::by_hart::read_by_hart;
use crate::reason::{Fault, sent_fault};
use crate::sides::by_packets;
use auditing::{Audit, SentPayloads};
use command_inputs::{Audit as Asked, Files, content_of};
use message::{HartRange, Header};
use std::alloc::Global;

/// What is kept of SENT.
#[derive(Drop)]
pub(crate) struct KeptSent {
    /// Its bytes.
    pub(crate) bytes: Vec<u8>,
    /// Its header, if it has one.
    pub(crate) header: Option<Header>,
    /// The payloads of each of its harts that are asked for.
    pub(crate) payloads: SentPayloads,
}

/// Reads SENT and checks it, and keeps the payloads of these harts.
pub(crate) fn read_sent<'a, F: Files>(
    alloc: Global,
    files: &mut F,
    asked: &Asked<'a>,
    harts: HartRange,
) -> Result<KeptSent, Fault<'a>>
    ensures held { IfOk result (λ own. (bytes : List ℕ)
        × IsRead {W = AnyReason} (F.content files.old) asked.now.sent (Ok bytes)
        × KeepsSent (by_packets asked.now.packets) harts bytes own) }
    ensures lacked { IfErr result (λ why. (why ≡ Fault.Memory) ⊎ IsSentOf (F.content files.old) asked.now (Err why)) }
    ensures kept { F.content files.new ≡ F.content files.old }
{
    let bytes = content_of(files, asked.sent)?;
    keep_sent(alloc, asked, harts, bytes)
}

/// Checks SENT, which has these bytes, and keeps the payloads of these harts.
fn keep_sent<'a>(
    alloc: Global,
    asked: &Asked<'a>,
    harts: HartRange,
    bytes: Vec<u8>,
) -> Result<KeptSent, Fault<'a>>
    ensures held { IfOk result (KeepsSent (by_packets asked.now.packets) harts bytes.items) }
    ensures lacked { IfErr result (λ why. (why ≡ Fault.Memory)
        ⊎ IsFoundSent asked.now.sent bytes.items (Err why)) }
{
    let content = bytes.as_slice();
    let front = check_sent(alloc, asked.sent, content)?;
    let by = by_packets(asked.packets);
    let whole = read_by_hart(alloc, harts, front.1, by, content)?;
    Ok(KeptSent {
        bytes,
        header: front.0,
        payloads: whole.lists.payloads,
    })
}

/// The header of SENT, which has these bytes, and how many harts it has. It is refused where it is not complete.
fn check_sent<'a>(
    alloc: Global,
    path: &'a str,
    bytes: &[u8],
) -> Result<(Option<Header>, usize), Fault<'a>>
    ensures held { IfOk result (λ found. (messages : List AnyMessage) × IsSent bytes.now found.0 messages
        × (found.1 ≡ harts_of found.0 messages)) }
    ensures lacked { IfErr result (λ why. IsFoundSent path.entry bytes.now (Err why)) }
{
    match Audit::new(alloc, bytes) {
        Ok(audit) => Ok((audit.header(), audit.harts())),
        Err(why) => Err(sent_fault(path, why)),
    }
}
