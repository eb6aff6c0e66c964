//! SENT and RECEIVED, and how an audit of them ends.

ghost use Rattle.std.specs.Prelude.{◌≡◌, ◌≢◌, ◌==◌, ◌&&◌, Err, not};
ghost use Rattle.path_commands.specs.Faults.{final_status};
ghost use Rattle.path_commands.specs.Sides.{by_packets, end_of_audit, heads_differ};
ghost use Rattle.command_inputs.specs.declared.fault.Fault.TheVariants as Fault;

use crate::reason::{Fault, damaged_fault};
use command_inputs::Status;
use message::{Header, MessageFault};
use payload::By;

/// What payloads are compared by.
pub(crate) fn by_packets(packets: bool) -> By
    ensures { result ≡ by_packets packets }
{
    if packets { By::Packets } else { By::Bytes }
}

/// Whether headers differ: both captures have one, and these differ; or SENT has one, and that of RECEIVED is cut or not
/// valid.
pub(crate) fn are_unlike(
    sent: Option<Header>,
    came: Option<Header>,
    fault: Option<MessageFault>,
) -> bool
    ensures { result ≡ heads_differ sent came fault }
{
    if fault.is_some() {
        return sent.is_some();
    }
    match (sent, came) {
        (Some(sent), Some(received)) => {
            sent.mode != received.mode
                || sent.period != received.period
                || sent.harts != received.harts
        }
        _ => false,
    }
}

/// How the run ends: at RECEIVED's header, where it is cut or not valid, or else by whether the result is whole.
pub(crate) fn ended<'a>(
    received: &'a str,
    fault: Option<MessageFault>,
    whole: bool,
) -> Result<Status, Fault<'a>>
    ensures value { result ≡ end_of_audit received.entry fault whole }
    ensures never_refused { final_status result ≢ Status.Refused }
    ensures no_memory { result ≢ Err Fault.Memory }
{
    match fault {
        Some(_) => Err(damaged_fault(received)),
        None if whole => Ok(Status::Whole),
        None => Ok(Status::NotWhole),
    }
}

/// Whether the result is whole, by whether all harts are, how many strangers came, whether headers differ, and whether
/// RECEIVED is read without damage and to its end.
pub(crate) fn is_whole(all_whole: bool, strangers: u64, unlike: bool, undamaged: bool) -> bool
    ensures { result ≡ (all_whole && (strangers == 0) && not unlike && undamaged) }
{
    all_whole && strangers == 0 && !unlike && undamaged
}
