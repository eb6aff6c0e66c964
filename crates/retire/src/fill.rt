//! The bytes of a log that are held.

ghost use Rattle.std.specs.Prelude.{◌≡◌, ◌≤◌, ◌<◌, ◌++◌, ℕ, List, drop, length, vec_len, IfErr, IfOk, OnOk, Ok, true};
ghost use Rattle.std.specs.Io.KnownBytes.{IsAtEnd, Keeps, prepend_known};
ghost use Rattle.retire.specs.Log.{IsReadOrMemory};

use crate::fault::LogFault;
use crate::source::{Source, fault_of};
use std::mem;

/// Appends bytes of a source to those that are held, until they are so many, and returns whether the source has ended.
/// Each call of the source reads into `room`.
pub(crate) fn fill<S: Source>(
    source: &mut S,
    room: &mut [u8],
    held: &mut Vec<u8>,
    size: usize,
) -> Result<bool, LogFault>
    ensures given { OnOk result ((bytes : List ℕ) × (S.given source.new ≡ S.given source.old ++ bytes)
        × (held.new.items ≡ held.old.items ++ bytes)) }
    ensures ended { result ≡ Ok true → 0 < length room.old → IsAtEnd (S.left source.new) }
    ensures kept { Keeps (prepend_known (S.given source.old) (S.left source.old))
        (prepend_known (S.given source.new) (S.left source.new)) }
    ensures denied { IfErr result IsReadOrMemory }
    ensures same { length room.new ≡ length room.old }
{
    while held.len() < size {
        match source.read(room) {
            Ok(0) => return Ok(true),
            Ok(count) => {
                if held.extend_from_slice(&room[..count]).is_err() {
                    return Err(LogFault::Memory);
                }
            }
            Err(fault) => return Err(fault_of(fault)),
        }
    }
    Ok(false)
}

/// Copies the bytes that are not read yet into `spare`.
pub(crate) fn keep(spare: &mut Vec<u8>, rest: &[u8]) -> Result<(), LogFault>
    ensures kept { OnOk result (spare.new.items ≡ rest.now) }
    ensures denied { IfErr result (λ fault. fault ≡ LogFault.Memory) }
{
    spare.clear();
    if spare.extend_from_slice(rest).is_err() {
        return Err(LogFault::Memory);
    }
    Ok(())
}

/// Drops so many of the bytes that are held. The others are copied into `spare`, which then takes their place.
pub(crate) fn drop_front(
    held: &mut Vec<u8>,
    spare: &mut Vec<u8>,
    count: usize,
) -> Result<(), LogFault>
    requires within { count ≤ vec_len held.old }
    ensures held { OnOk result (held.new.items ≡ drop count held.old.items) }
    ensures denied { IfErr result (λ fault. fault ≡ LogFault.Memory) }
{
    match keep(spare, &held[count..]) {
        Ok(()) => {
            mem::swap(held, spare);
            Ok(())
        }
        Err(fault) => Err(fault),
    }
}
